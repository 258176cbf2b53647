// Hand-computed bytes, from the tables of the protocol.
ghost use Rattle.std.specs.Prelude.{◌≡◌, true, false, IfOk, IfSome};

use super::*;
use gui_num::NoMemory;
use gui_wire::{MAX_CLIPBOARD_DATA, MAX_CLIPBOARD_SIZE};
use std::alloc::Global;

const VERSION: [u8; 4] = [7, 0, 1, 0];

const CREATE: [u8; 36] = [
    0x82, 0, 0, 0, 1, 0, 0, 0, 0x18, 0, 0, 0, 2, 0, 0, 0, 2, 0, 0, 0, 2, 0, 0, 0, 2, 0, 0, 0, 0, 0,
    0, 0, 0, 0, 0, 0,
];

const MAP: [u8; 20] = [
    0x84, 0, 0, 0, 1, 0, 0, 0, 8, 0, 0, 0, 0, 0, 0, 0, 0, 0, 0, 0,
];

const FLAGS: [u8; 20] = [
    0x91, 0, 0, 0, 1, 0, 0, 0, 8, 0, 0, 0, 4, 0, 0, 0, 0, 0, 0, 0,
];

// Clipboard data of 65,001 bytes.
const CLIP_HEAD: [u8; 12] = [0x8c, 0, 0, 0, 1, 0, 0, 0, 0xe9, 0xfd, 0, 0];

// Clipboard data of 256,001 bytes.
const LONG_HEAD: [u8; 12] = [0x8c, 0, 0, 0, 1, 0, 0, 0, 1, 0xe8, 3, 0];

// Clipboard data of three bytes, and of four.
const THREE: [u8; 15] = [0x8c, 0, 0, 0, 1, 0, 0, 0, 3, 0, 0, 0, 0x61, 0x62, 0x63];

const FOUR: [u8; 16] = [
    0x8c, 0, 0, 0, 1, 0, 0, 0, 4, 0, 0, 0, 0x61, 0x62, 0x63, 0x64,
];

const UNKNOWN_HEAD: [u8; 12] = [0x8a, 0, 0, 0, 1, 0, 0, 0, 4, 0, 0, 0];

// Whether each byte was taken, one at a time.
fn push_each(stream: &mut InStream, bytes: &[u8]) -> bool
    ensures { stream.new.greeted ≡ stream.old.greeted }
{
    let mut all = true;
    for byte in bytes {
        all &= stream.push(&[*byte]) == 1;
    }
    all
}

// Whether n times 1,000 bytes were taken, 1,000 at a time.
fn push_zeros(stream: &mut InStream, n: u32) -> bool
    ensures { stream.new.greeted ≡ stream.old.greeted }
{
    let mut all = true;
    for _ in 0..n {
        all &= stream.push(&[0; 1000]) == 1000;
    }
    all
}

fn take_word(stream: &mut InStream) -> Option<u32>
    requires { stream.old.greeted ≡ false }
    ensures { IfSome result (λ _. stream.new.greeted ≡ true) }
{
    let word = stream.word()?;
    stream.drop_word();
    Some(word)
}

// Whether this whole message stands at the front, which is then dropped.
fn takes_message(stream: &mut InStream, kind: u32, body: &[u8]) -> bool
    requires { stream.old.greeted ≡ true }
    ensures { stream.new.greeted ≡ true }
{
    match stream.front() {
        Front::Whole {
            header,
            body: shown,
        } => {
            let same = header.kind == kind && header.window == 1 && shown == body;
            stream.drop_front();
            same
        }
        _ => false,
    }
}

// Whether a skipped body of this length stands at the front, which is then dropped.
fn takes_skipped(stream: &mut InStream, len: u32) -> bool
    requires { stream.old.greeted ≡ true }
    ensures { stream.new.greeted ≡ true }
{
    match stream.front() {
        Front::Skipped { header } => {
            stream.drop_front();
            header.len == len
        }
        _ => false,
    }
}

// A buffer behind the version word, for clipboard data up to this limit.
fn greeted(alloc: Global, limit: u32) -> Result<InStream, NoMemory>
    ensures { IfOk result (λ s. s.greeted ≡ true) }
{
    let mut stream = InStream::new(alloc, limit)?;
    stream.push(&VERSION);
    match take_word(&mut stream) {
        Some(_) => Ok(stream),
        None => Err(NoMemory),
    }
}

#[test]
fn takes_bytes_one_at_a_time(rt: HostRuntime) -> Result<(), NoMemory> {
    let mut stream = InStream::new(rt.alloc(), MAX_CLIPBOARD_SIZE)?;
    assert!(rt; push_each(&mut stream, &VERSION[..3]));
    assert_eq!(rt; stream.word(), None);
    assert!(rt; push_each(&mut stream, &VERSION[3..]));
    let word = take_word(&mut stream);
    assert_eq!(rt; word, Some(65543));
    if word.is_some() {
        assert!(rt; matches!(stream.front(), Front::Need { more: 12 }));
    }
    Ok(())
}

#[test]
fn shows_messages_whole(rt: HostRuntime) -> Result<(), NoMemory> {
    let mut stream = greeted(rt.alloc(), MAX_CLIPBOARD_SIZE)?;
    assert!(rt; push_each(&mut stream, &CREATE[..12]));
    assert!(rt; matches!(stream.front(), Front::Need { more: 24 }));
    assert!(rt; push_each(&mut stream, &CREATE[12..]));
    assert!(rt; push_each(&mut stream, &MAP));
    assert!(rt; push_each(&mut stream, &FLAGS));
    assert!(rt; takes_message(&mut stream, 130, &CREATE[12..]));
    assert!(rt; takes_message(&mut stream, 132, &MAP[12..]));
    assert!(rt; takes_message(&mut stream, 145, &FLAGS[12..]));
    assert!(rt; matches!(stream.front(), Front::Need { more: 12 }));
    Ok(())
}

#[test]
fn skips_a_long_clipboard_body(rt: HostRuntime) -> Result<(), NoMemory> {
    let mut stream = greeted(rt.alloc(), MAX_CLIPBOARD_SIZE)?;
    assert_eq!(rt; stream.push(&CLIP_HEAD), 12);
    assert!(rt; matches!(stream.front(), Front::Skipping { left: 65001 }));
    assert!(rt; push_zeros(&mut stream, 65));
    assert!(rt; matches!(stream.front(), Front::Skipping { left: 1 }));
    assert_eq!(rt; stream.push(&[0]), 1);
    assert_eq!(rt; stream.push(&MAP), 20);
    assert!(rt; takes_skipped(&mut stream, 65001));
    assert!(rt; takes_message(&mut stream, 132, &MAP[12..]));
    Ok(())
}

#[test]
fn keeps_clipboard_data_up_to_the_limit(rt: HostRuntime) -> Result<(), NoMemory> {
    let mut stream = greeted(rt.alloc(), 3)?;
    assert_eq!(rt; stream.push(&THREE), 15);
    assert_eq!(rt; stream.push(&FOUR), 16);
    assert!(rt; takes_message(&mut stream, 140, &THREE[12..]));
    assert!(rt; takes_skipped(&mut stream, 4));
    let mut stream = greeted(rt.alloc(), MAX_CLIPBOARD_DATA)?;
    assert_eq!(rt; stream.push(&CLIP_HEAD), 12);
    assert!(rt; matches!(stream.front(), Front::Need { more: 65001 }));
    Ok(())
}

#[test]
fn refuses_by_the_header_alone(rt: HostRuntime) -> Result<(), NoMemory> {
    let mut stream = greeted(rt.alloc(), MAX_CLIPBOARD_SIZE)?;
    stream.push(&UNKNOWN_HEAD);
    assert!(rt;
        matches!(
            stream.front(),
            Front::Bad {
                fault: WireFault::Kind(138),
                ..
            }
        )
    );
    let mut stream = greeted(rt.alloc(), MAX_CLIPBOARD_SIZE)?;
    stream.push(&LONG_HEAD);
    assert!(rt; matches!(stream.front(), Front::ClipLong { .. }));
    Ok(())
}
