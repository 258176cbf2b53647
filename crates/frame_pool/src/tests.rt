// Frames of one or two guests, each of one page, with memory in plenty.
ghost use Rattle.std.specs.Prelude.{◌<◌, ◌≤◌};
ghost use Rattle.frame_pool.specs.Ports.{KeepsExtent};

use super::*;
use std::test::Fail;

// The word with this number in the page of a guest.
fn word<P: FramePort>(port: &mut P, guest: u32, word: u32) -> u32
    requires guest { guest < P.guests port.old }
    requires page { 0 < P.pages port.old }
    requires word { word < 1024 }
    ensures { KeepsExtent P.guests P.pages port.old port.new }
{
    port.load(guest, Place { page: 0, word })
}

// Three words of the page of a guest, from this one on, as one number: the first word times 100, the next times
// 10, and the last.
fn three<P: FramePort>(port: &mut P, guest: u32, word: u32) -> u32
    requires guest { guest < P.guests port.old }
    requires page { 0 < P.pages port.old }
    requires word { word ≤ 1021 }
    ensures { KeepsExtent P.guests P.pages port.old port.new }
{
    let mut words = [5, 5, 5];
    port.load_run(guest, Place { page: 0, word }, &mut words);
    words[0]
        .wrapping_mul(100)
        .wrapping_add(words[1].wrapping_mul(10))
        .wrapping_add(words[2])
}

// Writes three equal words at the start of the page of a guest.
fn store<P: FramePort>(port: &mut P, guest: u32, delay: u16, word: u32)
    requires guest { guest < P.guests port.old }
    requires page { 0 < P.pages port.old }
    ensures { KeepsExtent P.guests P.pages port.old port.new }
{
    let b = word.to_le_bytes();
    let bytes = [
        b[0], b[1], b[2], b[3], b[0], b[1], b[2], b[3], b[0], b[1], b[2], b[3],
    ];
    port.store(guest, delay, 0, 0, &bytes);
}

// Does so eight times for guest 0.
fn store_eight<P: FramePort>(port: &mut P, delay: u16, word: u32)
    requires guest { 0 < P.guests port.old }
    requires page { 0 < P.pages port.old }
    ensures { KeepsExtent P.guests P.pages port.old port.new }
{
    store(port, 0, delay, word);
    store(port, 0, delay, word);
    store(port, 0, delay, word);
    store(port, 0, delay, word);
    store(port, 0, delay, word);
    store(port, 0, delay, word);
    store(port, 0, delay, word);
    store(port, 0, delay, word);
}

#[test]
fn a_word_keeps_its_place(rt: HostRuntime) -> Result<(), Fail> {
    let mut glass = Glass::new(rt.alloc(), 2)?;
    let first = Place { page: 0, word: 0 };
    let next = Place { page: 1, word: 0 };
    let last = Place {
        page: 1,
        word: 1023,
    };
    glass.store(last, 0xffff_ffff);
    glass.store(next, 0x0102_0304);
    assert_eq!(rt; glass.load(first), 0);
    assert_eq!(rt;
        glass.load(Place {
            page: 0,
            word: 1023
        }),
        0
    );
    assert_eq!(rt; glass.load(next), 0x0102_0304);
    assert_eq!(rt; glass.load(last), 0xffff_ffff);
    glass.store(last, 7);
    assert_eq!(rt; glass.load(last), 7);
    Ok(())
}

#[test]
fn a_store_waits_for_its_load(rt: HostRuntime) -> Result<(), Fail> {
    let mut port = PoolPort::new(rt.alloc(), 1, 1)?;
    store(&mut port, 0, 0, 0x0011_2233);
    store(&mut port, 0, 1, 0x00aa_bbcc);
    assert_eq!(rt; word(&mut port, 0, 0), 0x0011_2233);
    assert_eq!(rt; word(&mut port, 0, 1), 0x00aa_bbcc);
    assert_eq!(rt; word(&mut port, 0, 2), 0x00aa_bbcc);
    Ok(())
}

// Of two stores that are due the one that is due first is written first, and both before one that
// doesn't wait.
#[test]
fn due_stores_come_in_order(rt: HostRuntime) -> Result<(), Fail> {
    let mut port = PoolPort::new(rt.alloc(), 1, 1)?;
    store(&mut port, 0, 2, 2);
    store(&mut port, 0, 1, 1);
    store(&mut port, 0, 3, 3);
    store(&mut port, 0, 3, 4);
    assert_eq!(rt; word(&mut port, 0, 0), 0);
    assert_eq!(rt; word(&mut port, 0, 0), 1);
    assert_eq!(rt; word(&mut port, 0, 0), 2);
    assert_eq!(rt; word(&mut port, 0, 0), 4);
    store(&mut port, 0, 1, 5);
    assert_eq!(rt; word(&mut port, 0, 0), 4);
    store(&mut port, 0, 0, 6);
    assert_eq!(rt; word(&mut port, 0, 0), 6);
    Ok(())
}

// A store falls due at the second word of a run, at its last, and at its first; then one at the second and one
// at the last.
#[test]
fn stores_fall_due_in_a_run(rt: HostRuntime) -> Result<(), Fail> {
    let mut port = PoolPort::new(rt.alloc(), 1, 1)?;
    store(&mut port, 0, 1, 7);
    assert_eq!(rt; three(&mut port, 0, 0), 77);
    store(&mut port, 0, 2, 8);
    assert_eq!(rt; three(&mut port, 0, 0), 778);
    store(&mut port, 0, 1, 9);
    assert_eq!(rt; word(&mut port, 0, 0), 8);
    assert_eq!(rt; three(&mut port, 0, 0), 999);
    store(&mut port, 0, 2, 2);
    store(&mut port, 0, 1, 1);
    assert_eq!(rt; three(&mut port, 0, 0), 912);
    assert_eq!(rt; three(&mut port, 0, 1021), 0);
    assert_eq!(rt; three(&mut port, 0, 2), 200);
    Ok(())
}

// With 64 stores waiting the next one is written at once; once they are written it may wait again.
#[test]
fn no_more_than_64_wait(rt: HostRuntime) -> Result<(), Fail> {
    let mut port = PoolPort::new(rt.alloc(), 1, 1)?;
    store_eight(&mut port, 2, 1);
    store_eight(&mut port, 2, 1);
    store_eight(&mut port, 2, 1);
    store_eight(&mut port, 2, 1);
    store_eight(&mut port, 2, 1);
    store_eight(&mut port, 2, 1);
    store_eight(&mut port, 2, 1);
    store_eight(&mut port, 2, 1);
    assert_eq!(rt; word(&mut port, 0, 0), 0);
    store(&mut port, 0, 9, 2);
    assert_eq!(rt; word(&mut port, 0, 0), 2);
    store(&mut port, 0, 1, 3);
    assert_eq!(rt; word(&mut port, 0, 0), 1);
    assert_eq!(rt; word(&mut port, 0, 0), 3);
    Ok(())
}

#[test]
fn guests_have_words_of_their_own(rt: HostRuntime) -> Result<(), Fail> {
    let mut port = PoolPort::new(rt.alloc(), 2, 1)?;
    store(&mut port, 1, 0, 0x0011_2233);
    store(&mut port, 0, 1, 0x00aa_bbcc);
    assert_eq!(rt; word(&mut port, 1, 0), 0x0011_2233);
    assert_eq!(rt; word(&mut port, 1, 0), 0x0011_2233);
    assert_eq!(rt; word(&mut port, 0, 0), 0);
    assert_eq!(rt; word(&mut port, 0, 0), 0x00aa_bbcc);
    assert_eq!(rt; word(&mut port, 1, 0), 0x0011_2233);
    Ok(())
}

#[test]
fn a_tape_is_read_to_its_end(rt: HostRuntime) -> Result<(), Fail> {
    let mut port = TapePort::new(rt.alloc(), 2, 1)?;
    port.push(1, 1)?;
    port.push(1, 2)?;
    port.push(1, 3)?;
    assert_eq!(rt; port.left(1), 3);
    assert_eq!(rt; word(&mut port, 0, 0), 0);
    assert_eq!(rt; word(&mut port, 1, 5), 1);
    store(&mut port, 1, 0, 9);
    assert_eq!(rt; word(&mut port, 1, 5), 2);
    assert_eq!(rt; word(&mut port, 1, 0), 3);
    assert_eq!(rt; port.left(1), 0);
    assert_eq!(rt; word(&mut port, 1, 0), 0);
    port.push(1, 4)?;
    port.push(1, 6)?;
    assert_eq!(rt; three(&mut port, 1, 9), 460);
    assert_eq!(rt; port.left(1), 0);
    Ok(())
}
