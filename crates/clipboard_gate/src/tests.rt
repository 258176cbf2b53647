// A clipboard of eight bytes, with memory in plenty, and blocks worked by hand.
use super::*;
use gui_num::NoMemory;
use gui_wire::MAX_CLIPBOARD_SIZE;

const EIGHT: [u8; 8] = [1, 2, 3, 4, 5, 6, 7, 8];

const NINE: [u8; 9] = [1, 2, 3, 4, 5, 6, 7, 8, 9];

const THREE: [u8; 3] = [0x61, 0x62, 0x63];

// Whether these bytes of this guest are held.
fn holds(gate: &Gate, source: u32, bytes: &[u8]) -> bool {
    match gate.paste() {
        Some(held) => held == bytes && gate.source() == Some(source),
        None => false,
    }
}

// Whether nothing is held, and all eight bytes of the block are zero.
fn is_blank(gate: &Gate) -> bool {
    gate.paste().is_none() && gate.source().is_none() && gate.kept[..] == [0; 8]
}

// Asks a guest, and takes its data.
fn copy(gate: &mut Gate, guest: u32, bytes: &[u8]) -> bool {
    gate.ask(guest);
    gate.take(guest, bytes)
}

#[test]
fn gives_what_was_copied_until_it_is_wiped(rt: HostRuntime) -> Result<(), NoMemory> {
    let mut gate = Gate::new(rt.alloc(), 8)?;
    assert!(rt; is_blank(&gate));
    gate.ask(3);
    assert!(rt; is_blank(&gate));
    assert!(rt; gate.take(3, &THREE));
    assert!(rt; holds(&gate, 3, &THREE));
    gate.wipe();
    assert!(rt; is_blank(&gate));
    Ok(())
}

#[test]
fn leaves_nothing_of_longer_data(rt: HostRuntime) -> Result<(), NoMemory> {
    let mut gate = Gate::new(rt.alloc(), 8)?;
    assert!(rt; copy(&mut gate, 1, &EIGHT));
    assert!(rt; holds(&gate, 1, &EIGHT));
    assert!(rt; copy(&mut gate, 2, &THREE));
    assert!(rt; holds(&gate, 2, &THREE));
    assert!(rt; gate.kept[..] == [0x61, 0x62, 0x63, 0, 0, 0, 0, 0]);
    assert!(rt; copy(&mut gate, 1, &[]));
    assert!(rt; holds(&gate, 1, &[]));
    assert!(rt; gate.kept[..] == [0; 8]);
    Ok(())
}

#[test]
fn takes_data_of_the_asked_guest_alone_and_once(rt: HostRuntime) -> Result<(), NoMemory> {
    let mut gate = Gate::new(rt.alloc(), 8)?;
    assert!(rt; !gate.take(1, &EIGHT));
    gate.ask(2);
    gate.ask(1);
    assert!(rt; !gate.take(2, &EIGHT));
    assert!(rt; !gate.over(2));
    assert!(rt; is_blank(&gate));
    assert!(rt; gate.take(1, &THREE));
    assert!(rt; !gate.take(1, &EIGHT));
    assert!(rt; !gate.over(1));
    assert!(rt; holds(&gate, 1, &THREE));
    Ok(())
}

#[test]
fn holds_nothing_after_data_that_is_too_long(rt: HostRuntime) -> Result<(), NoMemory> {
    let mut gate = Gate::new(rt.alloc(), 8)?;
    assert!(rt; copy(&mut gate, 1, &EIGHT));
    gate.ask(2);
    assert!(rt; !gate.take(1, &NINE));
    assert!(rt; holds(&gate, 1, &EIGHT));
    assert!(rt; !gate.take(2, &NINE));
    assert!(rt; is_blank(&gate));
    assert!(rt; !gate.take(2, &THREE));
    assert!(rt; copy(&mut gate, 1, &EIGHT));
    gate.ask(2);
    assert!(rt; gate.over(2));
    assert!(rt; is_blank(&gate));
    Ok(())
}

#[test]
fn forgets_the_question_of_one_guest(rt: HostRuntime) -> Result<(), NoMemory> {
    let mut gate = Gate::new(rt.alloc(), 8)?;
    gate.ask(1);
    gate.forget(2);
    assert!(rt; gate.take(1, &THREE));
    gate.ask(1);
    gate.forget(1);
    assert!(rt; !gate.take(1, &EIGHT));
    assert!(rt; holds(&gate, 1, &THREE));
    Ok(())
}

#[test]
fn opens_for_as_many_bytes_as_the_protocol_allows(rt: HostRuntime) -> Result<(), NoMemory> {
    let mut gate = Gate::new(rt.alloc(), MAX_CLIPBOARD_SIZE)?;
    let mut data = vec![in rt.alloc(); 0x61u8; MAX_CLIPBOARD_SIZE as usize]?;
    assert!(rt; copy(&mut gate, 1, &data));
    assert!(rt; holds(&gate, 1, &data));
    data.push(0x61)?;
    assert!(rt; !copy(&mut gate, 1, &data));
    assert!(rt; gate.paste().is_none());
    Ok(())
}
