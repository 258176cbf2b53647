// A record that is read, run over and written.

use crate::{Bounds, Outcome, ReplayFeed, desk_run};
use desk_laws::{GuestSetup, Guests, Name, Outputs, Pairs, Setup};
use frame_pool::PoolPort;
use gui_num::{Colour, Rect};
use io_ports::{MemSink, MemSource, RecordFault, RecordKind};
use std::alloc::Global;
use std::test::Fail;

// A black desktop of this size with these outputs, and the guest `red`.
fn black(alloc: Global, width: u32, height: u32, outputs: Outputs) -> Result<Setup, Fail> {
    let mut guests = Guests::new(alloc);
    guests.push(GuestSetup {
        colour: Colour(0xff_0000),
        name: Name::new(b"red"),
    })?;
    Ok(Setup {
        width,
        height,
        border: 1,
        pages: 16,
        tiles: 1,
        percent: 90,
        background: Colour(0),
        guests,
        outputs,
        clip: 1,
        denied: Pairs::new(alloc),
    })
}

// An output with its upper left corner in column `x` and row `y` of the plane.
fn output(x: i32, y: i32, w: u32, h: u32) -> Rect {
    Rect { x, y, w, h }
}

// A black desktop of 2 by 1 pixels, shown whole, and the guest `red`.
fn two_pixels(alloc: Global) -> Result<Setup, Fail> {
    let mut outputs = Outputs::new(alloc);
    outputs.push(output(0, 0, 2, 1))?;
    black(alloc, 2, 1, outputs)
}

// A black desktop of 12 by 6 pixels with two outputs of 5 by 6, and the guest `red`.
fn two_outputs(alloc: Global) -> Result<Setup, Fail> {
    let mut outputs = Outputs::new(alloc);
    outputs.push(output(0, 0, 5, 6))?;
    outputs.push(output(7, 0, 5, 6))?;
    black(alloc, 12, 6, outputs)
}

// Closed of guest 0, Snap, and End; what stands behind End isn't read.
const ITEMS: [u8; 6] = [3, 0, 9, 10, 10, 9];

// A change of the first word of page 15, which is counted; then one of guest 1, who isn't there: its
// fields are wrong, and its bytes are missing.
const CHANGES: [u8; 36] = [
    4, 0, 0, 0, 15, 0, 0, 0, 0, 0, 0, 0, 4, 0, 0, 0, 1, 2, 3, 4, // guest 0, delay 0
    4, 1, 0, 0, 15, 0, 0, 0, 0, 0, 0, 0, 4, 0, 0, 0, // guest 1
];

// Ended of guest 0 for the cause 12, the Picture, and the Summary: 3 items and 2 pixels drawn.
const OUTPUT: [u8; 66] = [
    2, 0, 12, 0, 0, 0, 0, 0, 0, 0, 0, // Ended
    3, 17, 0, 0, 0, 80, 54, 10, 50, 32, 49, 10, 50, 53, 53, 10, 0, 0, 0, 0, 0, 0, // Picture
    4, 3, 0, 0, 0, 0, 0, 0, 0, 0, 0, 0, 0, 0, 0, 0, 0, 0, 0, 0, 0, 0, 0, 0, 0, 2, 0, 0, 0, 0, 0, 0,
    0,
];

#[test]
fn record_is_run(rt: HostRuntime) -> Result<(), Fail> {
    let alloc = rt.alloc();
    let setup = two_pixels(alloc)?;
    match setup.first_broken() {
        Some(_) => return Ok(()),
        None => {}
    }
    let source = MemSource::new(alloc, &ITEMS, &[])?;
    let mut out = MemSink::new(alloc, &[])?;
    let guests = setup.guests.items().len() as u32;
    let mut port = PoolPort::new(alloc, guests, setup.pages)?;
    let mut feed = ReplayFeed::new(alloc, source, &setup, 42)?;
    let outcome = desk_run(
        alloc,
        &setup,
        &mut feed,
        &mut port,
        &mut out,
        Bounds { items: 3 },
    );
    assert_eq!(&rt; outcome, Outcome::Done);
    assert_eq!(&rt; out.bytes(), OUTPUT.as_slice());
    Ok(())
}

// How a Picture record of 5 by 6 pixels begins.
const HEAD: [u8; 16] = [3, 101, 0, 0, 0, 80, 54, 10, 53, 32, 54, 10, 50, 53, 53, 10];

// Snap, and End.
const SNAP: [u8; 2] = [9, 10];

#[test]
fn outputs_are_written(rt: HostRuntime) -> Result<(), Fail> {
    let alloc = rt.alloc();
    let setup = two_outputs(alloc)?;
    match setup.first_broken() {
        Some(_) => return Ok(()),
        None => {}
    }
    let source = MemSource::new(alloc, &SNAP, &[])?;
    let mut out = MemSink::new(alloc, &[])?;
    let guests = setup.guests.items().len() as u32;
    let mut port = PoolPort::new(alloc, guests, setup.pages)?;
    let mut feed = ReplayFeed::new(alloc, source, &setup, 42)?;
    let outcome = desk_run(
        alloc,
        &setup,
        &mut feed,
        &mut port,
        &mut out,
        Bounds { items: 2 },
    );
    assert_eq!(&rt; outcome, Outcome::Done);
    // Two Picture records, each with its kind byte, a length of 101, 11 bytes of head and 90 of pixels, and the Summary.
    let bytes = out.bytes();
    assert_eq!(&rt; bytes.len(), 106 + 106 + 33);
    assert_eq!(&rt; &bytes[..16], HEAD.as_slice());
    assert_eq!(&rt; &bytes[106..122], HEAD.as_slice());
    Ok(())
}

#[test]
fn changes_are_read(rt: HostRuntime) -> Result<(), Fail> {
    let alloc = rt.alloc();
    let setup = two_pixels(alloc)?;
    match setup.first_broken() {
        Some(_) => return Ok(()),
        None => {}
    }
    let source = MemSource::new(alloc, &CHANGES, &[])?;
    let mut out = MemSink::new(alloc, &[])?;
    let guests = setup.guests.items().len() as u32;
    let mut port = PoolPort::new(alloc, guests, setup.pages)?;
    let mut feed = ReplayFeed::new(alloc, source, &setup, 42)?;
    let outcome = desk_run(
        alloc,
        &setup,
        &mut feed,
        &mut port,
        &mut out,
        Bounds { items: 3 },
    );
    let fault = RecordFault {
        offset: 62,
        kind: RecordKind::Range,
    };
    assert_eq!(&rt; outcome, Outcome::BadRecord(fault));
    assert_eq!(&rt; out.bytes().len(), 0);
    Ok(())
}
