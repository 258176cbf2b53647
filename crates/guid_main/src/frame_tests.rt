// Frames that change while they are read, and faults of a record, through whole runs over memory. What
// they have to write was worked by hand.

use crate::message_tests::{ended, item, no_window, reply, said, spelled};
use crate::status::Status;
use crate::tests::{CONFIG, FOCUSED, GREETING, TAIL, gives, joined, picture, replayed, summary};
use io_ports::{RecordFault, RecordKind};
use std::alloc::Global;
use std::test::Fail;

// Window 1 of 3 by 1 pixels at (2, 2), mapped.
const THREE: [u32; 9] = [130, 1, 24, 2, 2, 3, 1, 0, 0];

const MAP: [u32; 5] = [132, 1, 8, 0, 0];

// Its dump, of 3 by 1 pixels in page 0.
const DUMP: [u32; 8] = [147, 1, 20, 0, 3, 1, 32, 0];

// The same word in the first three of page 0, after so many loads.
fn store(alloc: Global, delay: u16, word: u32) -> Result<Vec<u8>, Fail> {
    let [low, high] = delay.to_le_bytes();
    let place = spelled(alloc, &[0, 0, 12])?;
    let words = spelled(alloc, &[word, word, word])?;
    joined(alloc, &[&[4, 0, low, high], &place, &words])
}

// The window, a store at once, one that waits for one load, and a report of all three pixels.
fn three_reported(alloc: Global) -> Result<Vec<u8>, Fail> {
    let window = said(alloc, &[&THREE, &MAP, &DUMP])?;
    let first = store(alloc, 0, 0x0011_2233)?;
    let second = store(alloc, 1, 0x00aa_bbcc)?;
    let report = report(alloc, &[136, 1, 16, 0, 0, 3, 1])?;
    joined(alloc, &[&window, &first, &second, &report])
}

// One message in an item of its own.
fn report(alloc: Global, numbers: &[u32]) -> Result<Vec<u8>, Fail> {
    let message = spelled(alloc, numbers)?;
    item(alloc, &message)
}

// The picture of the window with these three pixels.
fn shown(alloc: Global, pixels: &[u8; 3]) -> Result<Vec<u8>, Fail> {
    let map = joined(
        alloc,
        &[
            b".........RRRRR...R",
            pixels,
            b"R...RRRRR..................",
            &[],
        ],
    )?;
    picture(alloc, &map)
}

// A Summary of so many items, messages and loads, with so many pixels drawn.
fn summary_of(items: u8, messages: u8, loads: u8, painted: u8) -> [u8; 33] {
    let mut record = summary(items, messages);
    record[17] = loads;
    record[25] = painted;
    record
}

#[test]
fn frame_changes_between_loads(rt: HostRuntime) -> Result<(), Fail> {
    let alloc = rt.alloc();
    let items = three_reported(alloc)?;
    let ack = reply(alloc, 12, &[149, 1, 0])?;
    let shown = shown(alloc, b"abb")?;
    gives(
        &rt,
        alloc,
        &[&CONFIG, &items, &TAIL],
        &[&GREETING, &FOCUSED, &ack, &shown, &summary_of(6, 4, 3, 48)],
    )
}

// Nothing is loaded of what lies outside the dump, and nothing changes. A column of 31 bits ends the
// session.
#[test]
fn report_outside_the_dump(rt: HostRuntime) -> Result<(), Fail> {
    let alloc = rt.alloc();
    let items = three_reported(alloc)?;
    let outside = report(alloc, &[136, 1, 16, 3, 0, 5, 5])?;
    let wrong = report(alloc, &[136, 1, 16, 0x8000_0000, 0, 3, 1])?;
    let ack = reply(alloc, 12, &[149, 1, 0])?;
    let shown = shown(alloc, b"abb")?;
    let ended = ended(4, 1, 2_147_483_648);
    let gone = no_window(alloc)?;
    gives(
        &rt,
        alloc,
        &[&CONFIG, &items, &outside, &[9], &wrong, &TAIL],
        &[
            &GREETING,
            &FOCUSED,
            &ack,
            &shown,
            &ended,
            &gone,
            &summary_of(9, 5, 3, 96),
        ],
    )
}

// A window that was cut to one pixel and is grown again has contents there alone.
#[test]
fn cut_and_grown(rt: HostRuntime) -> Result<(), Fail> {
    let alloc = rt.alloc();
    let items = three_reported(alloc)?;
    let cut = report(alloc, &[134, 1, 20, 2, 2, 1, 1, 0])?;
    let grown = report(alloc, &[134, 1, 20, 2, 2, 3, 1, 0])?;
    let ack = reply(alloc, 12, &[149, 1, 0])?;
    let small = reply(alloc, 32, &[134, 1, 20, 2, 2, 1, 1, 0])?;
    let large = reply(alloc, 32, &[134, 1, 20, 2, 2, 3, 1, 0])?;
    let shown = shown(alloc, b"a--")?;
    gives(
        &rt,
        alloc,
        &[&CONFIG, &items, &cut, &grown, &TAIL],
        &[
            &GREETING,
            &FOCUSED,
            &ack,
            &small,
            &large,
            &shown,
            &summary_of(8, 6, 3, 48),
        ],
    )
}

// Of a row of 65 pixels two tiles would be taken, and there is one: nothing is loaded.
#[test]
fn too_few_tiles(rt: HostRuntime) -> Result<(), Fail> {
    let alloc = rt.alloc();
    let mut config = CONFIG;
    config[21] = 1;
    config[22] = 0;
    let window: [u32; 9] = [130, 1, 24, 2, 2, 65, 1, 0, 0];
    let dump: [u32; 8] = [147, 1, 20, 0, 65, 1, 32, 0];
    let items = said(alloc, &[&window, &dump, &[136, 1, 16, 0, 0, 65, 1]])?;
    let ack = reply(alloc, 12, &[149, 1, 0])?;
    let gone = no_window(alloc)?;
    gives(
        &rt,
        alloc,
        &[&config, &items, &TAIL],
        &[
            &GREETING,
            &ack,
            &ended(10, 2, 1),
            &gone,
            &summary_of(3, 2, 0, 48),
        ],
    )
}

// The status and how much was written, of a record that ends like this behind the setup and a Snap.
fn ends_with(alloc: Global, end: &[u8]) -> Result<(Status, usize), Fail> {
    let record = joined(alloc, &[&CONFIG, &[9], end])?;
    let (status, output) = replayed(alloc, &record, &[], &[])?;
    Ok((status, output.len()))
}

// A fault of this kind at this offset.
fn bad(offset: u64, kind: RecordKind) -> Status {
    Status::BadRecord {
        fault: RecordFault { offset, kind },
    }
}

// The record ends where an item is due, within one, or with one that isn't right. The picture before it
// was written, 160 bytes.
#[test]
fn cut_record(rt: HostRuntime) -> Result<(), Fail> {
    let alloc = rt.alloc();
    assert_eq!(rt; ends_with(alloc, &[])?, (bad(43, RecordKind::Short), 160));
    assert_eq!(rt;
        ends_with(alloc, &[0xff])?,
        (bad(43, RecordKind::Kind), 160)
    );
    let fields: [u8; 16] = [4, 0, 0, 0, 255, 31, 0, 0, 252, 15, 0, 0, 4, 0, 0, 0];
    assert_eq!(rt;
        ends_with(alloc, &fields)?,
        (bad(43, RecordKind::Short), 160)
    );
    let mut next_page = fields;
    next_page[4] = 0;
    next_page[5] = 32;
    assert_eq!(rt;
        ends_with(alloc, &next_page)?,
        (bad(43, RecordKind::Range), 160)
    );
    assert_eq!(rt;
        ends_with(alloc, &next_page[..15])?,
        (bad(43, RecordKind::Short), 160)
    );
    let (status, output) = replayed(alloc, &[], &[], &[])?;
    assert_eq!(rt; status, bad(0, RecordKind::Short));
    assert_eq!(rt; output.len(), 0);
    Ok(())
}
