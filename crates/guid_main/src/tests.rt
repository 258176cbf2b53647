// Whole runs over memory, with what they have to write worked by hand.

use crate::run::run;
use crate::status::Status;
use io_ports::{MemSink, MemSource};
use std::alloc::Global;
use std::process::Abort;
use std::test::Fail;

// A black desktop of 8 by 6 pixels, borders of one pixel, and the guest `red`.
pub(crate) const CONFIG: [u8; 42] = [
    81, 71, 82, 49, 1, 8, 0, 0, 0, 6, 0, 0, 0, 1, 0, 0, 0, 0, 32, 0, 0, 0, 16, 0, 0, 90, 0, 0, 0,
    0, 0, 0, 0, 1, 0, 0, 255, 0, 3, 114, 101, 100,
];

// Snap and End.
pub(crate) const TAIL: [u8; 2] = [9, 10];

// The version 1.7, CREATE of window 1 at (2, 2), 2 by 2, and MAP of it.
const ONE_WINDOW: [u8; 66] = [
    2, 0, 60, 0, 0, 0, 7, 0, 1, 0, 130, 0, 0, 0, 1, 0, 0, 0, 24, 0, 0, 0, 2, 0, 0, 0, 2, 0, 0, 0,
    2, 0, 0, 0, 2, 0, 0, 0, 0, 0, 0, 0, 0, 0, 0, 0, 132, 0, 0, 0, 1, 0, 0, 0, 8, 0, 0, 0, 0, 0, 0,
    0, 0, 0, 0, 0,
];

// The same at (-1, -1).
const CORNER: [u8; 66] = [
    2, 0, 60, 0, 0, 0, 7, 0, 1, 0, 130, 0, 0, 0, 1, 0, 0, 0, 24, 0, 0, 0, 255, 255, 255, 255, 255,
    255, 255, 255, 2, 0, 0, 0, 2, 0, 0, 0, 0, 0, 0, 0, 0, 0, 0, 0, 132, 0, 0, 0, 1, 0, 0, 0, 8, 0,
    0, 0, 0, 0, 0, 0, 0, 0, 0, 0,
];

// CREATE of window 1 once more.
const AGAIN: [u8; 42] = [
    2, 0, 36, 0, 0, 0, 130, 0, 0, 0, 1, 0, 0, 0, 24, 0, 0, 0, 2, 0, 0, 0, 2, 0, 0, 0, 2, 0, 0, 0,
    2, 0, 0, 0, 0, 0, 0, 0, 0, 0, 0, 0,
];

// The replies to the version: the daemon's 1.7, and 8 by 6 pixels, 24 bits, 1 KiB.
pub(crate) const GREETING: [u8; 32] = [
    1, 0, 4, 0, 0, 0, 7, 0, 1, 0, 1, 0, 16, 0, 0, 0, 8, 0, 0, 0, 6, 0, 0, 0, 24, 0, 0, 0, 1, 0, 0,
    0,
];

// What red is told where its window 1 gets the focus: FOCUS (in), and KEYMAP_NOTIFY.
pub(crate) const FOCUSED: [u8; 80] = [
    1, 0, 24, 0, 0, 0, 128, 0, 0, 0, 1, 0, 0, 0, 12, 0, 0, 0, 9, 0, 0, 0, 0, 0, 0, 0, 3, 0, 0, 0,
    1, 0, 44, 0, 0, 0, 142, 0, 0, 0, 0, 0, 0, 0, 32, 0, 0, 0, 0, 0, 0, 0, 0, 0, 0, 0, 0, 0, 0, 0,
    0, 0, 0, 0, 0, 0, 0, 0, 0, 0, 0, 0, 0, 0, 0, 0, 0, 0, 0, 0,
];

pub(crate) fn summary(items: u8, messages: u8) -> [u8; 33] {
    let mut record = [0u8; 33];
    record[0] = 4;
    record[1] = items;
    record[9] = messages;
    record[25] = 48;
    record
}

pub(crate) fn joined(alloc: Global, parts: &[&[u8]]) -> Result<Vec<u8>, Fail> {
    let mut all = Vec::new(alloc);
    for part in parts {
        all.extend_from_slice(part)?;
    }
    Ok(all)
}

// A Picture record of 8 by 6 pixels.
pub(crate) fn picture(alloc: Global, map: &[u8]) -> Result<Vec<u8>, Fail> {
    picture_behind(alloc, &[3, 155, 0, 0, 0], b"P6\n8 6\n255\n", map)
}

// A Picture record with this head: `.` is black, `R` red, `G` green, `-` the grey of what was never read,
// `a` the colour 112233 and `b` the colour aabbcc.
pub(crate) fn picture_behind(
    alloc: Global,
    kind: &[u8],
    head: &[u8],
    map: &[u8],
) -> Result<Vec<u8>, Fail> {
    let mut record = joined(alloc, &[kind, head])?;
    for pixel in map {
        let colour: [u8; 3] = match *pixel {
            b'R' => [255, 0, 0],
            b'G' => [0, 255, 0],
            b'-' => [128, 128, 128],
            b'a' => [0x11, 0x22, 0x33],
            b'b' => [0xaa, 0xbb, 0xcc],
            _ => [0, 0, 0],
        };
        record.extend_from_slice(&colour)?;
    }
    Ok(record)
}

pub(crate) fn words(alloc: Global, given: &[&str]) -> Result<Vec<String>, Fail> {
    let mut words = Vec::new(alloc);
    for word in given {
        words.push(String::from_str(alloc, word)?)?;
    }
    Ok(words)
}

// The status and the output of a run, where these reads and puts fail.
pub(crate) fn replayed(
    alloc: Global,
    record: &[u8],
    reads: &[u64],
    puts: &[u64],
) -> Result<(Status, Vec<u8>), Fail> {
    let mut input = MemSource::new(alloc, record, reads)?;
    let mut out = MemSink::new(alloc, puts)?;
    let status = run(alloc, &words(alloc, &["replay"])?, &mut input, &mut out);
    Ok((status, out.bytes().to_vec(alloc)?))
}

// A whole run gives these bytes.
pub(crate) fn gives(
    rt: &impl Abort,
    alloc: Global,
    record: &[&[u8]],
    wanted: &[&[u8]],
) -> Result<(), Fail> {
    let record = joined(alloc, record)?;
    let wanted = joined(alloc, wanted)?;
    let (status, output) = replayed(alloc, &record, &[], &[])?;
    assert_eq!(rt; status, Status::Done);
    assert_eq!(rt; output.as_slice(), wanted.as_slice());
    Ok(())
}

#[test]
fn empty_desktop(rt: HostRuntime) -> Result<(), Fail> {
    let shown = picture(rt.alloc(), &[b'.'; 48])?;
    gives(
        &rt,
        rt.alloc(),
        &[&CONFIG, &TAIL],
        &[&shown, &summary(2, 0)],
    )
}

#[test]
fn one_window(rt: HostRuntime) -> Result<(), Fail> {
    let shown = picture(
        rt.alloc(),
        b"........\
          .RRRR...\
          .R--R...\
          .R--R...\
          .RRRR...\
          ........",
    )?;
    gives(
        &rt,
        rt.alloc(),
        &[&CONFIG, &ONE_WINDOW, &TAIL],
        &[&GREETING, &FOCUSED, &shown, &summary(3, 2)],
    )
}

#[test]
fn window_off_the_corner(rt: HostRuntime) -> Result<(), Fail> {
    let shown = picture(
        rt.alloc(),
        b"-R......\
          RR......\
          ........\
          ........\
          ........\
          ........",
    )?;
    gives(
        &rt,
        rt.alloc(),
        &[&CONFIG, &CORNER, &TAIL],
        &[&GREETING, &FOCUSED, &shown, &summary(3, 2)],
    )
}

// The session ends since its window 1 exists, and that window is gone: it isn't told that it lost the focus.
#[test]
fn window_created_twice(rt: HostRuntime) -> Result<(), Fail> {
    let ended = [2, 0, 6, 1, 0, 0, 0, 0, 0, 0, 0];
    let shown = picture(rt.alloc(), &[b'.'; 48])?;
    gives(
        &rt,
        rt.alloc(),
        &[&CONFIG, &ONE_WINDOW, &AGAIN, &TAIL],
        &[&GREETING, &FOCUSED, &ended, &shown, &summary(4, 2)],
    )
}

// The first put fails: status 6 and no output. The second read fails: status 5 and no output.
#[test]
fn failing_source_or_sink(rt: HostRuntime) -> Result<(), Fail> {
    let record = joined(rt.alloc(), &[&CONFIG, &TAIL])?;
    let (status, output) = replayed(rt.alloc(), &record, &[], &[1])?;
    assert_eq!(rt; status, Status::WriteFault);
    assert_eq!(rt; output.len(), 0);
    let (status, output) = replayed(rt.alloc(), &record, &[2], &[])?;
    assert_eq!(rt; status, Status::ReadFault);
    assert_eq!(rt; output.len(), 0);
    Ok(())
}

#[test]
fn other_words(rt: HostRuntime) -> Result<(), Fail> {
    let alloc = rt.alloc();
    let given: [&[&str]; 2] = [&["replay", "x"], &[]];
    for others in given {
        let mut input = MemSource::new(alloc, &CONFIG, &[])?;
        let mut out = MemSink::new(alloc, &[])?;
        let status = run(alloc, &words(alloc, others)?, &mut input, &mut out);
        assert_eq!(rt; status, Status::Usage);
        assert_eq!(rt; out.bytes().len(), 0);
    }
    Ok(())
}
