// Messages of one guest, and the ends of its session, through whole runs over memory. What they have
// to write was worked by hand.

use crate::tests::{CONFIG, FOCUSED, GREETING, TAIL, gives, joined, picture, summary};
use std::alloc::Global;
use std::process::Abort;
use std::test::Fail;

const VERSION: [u8; 4] = [7, 0, 1, 0];

// CREATE of window 1 at (2, 2), 2 by 2.
const CREATE: [u32; 9] = [130, 1, 24, 2, 2, 2, 2, 0, 0];

// MAP of window 1.
const MAP: [u32; 5] = [132, 1, 8, 0, 0];

// The same desktop with 4 pages a guest.
fn config_of_four_pages() -> [u8; 42] {
    let mut config = CONFIG;
    config[17] = 4;
    config[18] = 0;
    config
}

// Numbers as they stand in messages.
pub(crate) fn spelled(alloc: Global, numbers: &[u32]) -> Result<Vec<u8>, Fail> {
    let mut bytes = Vec::new(alloc);
    for number in numbers {
        bytes.extend_from_slice(&number.to_le_bytes())?;
    }
    Ok(bytes)
}

// A Bytes item of guest 0.
pub(crate) fn item(alloc: Global, piece: &[u8]) -> Result<Vec<u8>, Fail> {
    let len = piece.len().min(65_536) as u32;
    joined(alloc, &[&[2, 0], &len.to_le_bytes(), piece])
}

// The version and these numbers, as one Bytes item.
pub(crate) fn said(alloc: Global, numbers: &[&[u32]]) -> Result<Vec<u8>, Fail> {
    let mut piece = Vec::new(alloc);
    piece.extend_from_slice(&VERSION)?;
    for some in numbers {
        let bytes = spelled(alloc, some)?;
        piece.extend_from_slice(&bytes)?;
    }
    item(alloc, &piece)
}

// An Ended record of guest 0.
pub(crate) fn ended(cause: u8, a: u32, b: u32) -> [u8; 11] {
    let [a0, a1, a2, a3] = a.to_le_bytes();
    let [b0, b1, b2, b3] = b.to_le_bytes();
    [2, 0, cause, a0, a1, a2, a3, b0, b1, b2, b3]
}

// A Reply record of guest 0, with so many bytes that these numbers spell.
pub(crate) fn reply(alloc: Global, len: u32, numbers: &[u32]) -> Result<Vec<u8>, Fail> {
    let bytes = spelled(alloc, numbers)?;
    joined(alloc, &[&[1, 0], &len.to_le_bytes(), &bytes])
}

pub(crate) fn no_window(alloc: Global) -> Result<Vec<u8>, Fail> {
    picture(alloc, &[b'.'; 48])
}

#[test]
fn one_byte_at_a_time(rt: HostRuntime) -> Result<(), Fail> {
    let alloc = rt.alloc();
    let create = spelled(alloc, &CREATE)?;
    let map = spelled(alloc, &MAP)?;
    let stream = joined(alloc, &[&VERSION, &create, &map])?;
    let mut items = Vec::new(alloc);
    for byte in &stream {
        let one = item(alloc, &[*byte])?;
        items.extend_from_slice(&one)?;
    }
    let shown = picture(
        alloc,
        b"........\
          .RRRR...\
          .R--R...\
          .R--R...\
          .RRRR...\
          ........",
    )?;
    gives(
        &rt,
        alloc,
        &[&CONFIG, &items, &TAIL],
        &[&GREETING, &FOCUSED, &shown, &summary(62, 2)],
    )
}

// The field 3 of a CREATE is its width.
#[test]
fn width_out_of_range(rt: HostRuntime) -> Result<(), Fail> {
    let alloc = rt.alloc();
    let said = said(alloc, &[&[130, 1, 24, 2, 2, 0x8000_0000, 2, 0, 0]])?;
    let shown = no_window(alloc)?;
    let ended = ended(4, 3, 2_147_483_648);
    gives(
        &rt,
        alloc,
        &[&CONFIG, &said, &TAIL],
        &[&GREETING, &ended, &shown, &summary(3, 0)],
    )
}

// A window is at most 16,384 pixels wide, and is told so.
#[test]
fn width_brought_into_range(rt: HostRuntime) -> Result<(), Fail> {
    let alloc = rt.alloc();
    let said = said(alloc, &[&CREATE, &[134, 1, 20, 0, 0, 20_000, 10, 0]])?;
    let answer = reply(alloc, 32, &[134, 1, 20, 0, 0, 16_384, 10, 0])?;
    let shown = no_window(alloc)?;
    gives(
        &rt,
        alloc,
        &[&CONFIG, &said, &TAIL],
        &[&GREETING, &answer, &shown, &summary(3, 2)],
    )
}

// A window of 10 by 10, whose dump needs one page of the four that there are.
const TEN_BY_TEN: [u32; 9] = [130, 1, 24, 0, 0, 10, 10, 0, 0];

// The session ends at a dump of that window, with this cause.
fn ends_at_dump(rt: &impl Abort, alloc: Global, dump: &[u32], ended: &[u8]) -> Result<(), Fail> {
    let config = config_of_four_pages();
    let said = said(alloc, &[&TEN_BY_TEN, dump])?;
    let shown = no_window(alloc)?;
    gives(
        rt,
        alloc,
        &[&config, &said, &TAIL],
        &[&GREETING, ended, &shown, &summary(3, 1)],
    )
}

#[test]
fn dump_references(rt: HostRuntime) -> Result<(), Fail> {
    let alloc = rt.alloc();
    let past_the_pages = [147, 1, 20, 0, 10, 10, 32, 4];
    ends_at_dump(&rt, alloc, &past_the_pages, &ended(8, 4, 4))?;
    let sixteen_bits = [147, 1, 20, 0, 10, 10, 16, 3];
    ends_at_dump(&rt, alloc, &sixteen_bits, &ended(4, 4, 16))
}

// A dump is acknowledged to an agent of version 1.7, and isn't to one of version 1.6.
#[test]
fn dump_acknowledged(rt: HostRuntime) -> Result<(), Fail> {
    let alloc = rt.alloc();
    let config = config_of_four_pages();
    let accepted = [147, 1, 20, 0, 10, 10, 32, 3];
    let said = said(alloc, &[&TEN_BY_TEN, &accepted])?;
    let answer = reply(alloc, 12, &[149, 1, 0])?;
    let shown = no_window(alloc)?;
    gives(
        &rt,
        alloc,
        &[&config, &said, &TAIL],
        &[&GREETING, &answer, &shown, &summary(3, 2)],
    )?;
    let create = spelled(alloc, &TEN_BY_TEN)?;
    let dump = spelled(alloc, &accepted)?;
    let stream = joined(alloc, &[&[6, 0, 1, 0], &create, &dump])?;
    let of_version_six = item(alloc, &stream)?;
    gives(
        &rt,
        alloc,
        &[&config, &of_version_six, &TAIL],
        &[&GREETING, &shown, &summary(3, 2)],
    )
}

#[test]
fn window_limit(rt: HostRuntime) -> Result<(), Fail> {
    let alloc = rt.alloc();
    let mut stream = Vec::new(alloc);
    stream.extend_from_slice(&VERSION)?;
    for window in 1..1026u32 {
        let create = spelled(alloc, &[130, window, 24, 0, 0, 1, 1, 0, 0])?;
        stream.extend_from_slice(&create)?;
    }
    let windows = item(alloc, &stream)?;
    let shown = no_window(alloc)?;
    let mut counts = summary(3, 0);
    counts[10] = 4;
    gives(
        &rt,
        alloc,
        &[&CONFIG, &windows, &TAIL],
        &[&GREETING, &ended(7, 1025, 1024), &shown, &counts],
    )
}

// The stream ends within the version word; the version is 2.0; the link fails.
#[test]
fn early_ends(rt: HostRuntime) -> Result<(), Fail> {
    let alloc = rt.alloc();
    let shown = no_window(alloc)?;
    let cut = item(alloc, &VERSION[..3])?;
    gives(
        &rt,
        alloc,
        &[&CONFIG, &cut, &[3, 0], &TAIL],
        &[&ended(12, 0, 0), &shown, &summary(4, 0)],
    )?;
    let second = item(alloc, &[0, 0, 2, 0])?;
    gives(
        &rt,
        alloc,
        &[&CONFIG, &second, &[3, 0], &TAIL],
        &[&ended(1, 131_072, 0), &shown, &summary(4, 0)],
    )?;
    let mapped = said(alloc, &[&CREATE, &MAP])?;
    gives(
        &rt,
        alloc,
        &[&CONFIG, &mapped, &[11, 0, 11, 0], &TAIL],
        &[
            &GREETING,
            &FOCUSED,
            &ended(13, 0, 0),
            &shown,
            &summary(5, 2),
        ],
    )
}

// Clipboard data that is too long is refused by its header. Data that is too long to be kept passes.
#[test]
fn clipboard_data_passes(rt: HostRuntime) -> Result<(), Fail> {
    let alloc = rt.alloc();
    let shown = no_window(alloc)?;
    let too_long = said(alloc, &[&[140, 0, 256_001]])?;
    gives(
        &rt,
        alloc,
        &[&CONFIG, &too_long, &TAIL],
        &[&GREETING, &ended(11, 256_001, 0), &shown, &summary(3, 0)],
    )?;
    let head = said(alloc, &[&[140, 0, 65_001]])?;
    let data = vec![in alloc; 140u8; 65_001]?;
    let body = item(alloc, &data)?;
    let create = spelled(alloc, &CREATE)?;
    let behind = item(alloc, &create)?;
    gives(
        &rt,
        alloc,
        &[&CONFIG, &head, &body, &behind, &TAIL],
        &[&GREETING, &shown, &summary(5, 2)],
    )
}

// Window 2 covers window 1 until it is unmapped; then window 1 is destroyed, which had the focus all the time.
#[test]
fn windows_go(rt: HostRuntime) -> Result<(), Fail> {
    let alloc = rt.alloc();
    let second = [130, 2, 24, 4, 2, 2, 2, 0, 0];
    let mapped = said(alloc, &[&CREATE, &MAP, &second, &[132, 2, 8, 0, 0]])?;
    let unmap = spelled(alloc, &[133, 2, 0])?;
    let unmapped = item(alloc, &unmap)?;
    let destroy = spelled(alloc, &[131, 1, 0])?;
    let destroyed = item(alloc, &destroy)?;
    let both = picture(
        alloc,
        b"........\
          .RRRRRR.\
          .R-R--R.\
          .R-R--R.\
          .RRRRRR.\
          ........",
    )?;
    let first = picture(
        alloc,
        b"........\
          .RRRR...\
          .R--R...\
          .R--R...\
          .RRRR...\
          ........",
    )?;
    let none = no_window(alloc)?;
    let mut counts = summary(7, 6);
    counts[25] = 144;
    gives(
        &rt,
        alloc,
        &[&CONFIG, &mapped, &[9], &unmapped, &[9], &destroyed, &TAIL],
        &[&GREETING, &FOCUSED, &both, &first, &none, &counts],
    )
}
