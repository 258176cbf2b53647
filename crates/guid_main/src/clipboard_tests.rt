// The clipboard that two chords work, through whole runs over memory. What they have to write was worked by
// hand.

use crate::guest_tests::{focused, greeted, summary_of, then, unfocused};
use crate::message_tests::spelled;
use crate::output_tests::refuses;
use crate::status::Status;
use crate::tests::{FOCUSED, gives, joined};
use crate::user_tests::{PRESS, RELEASE, both_told, moved, told, two_apart, wide};
use io_ports::{RecordFault, RecordKind};
use std::alloc::Global;
use std::test::Fail;

// The chords, pressed: they ask the focused guest for its data, and give it what is held.
const COPY: [u8; 5] = [5, 1, 54, 5, 0];

const PASTE: [u8; 5] = [5, 1, 55, 5, 0];

// Clipboard data of three bytes, behind its header.
const DATA: [u8; 21] = [
    2, 0, 15, 0, 0, 0, 140, 0, 0, 0, 1, 0, 0, 0, 3, 0, 0, 0, 97, 98, 99,
];

// The same of green.
fn green_data() -> [u8; 21] {
    let mut data = DATA;
    data[1] = 1;
    data
}

// What a guest is told that is asked for its data: CLIPBOARD_REQ for its window.
fn asked(alloc: Global, guest: u8) -> Result<Vec<u8>, Fail> {
    told(alloc, guest, &[139, 1, 0])
}

// What a guest is given: CLIPBOARD_DATA for its window.
fn given(guest: u8) -> [u8; 21] {
    let mut reply = DATA;
    reply[0] = 1;
    reply[1] = guest;
    reply
}

// What is told where a click brings the focus from red to green: Enter, the button, the focus, and the button again.
fn green_clicked(alloc: Global) -> Result<Vec<u8>, Fail> {
    let enter = told(alloc, 1, &[127, 1, 28, 7, 1, 1, 0, 0, 3, 0])?;
    let press = told(alloc, 1, &[125, 1, 20, 4, 1, 1, 0, 1])?;
    let out = unfocused(alloc, 0, 1)?;
    let focus = focused(alloc, 1, 1)?;
    let release = told(alloc, 1, &[125, 1, 20, 5, 1, 1, 0, 1])?;
    joined(alloc, &[&enter, &press, &out, &focus, &release])
}

// A click into green's window.
fn click_green(alloc: Global) -> Result<Vec<u8>, Fail> {
    joined(alloc, &[&moved(11, 3), &PRESS, &RELEASE])
}

// Red's data is asked for and pasted at green, once. The chords' keys are told nobody.
#[test]
fn copied_from_red_to_green(rt: HostRuntime) -> Result<(), Fail> {
    let alloc = rt.alloc();
    let items = two_apart(alloc)?;
    let click = click_green(alloc)?;
    let replies = both_told(alloc)?;
    let asks = asked(alloc, 0)?;
    let clicked = green_clicked(alloc)?;
    gives(
        &rt,
        alloc,
        &[
            &wide(),
            &items,
            &COPY,
            &[5, 0, 54, 5, 0],
            &DATA,
            &click,
            &PASTE,
            &[5, 0, 55, 5, 0],
            &PASTE,
            &[10],
        ],
        &[&replies, &asks, &clicked, &given(1), &summary_of(12, 5, 0)],
    )
}

// Red is asked, and green answers: nothing is held.
#[test]
fn another_guest_answers(rt: HostRuntime) -> Result<(), Fail> {
    let alloc = rt.alloc();
    let items = two_apart(alloc)?;
    let click = click_green(alloc)?;
    let replies = both_told(alloc)?;
    let asks = asked(alloc, 0)?;
    let clicked = green_clicked(alloc)?;
    gives(
        &rt,
        alloc,
        &[&wide(), &items, &COPY, &green_data(), &click, &PASTE, &[10]],
        &[&replies, &asks, &clicked, &summary_of(9, 5, 0)],
    )
}

// Red answers, and then its session ends: what it sent is still there for green, which has the focus then.
#[test]
fn data_outlives_its_guest(rt: HostRuntime) -> Result<(), Fail> {
    let alloc = rt.alloc();
    let items = two_apart(alloc)?;
    let replies = both_told(alloc)?;
    let asks = asked(alloc, 0)?;
    let focus = focused(alloc, 1, 1)?;
    gives(
        &rt,
        alloc,
        &[&wide(), &items, &COPY, &DATA, &[3, 0], &PASTE, &[10]],
        &[
            &replies,
            &asks,
            &[2, 0, 12, 0, 0, 0, 0, 0, 0, 0, 0],
            &focus,
            &given(1),
            &summary_of(7, 5, 0),
        ],
    )
}

// The desktop of 20 by 10 pixels in the third version: its one output, the clipboard's revision, and pairs.
fn versioned(alloc: Global, clip: u8, pairs: &[u8]) -> Result<Vec<u8>, Fail> {
    let config = wide();
    let rect = spelled(alloc, &[0, 0, 20, 10])?;
    let count = (pairs.len().min(240) / 2) as u8;
    joined(
        alloc,
        &[b"QGR3", &config[4..], &[1], &rect, &[clip, count], pairs],
    )
}

// From red to green no paste goes. The data stays, and red is given it back.
#[test]
fn a_denied_pair(rt: HostRuntime) -> Result<(), Fail> {
    let alloc = rt.alloc();
    let config = versioned(alloc, 1, &[0, 1])?;
    let items = two_apart(alloc)?;
    let click = click_green(alloc)?;
    let next = [8, 2, 0, 0, 0, 0, 0, 0, 0, 0];
    let replies = both_told(alloc)?;
    let asks = asked(alloc, 0)?;
    let clicked = green_clicked(alloc)?;
    let green_out = unfocused(alloc, 1, 1)?;
    gives(
        &rt,
        alloc,
        &[
            &config,
            &items,
            &COPY,
            &DATA,
            &click,
            &PASTE,
            &next,
            &PASTE,
            &PASTE,
            &[10],
        ],
        &[
            &replies,
            &asks,
            &clicked,
            &green_out,
            &FOCUSED,
            &given(0),
            &summary_of(12, 5, 0),
        ],
    )
}

// Data of 65,001 bytes as two items: the header and a part, and the rest.
fn long_data(alloc: Global) -> Result<Vec<u8>, Fail> {
    let head = spelled(alloc, &[140, 1, 65_001])?;
    let part = vec![in alloc; 97u8; 60_000]?;
    let rest = vec![in alloc; 97u8; 5001]?;
    let sizes = [60_012u32.to_le_bytes(), 5001u32.to_le_bytes()];
    joined(
        alloc,
        &[&[2, 0], &sizes[0], &head, &part, &[2, 0], &sizes[1], &rest],
    )
}

// In the first revision data of 65,001 bytes isn't held, in the second it is given whole.
#[test]
fn longer_data_in_the_second_revision(rt: HostRuntime) -> Result<(), Fail> {
    let alloc = rt.alloc();
    let items = two_apart(alloc)?;
    let data = long_data(alloc)?;
    let replies = both_told(alloc)?;
    let asks = asked(alloc, 0)?;
    gives(
        &rt,
        alloc,
        &[&wide(), &items, &COPY, &data, &PASTE, &[10]],
        &[&replies, &asks, &summary_of(7, 5, 0)],
    )?;
    let second = versioned(alloc, 2, &[])?;
    let head = spelled(alloc, &[140, 1, 65_001])?;
    let all = vec![in alloc; 97u8; 65_001]?;
    let gift = joined(alloc, &[&[1, 0], &65_013u32.to_le_bytes(), &head, &all])?;
    gives(
        &rt,
        alloc,
        &[&second, &items, &COPY, &data, &PASTE, &[10]],
        &[&replies, &asks, &gift, &summary_of(7, 5, 0)],
    )
}

// Data of 256,001 bytes ends the session as soon as its header is there.
#[test]
fn data_that_is_too_long(rt: HostRuntime) -> Result<(), Fail> {
    let alloc = rt.alloc();
    let config = versioned(alloc, 2, &[])?;
    let head = then(alloc, 0, &[140, 1, 256_001])?;
    let ended = joined(
        alloc,
        &[&[2, 0, 11], &256_001u32.to_le_bytes(), &[0, 0, 0, 0]],
    )?;
    let version = [2, 0, 4, 0, 0, 0, 7, 0, 1, 0];
    let greeting = greeted(alloc, 0, &[20, 10, 24, 1])?;
    gives(
        &rt,
        alloc,
        &[&config, &version, &head, &[10]],
        &[&greeting, &ended, &summary_of(3, 0, 0)],
    )
}

#[test]
fn pairs_and_revisions_that_break_a_rule(rt: HostRuntime) -> Result<(), Fail> {
    let alloc = rt.alloc();
    let third = versioned(alloc, 3, &[])?;
    refuses(&rt, alloc, &third, Status::BadConfig { rule: 20 })?;
    let itself = versioned(alloc, 1, &[0, 0])?;
    refuses(&rt, alloc, &itself, Status::BadConfig { rule: 21 })?;
    let falling = versioned(alloc, 1, &[1, 0, 0, 1])?;
    refuses(&rt, alloc, &falling, Status::BadConfig { rule: 22 })?;
    let first = versioned(alloc, 1, &[])?;
    let fault = RecordFault {
        offset: 4,
        kind: RecordKind::Range,
    };
    refuses(&rt, alloc, &first, Status::BadRecord { fault })
}
