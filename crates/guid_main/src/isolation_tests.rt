// A grab across windows in two worlds, which differ in what green draws and in the title of its window: red is
// told the same, and shows the same. What the runs have to write was worked by hand.

use crate::guest_tests::then;
use crate::message_tests::spelled;
use crate::tests::{gives, joined, picture_behind, summary};
use crate::user_tests::{PRESS, RELEASE, both_told, moved, told, two_apart, wide};
use std::alloc::Global;
use std::process::Abort;
use std::test::Fail;

// WINDOW_DUMP of window 1: 4 by 4 pixels in page 0.
const DUMP: [u32; 8] = [147, 1, 20, 0, 4, 4, 32, 0];

// SHMIMAGE of window 1, all of it.
const REPORT: [u32; 7] = [136, 1, 16, 0, 0, 4, 4];

// The head of the picture of 20 by 10 pixels: its record has 613 bytes behind the length.
const HEAD: [u8; 5] = [3, 0x65, 2, 0, 0];

// A row of the picture without windows, and one through both rings.
const BLANK: [u8; 20] = *b"....................";

const RING: [u8; 20] = *b".RRRRRR..GGGGGG.....";

// A guest's dump, behind these messages, and 16 pixels of this colour, drawn and reported.
fn drawn(alloc: Global, guest: u8, before: &[u32], colour: u32) -> Result<Vec<u8>, Fail> {
    let mut messages = before.to_vec(alloc)?;
    messages.extend_from_slice(&DUMP)?;
    let dump = then(alloc, guest, &messages)?;
    let place = spelled(alloc, &[0, 0, 64])?;
    let pixels = spelled(alloc, &[colour; 16])?;
    let report = then(alloc, guest, &REPORT)?;
    joined(alloc, &[&dump, &[4, guest, 0, 0], &place, &pixels, &report])
}

// WMNAME of window 1: a letter, and zeros up to 128 bytes.
fn titled(letter: u8) -> [u32; 35] {
    let mut message = [0u32; 35];
    message[0] = 141;
    message[1] = 1;
    message[2] = 128;
    message[3] = u32::from(letter);
    message
}

// A row of the picture through both windows, where green's has this letter.
fn row_of(alloc: Global, green: u8) -> Result<Vec<u8>, Fail> {
    joined(alloc, &[b".RaaaaR..G", &[green; 4], b"G....."])
}

// The picture's letters, where red's window has the letter `a` and green's this one.
fn letters(alloc: Global, green: u8) -> Result<Vec<u8>, Fail> {
    let row = row_of(alloc, green)?;
    joined(
        alloc,
        &[
            &BLANK, &RING, &row, &row, &row, &row, &RING, &BLANK, &BLANK, &BLANK,
        ],
    )
}

// The picture, where red's window has the letter `a` and green's this one.
fn shown(alloc: Global, green: u8) -> Result<Vec<u8>, Fail> {
    let map = letters(alloc, green)?;
    picture_behind(alloc, &HEAD, b"P6\n20 10\n255\n", &map)
}

// 14 items with 9 messages; each guest's 16 pixels are read once; the desktop is drawn once.
fn counts() -> [u8; 33] {
    let mut record = summary(14, 9);
    record[17] = 32;
    record[25] = 200;
    record
}

// The world in which green's window has this title and draws this colour, which the picture shows as this letter.
fn world(rt: &impl Abort, alloc: Global, title: u8, colour: u32, letter: u8) -> Result<(), Fail> {
    let windows = two_apart(alloc)?;
    let red = drawn(alloc, 0, &[], 0x0011_2233)?;
    let green = drawn(alloc, 1, &titled(title), colour)?;
    let replies = both_told(alloc)?;
    let red_ack = told(alloc, 0, &[149, 1, 0])?;
    let green_ack = told(alloc, 1, &[149, 1, 0])?;
    let enter = told(alloc, 0, &[127, 1, 28, 7, 1, 1, 0, 0, 3, 1])?;
    let press = told(alloc, 0, &[125, 1, 20, 4, 1, 1, 0, 1])?;
    let motion = told(alloc, 0, &[126, 1, 16, 9, 1, 0, 0])?;
    let release = told(alloc, 0, &[125, 1, 20, 5, 9, 1, 0, 1])?;
    let leave = told(alloc, 0, &[127, 1, 28, 8, 9, 1, 0, 0, 3, 1])?;
    let other = told(alloc, 1, &[127, 1, 28, 7, 1, 1, 0, 0, 3, 0])?;
    let user = joined(
        alloc,
        &[&moved(3, 3), &PRESS, &moved(11, 3), &RELEASE, &[9, 10]],
    )?;
    let picture = shown(alloc, letter)?;
    gives(
        rt,
        alloc,
        &[&wide(), &windows, &red, &green, &user],
        &[
            &replies,
            &red_ack,
            &green_ack,
            &enter,
            &press,
            &motion,
            &release,
            &leave,
            &other,
            &picture,
            &counts(),
        ],
    )
}

#[test]
fn red_in_two_worlds(rt: HostRuntime) -> Result<(), Fail> {
    let alloc = rt.alloc();
    world(&rt, alloc, b'x', 0x00aa_bbcc, b'b')?;
    world(&rt, alloc, b'y', 0x00ff_0000, b'R')
}
