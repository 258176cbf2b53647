// Several guests, override-redirect windows and window flags, through whole runs over memory. What they
// have to write was worked by hand.

use crate::message_tests::spelled;
use crate::tests::{FOCUSED, TAIL, gives, joined, picture_behind, summary};
use std::alloc::Global;
use std::test::Fail;

// A black desktop of 10 by 6 pixels, borders of one pixel, and the guests `red` and `green`.
pub(crate) const SHARED: [u8; 52] = [
    81, 71, 82, 49, 1, 10, 0, 0, 0, 6, 0, 0, 0, 1, 0, 0, 0, 0, 32, 0, 0, 0, 16, 0, 0, 90, 0, 0, 0,
    0, 0, 0, 0, 2, 0, 0, 255, 0, 3, 114, 101, 100, 0, 255, 0, 0, 5, 103, 114, 101, 101, 110,
];

// The guest `red` alone, on so many pixels, where override windows may take this percent.
fn config_of(width: u8, height: u8, percent: u8) -> [u8; 42] {
    let mut config = crate::tests::CONFIG;
    config[5] = width;
    config[9] = height;
    config[25] = percent;
    config
}

// Messages of a guest, behind the version 1.7, as one item.
pub(crate) fn first(alloc: Global, guest: u8, numbers: &[u32]) -> Result<Vec<u8>, Fail> {
    let messages = spelled(alloc, numbers)?;
    let len = messages.len().min(65_536) as u32 + 4;
    joined(
        alloc,
        &[&[2, guest], &len.to_le_bytes(), &[7, 0, 1, 0], &messages],
    )
}

// Messages of a guest, as one item.
pub(crate) fn then(alloc: Global, guest: u8, numbers: &[u32]) -> Result<Vec<u8>, Fail> {
    let messages = spelled(alloc, numbers)?;
    let len = messages.len().min(65_536) as u32;
    joined(alloc, &[&[2, guest], &len.to_le_bytes(), &messages])
}

// The replies to the version of a guest: the daemon's 1.7, and the desktop's size, 24 bits and so many KiB.
pub(crate) fn greeted(alloc: Global, guest: u8, desktop: &[u32; 4]) -> Result<Vec<u8>, Fail> {
    let size = spelled(alloc, desktop)?;
    joined(
        alloc,
        &[
            &[1, guest, 4, 0, 0, 0, 7, 0, 1, 0],
            &[1, guest, 16, 0, 0, 0],
            &size,
        ],
    )
}

// CONFIGURE as it is told to guest 0: the place, the size, and whether it is an override window.
fn told(alloc: Global, window: u32, place: &[u32; 5]) -> Result<Vec<u8>, Fail> {
    let head = spelled(alloc, &[134, window, 20])?;
    let place = spelled(alloc, place)?;
    joined(alloc, &[&[1, 0, 32, 0, 0, 0], &head, &place])
}

// What a guest is told where a window of its own gets the focus: FOCUS (in), and KEYMAP_NOTIFY.
pub(crate) fn focused(alloc: Global, guest: u8, window: u32) -> Result<Vec<u8>, Fail> {
    let focus = spelled(alloc, &[128, window, 12, 9, 0, 3])?;
    let keymap = spelled(alloc, &[142, 0, 32, 0, 0, 0, 0, 0, 0, 0, 0])?;
    joined(
        alloc,
        &[
            &[1, guest, 24, 0, 0, 0],
            &focus,
            &[1, guest, 44, 0, 0, 0],
            &keymap,
        ],
    )
}

// What a guest is told where a window of its own loses the focus: FOCUS (out).
pub(crate) fn unfocused(alloc: Global, guest: u8, window: u32) -> Result<Vec<u8>, Fail> {
    let focus = spelled(alloc, &[128, window, 12, 10, 0, 3])?;
    joined(alloc, &[&[1, guest, 24, 0, 0, 0], &focus])
}

// A Picture record of 10 by 6 pixels.
pub(crate) fn shared_picture(alloc: Global, map: &[u8]) -> Result<Vec<u8>, Fail> {
    picture_behind(alloc, &[3, 192, 0, 0, 0], b"P6\n10 6\n255\n", map)
}

// A Summary of so many items and messages, with so many pixels drawn.
pub(crate) fn summary_of(items: u8, messages: u8, painted: u8) -> [u8; 33] {
    let mut record = summary(items, messages);
    record[25] = painted;
    record
}

// Red's window of 3 by 2 at (1, 1), and then green's at (4, 2). Both have the number 1.
pub(crate) fn two_mapped(alloc: Global) -> Result<Vec<u8>, Fail> {
    let red = first(alloc, 0, &[130, 1, 24, 1, 1, 3, 2, 0, 0, 132, 1, 8, 0, 0])?;
    let green = first(alloc, 1, &[130, 1, 24, 4, 2, 3, 2, 0, 0, 132, 1, 8, 0, 0])?;
    joined(alloc, &[&red, &green])
}

// What both are told: the replies to their versions, and that red's window has the focus, which was mapped first.
pub(crate) fn two_told(alloc: Global) -> Result<Vec<u8>, Fail> {
    let red = greeted(alloc, 0, &[10, 6, 24, 1])?;
    let green = greeted(alloc, 1, &[10, 6, 24, 1])?;
    joined(alloc, &[&red, &FOCUSED, &green])
}

// Green's window alone.
fn green_alone(alloc: Global) -> Result<Vec<u8>, Fail> {
    shared_picture(
        alloc,
        b"..........\
          ...GGGGG..\
          ...G---G..\
          ...G---G..\
          ...GGGGG..\
          ..........",
    )
}

#[test]
fn two_windows(rt: HostRuntime) -> Result<(), Fail> {
    let alloc = rt.alloc();
    let items = two_mapped(alloc)?;
    let replies = two_told(alloc)?;
    let shown = shared_picture(
        alloc,
        b"RRRRR.....\
          R--GGGGG..\
          R--G---G..\
          RRRG---G..\
          ...GGGGG..\
          ..........",
    )?;
    gives(
        &rt,
        alloc,
        &[&SHARED, &items, &TAIL],
        &[&replies, &shown, &summary_of(4, 4, 60)],
    )
}

// Red makes its window 1 again: red's session ends, and green keeps its window 1, which gets the focus.
#[test]
fn one_guest_ends(rt: HostRuntime) -> Result<(), Fail> {
    let alloc = rt.alloc();
    let items = two_mapped(alloc)?;
    let again = then(alloc, 0, &[130, 1, 24, 1, 1, 3, 2, 0, 0])?;
    let replies = two_told(alloc)?;
    let ended = [2, 0, 6, 1, 0, 0, 0, 0, 0, 0, 0];
    let green = focused(alloc, 1, 1)?;
    let shown = green_alone(alloc)?;
    gives(
        &rt,
        alloc,
        &[&SHARED, &items, &again, &TAIL],
        &[&replies, &ended, &green, &shown, &summary_of(5, 4, 60)],
    )
}

// Red minimizes its window: green's alone is shown, and gets the focus.
#[test]
fn minimized(rt: HostRuntime) -> Result<(), Fail> {
    let alloc = rt.alloc();
    let items = two_mapped(alloc)?;
    let hides = then(alloc, 0, &[145, 1, 8, 4, 0])?;
    let replies = two_told(alloc)?;
    let red = unfocused(alloc, 0, 1)?;
    let green = focused(alloc, 1, 1)?;
    let shown = green_alone(alloc)?;
    gives(
        &rt,
        alloc,
        &[&SHARED, &items, &hides, &TAIL],
        &[&replies, &red, &green, &shown, &summary_of(5, 5, 60)],
    )
}

// On 20 by 20 pixels a quarter is 100. A window of 8 by 8 takes 100 with its border and is granted, so it
// is moved inside and told so; one of 8 by 9 takes 110, and stays. It is a window like others, and gets the focus.
#[test]
fn override_area_limit(rt: HostRuntime) -> Result<(), Fail> {
    let alloc = rt.alloc();
    let corner = 0xffff_ffff;
    let config = config_of(20, 20, 25);
    let replies = greeted(alloc, 0, &[20, 20, 24, 2])?;
    let fits = first(
        alloc,
        0,
        &[130, 1, 24, corner, corner, 8, 8, 0, 1, 132, 1, 8, 0, 1],
    )?;
    let moved = told(alloc, 1, &[1, 1, 8, 8, 1])?;
    gives(
        &rt,
        alloc,
        &[&config, &fits, &[10]],
        &[&replies, &moved, &summary_of(2, 2, 0)],
    )?;
    let larger = first(
        alloc,
        0,
        &[130, 1, 24, corner, corner, 8, 9, 0, 1, 132, 1, 8, 0, 1],
    )?;
    gives(
        &rt,
        alloc,
        &[&config, &larger, &[10]],
        &[&replies, &FOCUSED, &summary_of(2, 2, 0)],
    )
}

// Windows of 6 by 6 and of 3 by 4 take 64 and 30 with their borders; a third of 1 by 1 would take 9 more. So it is the
// only one that can have the focus.
#[test]
fn override_areas_together(rt: HostRuntime) -> Result<(), Fail> {
    let alloc = rt.alloc();
    let corner = 0xffff_ffff;
    let config = config_of(20, 20, 25);
    let items = first(
        alloc,
        0,
        &[
            130, 1, 24, corner, corner, 6, 6, 0, 1, 132, 1, 8, 0, 1, //
            130, 2, 24, corner, corner, 3, 4, 0, 1, 132, 2, 8, 0, 1, //
            130, 3, 24, corner, corner, 1, 1, 0, 1, 132, 3, 8, 0, 1,
        ],
    )?;
    let replies = greeted(alloc, 0, &[20, 20, 24, 2])?;
    let one = told(alloc, 1, &[1, 1, 6, 6, 1])?;
    let two = told(alloc, 2, &[1, 1, 3, 4, 1])?;
    let three = focused(alloc, 0, 3)?;
    gives(
        &rt,
        alloc,
        &[&config, &items, &[10]],
        &[&replies, &one, &two, &three, &summary_of(2, 6, 0)],
    )
}

// An override window of 4 by 2 at (18, -3).
#[test]
fn override_moved_inside(rt: HostRuntime) -> Result<(), Fail> {
    let alloc = rt.alloc();
    let config = config_of(20, 20, 90);
    let items = first(
        alloc,
        0,
        &[130, 1, 24, 18, 0xffff_fffd, 4, 2, 0, 1, 132, 1, 8, 0, 1],
    )?;
    let replies = greeted(alloc, 0, &[20, 20, 24, 2])?;
    let moved = told(alloc, 1, &[15, 1, 4, 2, 1])?;
    gives(
        &rt,
        alloc,
        &[&config, &items, &[10]],
        &[&replies, &moved, &summary_of(2, 2, 0)],
    )
}

// A window of 4 by 4 at (2, 2) on 20 by 10 pixels goes full-screen: it gets all but the border. That the
// flag is cleared isn't answered.
#[test]
fn full_screen(rt: HostRuntime) -> Result<(), Fail> {
    let alloc = rt.alloc();
    let config = config_of(20, 10, 90);
    let items = first(
        alloc,
        0,
        &[
            130, 1, 24, 2, 2, 4, 4, 0, 0, 132, 1, 8, 0, 0, 145, 1, 8, 1, 0,
        ],
    )?;
    let cleared = then(alloc, 0, &[145, 1, 8, 0, 1])?;
    let replies = greeted(alloc, 0, &[20, 10, 24, 1])?;
    let full = told(alloc, 1, &[1, 1, 18, 8, 0])?;
    gives(
        &rt,
        alloc,
        &[&config, &items, &cleared, &[10]],
        &[&replies, &FOCUSED, &full, &summary_of(3, 4, 0)],
    )
}

// A black desktop of 4 by 2 pixels with one page and one tile a guest, and sixteen guests: `a` to `p`, of the
// colours 1 to 16.
fn sixteen(alloc: Global) -> Result<Vec<u8>, Fail> {
    let head = spelled(alloc, &[4, 2, 1, 1, 1, 90, 0])?;
    let mut config = joined(alloc, &[b"QGR1", &[1], &head, &[16]])?;
    for guest in 0..16u8 {
        config.extend_from_slice(&[guest + 1, 0, 0, 0, 1, b'a' + guest])?;
    }
    Ok(config)
}

// There is room for sixteen guests where there is memory: the last one is greeted.
#[test]
fn sixteen_guests(rt: HostRuntime) -> Result<(), Fail> {
    let alloc = rt.alloc();
    let config = sixteen(alloc)?;
    let last = first(alloc, 15, &[])?;
    let replies = greeted(alloc, 15, &[4, 2, 24, 1])?;
    gives(
        &rt,
        alloc,
        &[&config, &last, &[10]],
        &[&replies, &summary_of(2, 0, 0)],
    )
}
