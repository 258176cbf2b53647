// What the user does, through whole runs over memory. What they have to write was worked by hand.

use crate::guest_tests::{
    SHARED, first, focused, greeted, shared_picture, summary_of, then, two_mapped, two_told,
    unfocused,
};
use crate::message_tests::{reply, said, spelled};
use crate::tests::{CONFIG, FOCUSED, GREETING, TAIL, gives, joined, summary};
use std::alloc::Global;
use std::test::Fail;

// The first button, pressed and released.
pub(crate) const PRESS: [u8; 5] = [7, 1, 1, 0, 0];

pub(crate) const RELEASE: [u8; 5] = [7, 0, 1, 0, 0];

// The pointer comes to this pixel.
pub(crate) fn moved(x: u8, y: u8) -> [u8; 11] {
    [6, x, 0, 0, 0, y, 0, 0, 0, 0, 0]
}

// A Reply record of a guest, with these numbers.
pub(crate) fn told(alloc: Global, guest: u8, numbers: &[u32]) -> Result<Vec<u8>, Fail> {
    let bytes = spelled(alloc, numbers)?;
    let len = bytes.len().min(65_536) as u32;
    joined(alloc, &[&[1, guest], &len.to_le_bytes(), &bytes])
}

// A desktop of 20 by 10 pixels with the guests `red` and `green`.
pub(crate) fn wide() -> [u8; 52] {
    let mut config = SHARED;
    config[5] = 20;
    config[9] = 10;
    config
}

// Red's window of 4 by 4 at (2, 2), and then green's at (10, 2). Both have the number 1.
pub(crate) fn two_apart(alloc: Global) -> Result<Vec<u8>, Fail> {
    let red = first(alloc, 0, &[130, 1, 24, 2, 2, 4, 4, 0, 0, 132, 1, 8, 0, 0])?;
    let green = first(alloc, 1, &[130, 1, 24, 10, 2, 4, 4, 0, 0, 132, 1, 8, 0, 0])?;
    joined(alloc, &[&red, &green])
}

// What both are told until then: red's window has the focus.
pub(crate) fn both_told(alloc: Global) -> Result<Vec<u8>, Fail> {
    let red = greeted(alloc, 0, &[20, 10, 24, 1])?;
    let green = greeted(alloc, 1, &[20, 10, 24, 1])?;
    joined(alloc, &[&red, &FOCUSED, &green])
}

// A press on red's window, which is partly covered, raises it.
#[test]
fn click_raises(rt: HostRuntime) -> Result<(), Fail> {
    let alloc = rt.alloc();
    let items = two_mapped(alloc)?;
    let replies = two_told(alloc)?;
    let enter = told(alloc, 0, &[127, 1, 28, 7, 0, 0, 0, 0, 3, 1])?;
    let button = told(alloc, 0, &[125, 1, 20, 4, 0, 0, 0, 1])?;
    let shown = shared_picture(
        alloc,
        b"RRRRR.....\
          R---RGGG..\
          R---R--G..\
          RRRRR--G..\
          ...GGGGG..\
          ..........",
    )?;
    gives(
        &rt,
        alloc,
        &[&SHARED, &items, &moved(1, 1), &PRESS, &TAIL],
        &[&replies, &enter, &button, &shown, &summary_of(6, 4, 60)],
    )
}

// While a button that was pressed on red's window is held, the pointer is red's, also above green's window.
#[test]
fn grab_across_windows(rt: HostRuntime) -> Result<(), Fail> {
    let alloc = rt.alloc();
    let items = two_apart(alloc)?;
    let replies = both_told(alloc)?;
    let enter = told(alloc, 0, &[127, 1, 28, 7, 1, 1, 0, 0, 3, 1])?;
    let press = told(alloc, 0, &[125, 1, 20, 4, 1, 1, 0, 1])?;
    let motion = told(alloc, 0, &[126, 1, 16, 9, 1, 0, 0])?;
    let release = told(alloc, 0, &[125, 1, 20, 5, 9, 1, 0, 1])?;
    let leave = told(alloc, 0, &[127, 1, 28, 8, 9, 1, 0, 0, 3, 1])?;
    let other = told(alloc, 1, &[127, 1, 28, 7, 1, 1, 0, 0, 3, 0])?;
    gives(
        &rt,
        alloc,
        &[
            &wide(),
            &items,
            &moved(3, 3),
            &PRESS,
            &moved(11, 3),
            &RELEASE,
            &[10],
        ],
        &[
            &replies,
            &enter,
            &press,
            &motion,
            &release,
            &leave,
            &other,
            &summary_of(7, 4, 0),
        ],
    )
}

// A key that was pressed for red's window is released when green's has the focus: nobody is told.
#[test]
fn release_after_focus_change(rt: HostRuntime) -> Result<(), Fail> {
    let alloc = rt.alloc();
    let items = two_apart(alloc)?;
    let replies = both_told(alloc)?;
    let key = told(alloc, 0, &[124, 1, 20, 2, 0, 0, 0, 38])?;
    let enter = told(alloc, 1, &[127, 1, 28, 7, 1, 1, 0, 0, 3, 0])?;
    let press = told(alloc, 1, &[125, 1, 20, 4, 1, 1, 0, 1])?;
    let out = unfocused(alloc, 0, 1)?;
    let focus = focused(alloc, 1, 1)?;
    let release = told(alloc, 1, &[125, 1, 20, 5, 1, 1, 0, 1])?;
    gives(
        &rt,
        alloc,
        &[
            &wide(),
            &items,
            &[5, 1, 38, 0, 0],
            &moved(11, 3),
            &PRESS,
            &RELEASE,
            &[5, 0, 38, 0, 0],
            &[10],
        ],
        &[
            &replies,
            &key,
            &enter,
            &press,
            &out,
            &focus,
            &release,
            &summary_of(8, 4, 0),
        ],
    )
}

// What the user does outside the desktop or where no window is, is told to nobody.
#[test]
fn told_to_nobody(rt: HostRuntime) -> Result<(), Fail> {
    let alloc = rt.alloc();
    let items = two_apart(alloc)?;
    let replies = both_told(alloc)?;
    gives(
        &rt,
        alloc,
        &[
            &wide(),
            &items,
            &PRESS,
            &moved(20, 3),
            &moved(8, 9),
            &PRESS,
            &RELEASE,
            &[10],
        ],
        &[&replies, &summary_of(8, 4, 0)],
    )
}

// The width 0 is brought into range, and the window is asked to close.
#[test]
fn resized_and_closed(rt: HostRuntime) -> Result<(), Fail> {
    let alloc = rt.alloc();
    let window = said(alloc, &[&[130, 1, 24, 2, 2, 2, 2, 0, 0, 132, 1, 8, 0, 0]])?;
    let size = [8, 5, 0, 0, 0, 0, 5, 0, 0, 0];
    let close = [8, 1, 0, 0, 0, 0, 0, 0, 0, 0];
    let placed = reply(alloc, 32, &[134, 1, 20, 2, 2, 1, 5, 0])?;
    let closes = reply(alloc, 12, &[137, 1, 0])?;
    let mut counts = summary(4, 2);
    counts[25] = 0;
    gives(
        &rt,
        alloc,
        &[&CONFIG, &window, &size, &close, &[10]],
        &[&GREETING, &FOCUSED, &placed, &closes, &counts],
    )
}

// Next raises green's window, which is at the front of the focus list; then red's comes back.
#[test]
fn next_window(rt: HostRuntime) -> Result<(), Fail> {
    let alloc = rt.alloc();
    let items = two_apart(alloc)?;
    let replies = both_told(alloc)?;
    let next = [8, 2, 0, 0, 0, 0, 0, 0, 0, 0];
    let red_out = unfocused(alloc, 0, 1)?;
    let green_in = focused(alloc, 1, 1)?;
    let green_out = unfocused(alloc, 1, 1)?;
    gives(
        &rt,
        alloc,
        &[&wide(), &items, &next, &next, &[10]],
        &[
            &replies,
            &red_out,
            &green_in,
            &green_out,
            &FOCUSED,
            &summary_of(5, 4, 0),
        ],
    )
}

// Red minimizes its window, and green's gets the focus. Restore shows red's window again, as the last one of the
// focus list: the focus comes back, and no place is told.
#[test]
fn restored(rt: HostRuntime) -> Result<(), Fail> {
    let alloc = rt.alloc();
    let items = two_apart(alloc)?;
    let hides = then(alloc, 0, &[145, 1, 8, 4, 0])?;
    let restore = [8, 3, 0, 0, 0, 0, 0, 0, 0, 0];
    let replies = both_told(alloc)?;
    let red_out = unfocused(alloc, 0, 1)?;
    let green_in = focused(alloc, 1, 1)?;
    let green_out = unfocused(alloc, 1, 1)?;
    gives(
        &rt,
        alloc,
        &[&wide(), &items, &hides, &restore, &[10]],
        &[
            &replies,
            &red_out,
            &green_in,
            &green_out,
            &FOCUSED,
            &summary_of(5, 5, 0),
        ],
    )
}
