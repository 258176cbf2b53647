// Three guests at work on one desktop, through whole runs over memory. What they have to write was worked
// by hand.

use crate::guest_tests::{focused, greeted, unfocused};
use crate::message_tests::spelled;
use crate::tests::{gives, joined};
use crate::user_tests::told;
use std::alloc::Global;
use std::test::Fail;

// An agent's own helper window, which is never mapped.
const HELPER: u32 = 4_194_305;

// The main window of `work`, and the browser of `untrusted`: guests may use the same numbers.
const MAIN: u32 = 6_291_459;

// The terminal of `personal`.
const TERMINAL: u32 = 8_388_611;

// The menu of the browser.
const MENU: u32 = 6_291_475;

// The number -100 as it stands in messages.
const OUTSIDE: u32 = 0xffff_ff9c;

// A black desktop of 1920 by 1080 pixels with borders of two pixels, and the guests `work`, `personal` and
// `untrusted`, of 8192 pages and 4096 tiles each.
fn config(alloc: Global) -> Result<Vec<u8>, Fail> {
    let head = spelled(alloc, &[1920, 1080, 2, 8192, 4096, 90, 0])?;
    joined(
        alloc,
        &[
            b"QGR1",
            &[1],
            &head,
            &[3],
            &[255, 0, 0, 0, 4],
            b"work",
            &[0, 255, 0, 0, 8],
            b"personal",
            &[0, 0, 255, 0, 9],
            b"untrusted",
        ],
    )
}

// The version 1.7 and these messages, as one item of a guest.
fn begins(alloc: Global, guest: u8, messages: &[u8]) -> Result<Vec<u8>, Fail> {
    let len = messages.len().min(65_532) as u32 + 4;
    joined(
        alloc,
        &[&[2, guest], &len.to_le_bytes(), &[7, 0, 1, 0], messages],
    )
}

// A text with zeros behind it, to 64 bytes.
fn text(alloc: Global, printed: &[u8]) -> Result<Vec<u8>, Fail> {
    let mut bytes = joined(alloc, &[printed])?;
    for _ in printed.len()..64 {
        bytes.push(0)?;
    }
    Ok(bytes)
}

// WMCLASS and WMNAME of the main window.
fn texts(alloc: Global) -> Result<Vec<u8>, Fail> {
    let class_head = spelled(alloc, &[146, MAIN, 128])?;
    let class = text(alloc, b"navigator")?;
    let name = text(alloc, b"Navigator")?;
    let title_head = spelled(alloc, &[141, MAIN, 128])?;
    let title = text(alloc, b"A page - Navigator")?;
    joined(
        alloc,
        &[&class_head, &class, &name, &title_head, &title, &[0; 64]],
    )
}

// A dump that begins like this, with references to the pages from `first` up to `end`, without `end`.
fn dump(alloc: Global, head: &[u32; 7], first: u32, end: u32) -> Result<Vec<u8>, Fail> {
    let mut bytes = spelled(alloc, head)?;
    for page in first..end {
        bytes.extend_from_slice(&page.to_le_bytes())?;
    }
    Ok(bytes)
}

// The helper, and a main window of 1200 by 800 pixels at (100, 80): 3,840,000 bytes, which need 938 pages.
fn main_window(alloc: Global) -> Result<Vec<u8>, Fail> {
    let created = spelled(
        alloc,
        &[
            130, HELPER, 24, OUTSIDE, OUTSIDE, 1, 1, 0, 1, //
            130, MAIN, 24, 100, 80, 1200, 800, 0, 0,
        ],
    )?;
    let texts = texts(alloc)?;
    let mapped = spelled(
        alloc,
        &[
            144, MAIN, 36, 16, 450, 120, 0, 0, 0, 0, 0, 0, //
            132, MAIN, 8, 0, 0,
        ],
    )?;
    let dump = dump(alloc, &[147, MAIN, 3768, 0, 1200, 800, 24], 0, 938)?;
    let drawn = spelled(alloc, &[136, MAIN, 16, 0, 0, 1200, 800, 148, MAIN, 4, 0])?;
    joined(alloc, &[&created, &texts, &mapped, &dump, &drawn])
}

// A terminal of 724 by 484 pixels: 1,401,664 bytes, which need 343 pages.
fn terminal(alloc: Global) -> Result<Vec<u8>, Fail> {
    let mapped = spelled(
        alloc,
        &[
            130, TERMINAL, 24, 1150, 560, 724, 484, 0, 0, //
            132, TERMINAL, 8, 0, 0,
        ],
    )?;
    let dump = dump(alloc, &[147, TERMINAL, 1388, 0, 724, 484, 24], 0, 343)?;
    let drawn = spelled(alloc, &[136, TERMINAL, 16, 0, 0, 724, 484])?;
    joined(alloc, &[&mapped, &dump, &drawn])
}

// A menu of 200 by 300 pixels at (300, 140), of the browser's: 240,000 bytes, which need 59 pages.
fn menu(alloc: Global) -> Result<Vec<u8>, Fail> {
    let mapped = spelled(
        alloc,
        &[
            130, MENU, 24, 300, 140, 200, 300, 0, 1, //
            132, MENU, 8, MAIN, 1,
        ],
    )?;
    let dump = dump(alloc, &[147, MENU, 252, 0, 200, 300, 24], 938, 997)?;
    let drawn = spelled(alloc, &[136, MENU, 16, 0, 0, 200, 300])?;
    joined(alloc, &[&mapped, &dump, &drawn])
}

// What all three send.
fn sent(alloc: Global) -> Result<Vec<u8>, Fail> {
    let main = main_window(alloc)?;
    let terminal = terminal(alloc)?;
    let menu = menu(alloc)?;
    let browser = joined(alloc, &[&main, &menu])?;
    let work = begins(alloc, 0, &main)?;
    let personal = begins(alloc, 1, &terminal)?;
    let untrusted = begins(alloc, 2, &browser)?;
    joined(alloc, &[&work, &personal, &untrusted])
}

// What all three are told: each the replies to its version, `work` that its main window has the focus, which
// was mapped first, and each that its dumps are accepted. The menu lies on the desktop with its border, so
// its MAP changes no place and tells nothing; that it was granted shows where the user asks for the next window.
fn all_told(alloc: Global) -> Result<Vec<u8>, Fail> {
    let desktop = [1920, 1080, 24, 8100];
    let work = greeted(alloc, 0, &desktop)?;
    let focus = focused(alloc, 0, MAIN)?;
    let work_dump = told(alloc, 0, &[149, MAIN, 0])?;
    let personal = greeted(alloc, 1, &desktop)?;
    let personal_dump = told(alloc, 1, &[149, TERMINAL, 0])?;
    let untrusted = greeted(alloc, 2, &desktop)?;
    let browser_dump = told(alloc, 2, &[149, MAIN, 0])?;
    let menu_dump = told(alloc, 2, &[149, MENU, 0])?;
    joined(
        alloc,
        &[
            &work,
            &focus,
            &work_dump,
            &personal,
            &personal_dump,
            &untrusted,
            &browser_dump,
            &menu_dump,
        ],
    )
}

// The Summary of so many items: 9, 4 and 13 messages, and one load for each pixel of the four windows:
// 960,000, 350,416, 960,000 and 60,000.
fn summary(alloc: Global, items: u32) -> Result<Vec<u8>, Fail> {
    let counts = spelled(alloc, &[items, 0, 26, 0, 2_330_416, 0, 0, 0])?;
    joined(alloc, &[&[4], &counts])
}

// The windows of three guests come with all their pixels, and only the first window that was mapped gets the
// focus.
#[test]
fn three_guests_at_work(rt: HostRuntime) -> Result<(), Fail> {
    let alloc = rt.alloc();
    let config = config(alloc)?;
    let items = sent(alloc)?;
    let replies = all_told(alloc)?;
    let counts = summary(alloc, 4)?;
    gives(&rt, alloc, &[&config, &items, &[10]], &[&replies, &counts])
}

// The menu was mapped last and is an override window: next passes it and raises the browser, which comes behind
// it in the focus list. A menu that isn't granted would get the focus.
#[test]
fn next_passes_the_menu(rt: HostRuntime) -> Result<(), Fail> {
    let alloc = rt.alloc();
    let config = config(alloc)?;
    let items = sent(alloc)?;
    let next = [8, 2, 0, 0, 0, 0, 0, 0, 0, 0];
    let replies = all_told(alloc)?;
    let work = unfocused(alloc, 0, MAIN)?;
    let browser = focused(alloc, 2, MAIN)?;
    let counts = summary(alloc, 5)?;
    gives(
        &rt,
        alloc,
        &[&config, &items, &next, &[10]],
        &[&replies, &work, &browser, &counts],
    )
}
