// A desk in memory, with a hand-computed picture and counts. How guests go with each other is told by the
// tests of the program.
ghost use Rattle.std.specs.Prelude.{◌≡◌, ◌≤◌, ◌+◌, length, IfOk};

use super::*;
use desk_laws::{GuestSetup, Guests, Item, Name, Outputs, Pairs, Setup};
use frame_pool::TapePort;
use gui_num::{Colour, NoMemory, Rect};
use io_ports::PostList;
use std::alloc::Global;
use std::test::Fail;

// The version 1.7, CREATE of window 1 at (2, 2), 3 by 1, MAP of it, its dump into page 0, and SHMIMAGE of
// all its pixels.
const READ_BYTES: [u8; 120] = [
    7, 0, 1, 0, 130, 0, 0, 0, 1, 0, 0, 0, 24, 0, 0, 0, 2, 0, 0, 0, 2, 0, 0, 0, 3, 0, 0, 0, 1, 0, 0,
    0, 0, 0, 0, 0, 0, 0, 0, 0, 132, 0, 0, 0, 1, 0, 0, 0, 8, 0, 0, 0, 0, 0, 0, 0, 0, 0, 0, 0, 147,
    0, 0, 0, 1, 0, 0, 0, 20, 0, 0, 0, 0, 0, 0, 0, 3, 0, 0, 0, 1, 0, 0, 0, 24, 0, 0, 0, 0, 0, 0, 0,
    136, 0, 0, 0, 1, 0, 0, 0, 16, 0, 0, 0, 0, 0, 0, 0, 0, 0, 0, 0, 3, 0, 0, 0, 1, 0, 0, 0,
];

// A guest with this label colour and name.
fn guest(colour: u32, name: &[u8]) -> GuestSetup
    requires { length name.now ≤ 255 }
{
    GuestSetup {
        colour: Colour(colour),
        name: Name::new(name),
    }
}

// These guests and one more.
fn with(mut guests: Guests, guest: GuestSetup) -> Result<Guests, NoMemory>
    ensures { IfOk result (λ all. length all ≡ length guests + 1) }
{
    guests.push(guest)?;
    Ok(guests)
}

// The guests `red` and `green`.
fn red_and_green(alloc: Global) -> Result<Guests, NoMemory>
    ensures { IfOk result (λ guests. length guests ≡ 2) }
{
    let red = with(Guests::new(alloc), guest(0xff0000, b"red"))?;
    with(red, guest(0x00ff00, b"green"))
}

// The one output of a plane of this width and height.
fn whole_plane(alloc: Global, w: u32, h: u32) -> Result<Outputs, NoMemory> {
    let mut outputs = Outputs::new(alloc);
    outputs.push(Rect { x: 0, y: 0, w, h })?;
    Ok(outputs)
}

// A black desktop of 8 by 6 pixels with borders of one pixel.
fn setup(alloc: Global) -> Result<Setup, Fail>
    ensures { IfOk result (λ s. length s.guests ≡ 2) }
{
    let guests = red_and_green(alloc)?;
    Ok(Setup {
        width: 8,
        height: 6,
        border: 1,
        pages: 32,
        tiles: 16,
        percent: 90,
        background: Colour(0),
        guests,
        outputs: whole_plane(alloc, 8, 6)?,
        clip: 1,
        denied: Pairs::new(alloc),
    })
}

// A window of the second of two guests, with the pixels that were read of it.
#[test]
fn readings_on_the_picture(rt: HostRuntime) -> Result<(), Fail> {
    let setup = setup(rt.alloc())?;
    assert!(rt; setup.first_broken().is_none());
    let mut desk = Desk::open(rt.alloc(), &setup)?;
    let mut port = TapePort::new(rt.alloc(), 2, setup.pages)?;
    port.push(1, 1)?;
    port.push(1, 2)?;
    port.push(1, 3)?;
    let mut posts = PostList::new(rt.alloc());
    desk.step(
        &Item::Bytes { guest: 1 },
        &READ_BYTES,
        &mut port,
        &mut posts,
    );
    desk.step(&Item::Snap, &[], &mut port, &mut posts);
    let shown: [u32; 8] = [0, 0x00ff00, 1, 2, 3, 0x00ff00, 0, 0];
    assert!(rt; desk.picture().height() == 6);
    assert!(rt; desk.picture().row(2) == shown.as_slice());
    assert_eq!(rt;
        desk.step(&Item::End, &[], &mut port, &mut posts),
        Stepped::Ended
    );
    let summary = Summary {
        items: 3,
        messages: 4,
        glances: 3,
        painted: 48,
    };
    assert_eq!(rt; desk.summary(), summary);
    Ok(())
}
