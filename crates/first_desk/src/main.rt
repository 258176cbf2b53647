//! The daemon as a library: opens a desk, lets a guest show a window, and looks at a pixel.
#![tactic(auto)]

ghost use Rattle.std.specs.Prelude.{◌≡◌, [], ◌∷◌, pos, None, length, IfOk};
ghost use Rattle.desk_laws.specs.Rules.{first_broken};

use desk_core::Desk;
use desk_laws::{GuestSetup, Guests, Item, Name, Outputs, Pairs, Setup};
use frame_pool::PoolPort;
use gui_num::{Colour, NoMemory, Rect};
use gui_wire::{AgentMsg, spell_agent, spell_word};
use io_ports::PostList;
use std::alloc::Global;
use std::io;

// One output of 8 by 6 pixels.
fn outputs(alloc: Global) -> Result<Outputs, NoMemory>
    ensures { IfOk result (λ outputs. outputs ≡ record { x = pos 0; y = pos 0; w = 8; h = 6 } ∷ []) }
{
    let mut outputs = Outputs::new(alloc);
    outputs.push(Rect {
        x: 0,
        y: 0,
        w: 8,
        h: 6,
    })?;
    Ok(outputs)
}

// A black desktop of 8 by 6 pixels, shown whole, and one guest, whose windows have red rings of one pixel.
fn setup(alloc: Global) -> Result<Setup, NoMemory>
    ensures rules { IfOk result (λ setup. first_broken setup ≡ None) }
    ensures one { IfOk result (λ setup. length setup.guests ≡ 1) }
{
    let mut guests = Guests::new(alloc);
    guests.push(GuestSetup {
        colour: Colour(0xff0000),
        name: Name::new(b"red"),
    })?;
    Ok(Setup {
        width: 8,
        height: 6,
        border: 1,
        pages: 32,
        tiles: 16,
        percent: 90,
        background: Colour(0),
        guests,
        outputs: outputs(alloc)?,
        clip: 1,
        denied: Pairs::new(alloc),
    })
}

// What the guest sends: its version, 1.7, and then that it has a window of 2 by 2 pixels at (2, 2), and shows it.
fn first_window() -> [u8; 60] {
    let mut bytes = [0; 60];
    let create = AgentMsg::Create {
        x: 2,
        y: 2,
        width: 2,
        height: 2,
        parent: 0,
        override_redirect: 0,
    };
    let map = AgentMsg::Map {
        transient_for: 0,
        override_redirect: 0,
    };
    spell_word(0x0001_0007, &mut bytes);
    spell_agent(1, &create, &mut bytes[4..]);
    spell_agent(1, &map, &mut bytes[40..]);
    bytes
}

// The colour of a pixel, counted from the desktop's upper left corner, once the window is shown; none off the desktop.
fn pixel(alloc: Global, x: u32, y: u32) -> Result<Option<u32>, NoMemory> {
    let setup = setup(alloc)?;
    let mut desk = Desk::open(alloc, &setup)?;
    let mut frames = PoolPort::new(alloc, 1, setup.pages)?;
    let mut told = PostList::new(alloc);
    let window = first_window();
    desk.step(&Item::Bytes { guest: 0 }, &window, &mut frames, &mut told);
    desk.step(&Item::Snap, &[], &mut frames, &mut told);
    let picture = desk.picture();
    if y < picture.height() {
        Ok(picture.row(y).get(x as usize).copied())
    } else {
        Ok(None)
    }
}

fn main(rt: HostRuntime) -> io::Result<()> {
    match pixel(rt.alloc(), 1, 2) {
        Ok(Some(colour)) => println!(rt; "the pixel at (1, 2) is {colour:06x}"),
        Ok(None) => println!(rt; "there is no such pixel"),
        Err(NoMemory) => eprintln!(rt; "out of memory"),
    }
}
