//! Shows one desktop of windows over and over, and prints a checksum of the last picture. It is what
//! `bench/full_repaints` measures, and its scene is that of `bench/full_repaints_rust`: 4 guests, with as
//! many windows as it is told, which they make by messages and whose contents are read from their frames.
//! The desktop has one output, or two of half its width that lie side by side; the picture is the same.
#![tactic(auto)]

ghost use Rattle.std.specs.Prelude.{◌≤◌, IfOk, IfSome};

mod scene;
mod screen;

use crate::scene::{
    GUESTS, MOST_WINDOWS, PAGES, VERSION, guest_of, page_bytes, setup, window_bytes,
};
use crate::screen::Screen;
use desk_core::Picture;
use gui_num::NoMemory;
use std::alloc::Global;
use std::process::ExitCode;
use std::{env, io};

// A number that tells pictures apart.
fn checksum(picture: &Picture) -> u64 {
    let mut sum = 0u64;
    for y in 0..picture.height() {
        for colour in picture.row(y) {
            sum = sum.wrapping_mul(31).wrapping_add(u64::from(*colour));
        }
    }
    sum
}

// Lets each guest begin its session and write its frames.
fn greet(alloc: Global, screen: &mut Screen) -> Result<(), NoMemory> {
    for guest in 0..GUESTS {
        screen.receive(guest, &VERSION);
        for page in 0..PAGES {
            screen.store(guest, page, &page_bytes(alloc, guest, page)?);
        }
    }
    Ok(())
}

// Lets the guests make their windows, from the lowest one up.
fn make_windows(alloc: Global, screen: &mut Screen, windows: u32) -> Result<(), NoMemory>
    requires { windows ≤ 1024 }
{
    for above in 0..windows {
        let k = windows - 1 - above;
        screen.receive(guest_of(k), &window_bytes(alloc, k, windows)?);
    }
    Ok(())
}

// Shows the scene with so many windows as often as is asked, and answers the checksum of the last picture.
fn repaint(alloc: Global, asked: Asked) -> Result<u64, NoMemory>
    requires { asked.windows ≤ 1024 }
{
    let mut screen = Screen::open(alloc, &setup(alloc, asked.outputs)?)?;
    greet(alloc, &mut screen)?;
    make_windows(alloc, &mut screen, asked.windows)?;
    for _ in 0..asked.frames {
        screen.snap();
    }
    Ok(checksum(screen.picture()))
}

// What the program is asked to do: how many pictures it draws, of how many windows, and on how many outputs.
#[derive(Clone, Copy)]
struct Asked {
    frames: u32,
    windows: u32,
    outputs: u32,
}

// What three words ask, if they are numbers and there may be so many windows and outputs.
fn asked_by(frames: &str, windows: &str, outputs: &str) -> Option<Asked>
    ensures { IfSome result (λ asked. asked.windows ≤ 1024) }
{
    let frames = frames.parse::<u32>().ok()?;
    let windows = windows.parse::<u32>().ok()?;
    let outputs = outputs.parse::<u32>().ok()?;
    if windows <= MOST_WINDOWS && (outputs == 1 || outputs == 2) {
        Some(Asked {
            frames,
            windows,
            outputs,
        })
    } else {
        None
    }
}

// What the words of the program ask, if there are three.
fn read_words(rt: &HostRuntime) -> io::Result<Option<Asked>>
    ensures { IfOk result (λ words. IfSome words (λ asked. asked.windows ≤ 1024)) }
{
    let mut words = env::args(rt)?.skip(1);
    let (frames, windows) = (words.next(), words.next());
    let (outputs, more) = (words.next(), words.next());
    match (frames, windows, outputs, more) {
        (Some(frames), Some(windows), Some(outputs), None) => {
            Ok(asked_by(&frames, &windows, &outputs))
        }
        _ => Ok(None),
    }
}

fn main(rt: HostRuntime) -> io::Result<ExitCode> {
    let Some(asked) = read_words(&rt)? else {
        eprintln!(rt;
            "usage: full_repaints FRAMES WINDOWS 1|2, and at most {MOST_WINDOWS} windows"
        )?;
        return Ok(ExitCode::from(2));
    };
    match repaint(rt.alloc(), asked) {
        Ok(sum) => {
            println!(rt; "{} frames, checksum {sum:016x}", asked.frames)?;
            Ok(ExitCode::from(0))
        }
        Err(NoMemory) => {
            eprintln!(rt; "out of memory")?;
            Ok(ExitCode::from(7))
        }
    }
}
