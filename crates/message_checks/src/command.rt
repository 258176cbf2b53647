// What a checked message asks for.
ghost use Rattle.std.specs.Prelude.{◌≡◌};
ghost use Rattle.gui_wire.specs.Seen.{message};
ghost use Rattle.desk_laws.specs.Ranges.{place_in_range, width_in_range, height_in_range, rect_in_range};
ghost use Rattle.std.specs.Int.{w32, cast_signed};
ghost use Rattle.message_checks.specs.Commands.{IsCommandOf};

use gui_num::Rect;
use gui_wire::{AgentMsg, MAX_WINDOW_HEIGHT, MAX_WINDOW_WIDTH, Refs};

/// A message that was checked. A `rect` is its place and size, in pixels from the desktop's upper
/// left corner, in range: x and y from -32768 to 32767, a width from 1 to 16384, a height from 1 to
/// 6144. All other fields are those of the message; texts, clipboard bytes and references are borrowed.
#[derive(Clone, Copy)]
pub enum Command<'a> {
    Create {
        rect: Rect,
        parent: u32,
        override_redirect: u32,
    },
    Destroy,
    Map {
        transient_for: u32,
        override_redirect: u32,
    },
    Unmap,
    Configure {
        rect: Rect,
        override_redirect: u32,
    },
    Shmimage {
        x: u32,
        y: u32,
        width: u32,
        height: u32,
    },
    Clip {
        bytes: &'a [u8],
    },
    Name {
        text: &'a [u8],
    },
    Dock,
    Hints {
        hints: [u32; 9],
    },
    Flags {
        flags_set: u32,
        flags_unset: u32,
    },
    Class {
        class: &'a [u8],
        name: &'a [u8],
    },
    Dump {
        kind: u32,
        width: u32,
        height: u32,
        bpp: u32,
        refs: Refs<'a>,
    },
    Cursor {
        cursor: u32,
    },
}

/// What the message asks for.
pub fn command_of<'a>(msg: &AgentMsg<'a>) -> Command<'a>
    ensures { IsCommandOf (message msg.now) result }
{
    match *msg {
        AgentMsg::Create {
            x,
            y,
            width,
            height,
            parent,
            override_redirect,
        } => Command::Create {
            rect: rect_of(x, y, width, height),
            parent,
            override_redirect,
        },
        AgentMsg::Destroy => Command::Destroy,
        AgentMsg::Map {
            transient_for,
            override_redirect,
        } => Command::Map {
            transient_for,
            override_redirect,
        },
        AgentMsg::Unmap => Command::Unmap,
        AgentMsg::Configure {
            x,
            y,
            width,
            height,
            override_redirect,
        } => Command::Configure {
            rect: rect_of(x, y, width, height),
            override_redirect,
        },
        AgentMsg::Shmimage {
            x,
            y,
            width,
            height,
        } => Command::Shmimage {
            x,
            y,
            width,
            height,
        },
        AgentMsg::Clip { bytes } => Command::Clip { bytes },
        AgentMsg::Name { text } => Command::Name { text },
        AgentMsg::Dock => Command::Dock,
        AgentMsg::Hints { hints } => Command::Hints { hints },
        AgentMsg::Flags {
            flags_set,
            flags_unset,
        } => Command::Flags {
            flags_set,
            flags_unset,
        },
        AgentMsg::Class { class, name } => Command::Class { class, name },
        AgentMsg::Dump {
            kind,
            width,
            height,
            bpp,
            refs,
        } => Command::Dump {
            kind,
            width,
            height,
            bpp,
            refs,
        },
        AgentMsg::Cursor { cursor } => Command::Cursor { cursor },
    }
}

// The place and the size, in range.
fn rect_of(x: u32, y: u32, width: u32, height: u32) -> Rect
    ensures { result ≡ rect_in_range x y width height }
{
    Rect {
        x: place_of(x),
        y: place_of(y),
        w: width_of(width),
        h: height_of(height),
    }
}

fn place_of(n: u32) -> i32
    ensures { result ≡ place_in_range (cast_signed w32 n) }
{
    n.cast_signed().min(32767).max(-32768)
}

fn width_of(n: u32) -> u32
    ensures { result ≡ width_in_range n }
{
    n.min(MAX_WINDOW_WIDTH).max(1)
}

fn height_of(n: u32) -> u32
    ensures { result ≡ height_in_range n }
{
    n.min(MAX_WINDOW_HEIGHT).max(1)
}
