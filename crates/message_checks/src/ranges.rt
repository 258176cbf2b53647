// The ranges of a message's fields.
ghost use Rattle.std.specs.Prelude.{◌≡◌, ◌≤◌, [], ◌∷◌, ◌==◌, ◌||◌, not, nat_lt};
ghost use Rattle.gui_wire.specs.Seen.{message};
ghost use Rattle.desk_laws.specs.Effects as effects;
ghost use Rattle.desk_laws.specs.Effects.{first_of_causes};

use desk_laws::{Cause, PAGE_BYTES};
use gui_wire::{AgentMsg, Header, MAX_WINDOW_HEIGHT, MAX_WINDOW_WIDTH};

/// The first field out of its range. A dump whose references don't fit its size comes last.
pub fn range_fault(msg: &AgentMsg<'_>, header: Header) -> Option<Cause>
    ensures { result ≡ effects.range_fault header.window header.len (message msg.now) }
{
    match msg {
        AgentMsg::Create { width, height, .. } => create_fault(header.window, *width, *height),
        AgentMsg::Configure { width, height, .. } => size_fault(*width, *height),
        AgentMsg::Shmimage {
            x,
            y,
            width,
            height,
        } => area_fault(*x, *y, *width, *height),
        AgentMsg::Dump {
            kind,
            width,
            height,
            bpp,
            refs,
        } => { dump_fault(*kind, *width, *height, *bpp, refs.count(), header.len) }
        _ => None,
    }
}

// A field with bit 31 set.
fn high_bit(field: u32, value: u32) -> Option<Cause>
    ensures { result ≡ effects.high_bit field value }
{
    if value < 1 << 31 {
        None
    } else {
        Some(Cause::BadRange { a: field, b: value })
    }
}

fn size_fault(width: u32, height: u32) -> Option<Cause>
    ensures { result ≡ first_of_causes (effects.high_bit 3 width ∷ effects.high_bit 4 height ∷ []) }
{
    high_bit(3, width).or(high_bit(4, height))
}

fn create_fault(window: u32, width: u32, height: u32) -> Option<Cause>
    ensures { result ≡ first_of_causes (effects.out_of (window == 0) 0 window
        ∷ effects.high_bit 3 width ∷ effects.high_bit 4 height ∷ []) }
{
    if window == 0 {
        return Some(Cause::BadRange { a: 0, b: window });
    }
    size_fault(width, height)
}

fn area_fault(x: u32, y: u32, width: u32, height: u32) -> Option<Cause>
    ensures { result ≡ first_of_causes (effects.high_bit 1 x ∷ effects.high_bit 2 y
        ∷ effects.high_bit 3 width ∷ effects.high_bit 4 height ∷ []) }
{
    high_bit(1, x)
        .or(high_bit(2, y))
        .or(size_fault(width, height))
}

// How many pages the pixels of a window take, of four bytes each.
fn pages_for(width: u32, height: u32) -> u32
    requires width { width ≤ MAX_WINDOW_WIDTH }
    requires height { height ≤ MAX_WINDOW_HEIGHT }
    ensures { result ≡ effects.pages_for width height }
{
    (4 * width * height + (PAGE_BYTES - 1)) / PAGE_BYTES
}

fn dump_fault(kind: u32, width: u32, height: u32, bpp: u32, refs: u32, len: u32) -> Option<Cause>
    ensures { result ≡ first_of_causes (effects.out_of (effects.isnt_zero kind) 1 kind
        ∷ effects.out_of (width == 0 || nat_lt MAX_WINDOW_WIDTH width) 2 width
        ∷ effects.out_of (height == 0 || nat_lt MAX_WINDOW_HEIGHT height) 3 height
        ∷ effects.out_of (not (bpp == 24 || bpp == 32)) 4 bpp
        ∷ effects.wrong_count refs (effects.pages_for width height) len ∷ []) }
{
    if kind != 0 {
        return Some(Cause::BadRange { a: 1, b: kind });
    }
    if width == 0 || width > MAX_WINDOW_WIDTH {
        return Some(Cause::BadRange { a: 2, b: width });
    }
    if height == 0 || height > MAX_WINDOW_HEIGHT {
        return Some(Cause::BadRange { a: 3, b: height });
    }
    if bpp != 24 && bpp != 32 {
        return Some(Cause::BadRange { a: 4, b: bpp });
    }
    if refs != pages_for(width, height) {
        return Some(Cause::BadLength { a: len, b: 0 });
    }
    None
}
