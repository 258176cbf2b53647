// Writes how a record begins: four bytes, the desktop's sizes and guests, and what its version has behind them.
ghost use Rattle.std.specs.Prelude.{◌≡◌, ◌≤◌, ◌+◌, ◌*◌, ◌^◌, ◌∷◌, ◌++◌, [], ℕ, List, length, None, Ok, OnOk, OnErr};
ghost use Rattle.std.specs.List.{flat_map, sum_by};
ghost use Rattle.io_ports.specs.Content.{Grows, GrowsPart};
ghost use Rattle.io_ports.specs.Counts.{HasCause};
ghost use Rattle.gui_wire.specs.Words.{word};
ghost use Rattle.desk_laws.specs.Rules.{first_broken};
ghost use Rattle.record_format.specs.Config.{config_of, config_len, outputs_len, clipboard_len, guest_spelling, head_spelling, later_spelling, config_spelling};

use crate::clipboard_out::put_clipboard;
use crate::outputs_out::put_outputs;
use crate::version::{Version, magic, version_of};
use desk_laws::{GuestSetup, Setup};
use io_ports::{Failed, Sink, put_all};

// What stands before the guests.
#[tactic(auto, unfolding(crate::specs::Config::head_spelling))]
fn head_bytes(version: Version, setup: &Setup) -> [u8; 34]
    requires { length setup.now.guests ≤ 255 }
    ensures { result ≡ head_spelling version setup.now }
{
    let width = setup.width.to_le_bytes();
    let height = setup.height.to_le_bytes();
    let border = setup.border.to_le_bytes();
    let pages = setup.pages.to_le_bytes();
    let tiles = setup.tiles.to_le_bytes();
    let percent = setup.percent.to_le_bytes();
    let background = setup.background.0.to_le_bytes();
    let mut head = [1u8; 34];
    head[..4].copy_from_slice(&magic(version));
    head[5..9].copy_from_slice(&width);
    head[9..13].copy_from_slice(&height);
    head[13..17].copy_from_slice(&border);
    head[17..21].copy_from_slice(&pages);
    head[21..25].copy_from_slice(&tiles);
    head[25..29].copy_from_slice(&percent);
    head[29..33].copy_from_slice(&background);
    head[33] = setup.guests.items().len() as u8;
    head
}

// What stands before the name of a guest.
fn guest_front(colour: u32, len: u8) -> [u8; 5]
    ensures { result ≡ word colour ++ len ∷ [] }
{
    let c = colour.to_le_bytes();
    [c[0], c[1], c[2], c[3], len]
}

fn put_guest<K: Sink>(guest: &GuestSetup, out: &mut K) -> Result<(), Failed>
    ensures ok { OnOk result (Grows (K.written out.old) (guest_spelling guest.now) (K.written out.new)) }
    ensures err { OnErr result (GrowsPart (K.written out.old) (guest_spelling guest.now) (K.written out.new)) }
    ensures keeps { K.keeps out.old out.new }
    ensures cause { HasCause (K.faults out.old) (K.faults out.new) result }
{
    let name = guest.name.bytes();
    match put_all(out, &guest_front(guest.colour.0, name.len() as u8)) {
        Ok(()) => put_all(out, name),
        Err(e) => Err(e),
    }
}

fn put_guests<K: Sink>(guests: &[GuestSetup], out: &mut K) -> Result<(), Failed>
    ensures ok { OnOk result (Grows (K.written out.old) (flat_map guest_spelling guests.now) (K.written out.new)) }
    ensures err { OnErr result (GrowsPart (K.written out.old) (flat_map guest_spelling guests.now) (K.written out.new)) }
    ensures keeps { K.keeps out.old out.new }
    ensures cause { HasCause (K.faults out.old) (K.faults out.new) result }
{
    for guest in guests {
        match put_guest(guest, out) {
            Ok(()) => {}
            Err(e) => return Err(e),
        }
    }
    Ok(())
}

// What every version spells.
fn put_front<K: Sink>(version: Version, setup: &Setup, out: &mut K) -> Result<(), Failed>
    requires { length setup.now.guests ≤ 255 }
    ensures ok { OnOk result (Grows (K.written out.old) (head_spelling version setup.now ++ flat_map guest_spelling setup.now.guests) (K.written out.new)) }
    ensures err { OnErr result (GrowsPart (K.written out.old) (head_spelling version setup.now ++ flat_map guest_spelling setup.now.guests) (K.written out.new)) }
    ensures keeps { K.keeps out.old out.new }
    ensures cause { HasCause (K.faults out.old) (K.faults out.new) result }
{
    match put_all(out, &head_bytes(version, setup)) {
        Ok(()) => put_guests(setup.guests.items(), out),
        Err(e) => Err(e),
    }
}

// What stands behind the guests.
fn put_later<K: Sink>(version: Version, setup: &Setup, out: &mut K) -> Result<(), Failed>
    requires { first_broken setup.now ≡ None }
    ensures ok { OnOk result (Grows (K.written out.old) (later_spelling version setup.now) (K.written out.new)) }
    ensures err { OnErr result (GrowsPart (K.written out.old) (later_spelling version setup.now) (K.written out.new)) }
    ensures keeps { K.keeps out.old out.new }
    ensures cause { HasCause (K.faults out.old) (K.faults out.new) result }
{
    match put_outputs(version, setup.outputs.items(), out) {
        Ok(()) => put_clipboard(version, setup.clip, setup.denied.items(), out),
        Err(e) => Err(e),
    }
}

/// Writes the four bytes that a record begins with, and the setup, which breaks no rule, in the lowest
/// version that has it: the first exactly where the whole plane is its one output, the clipboard's
/// revision is 1 and no pair is denied; else the second where the revision is 1 and no pair is denied;
/// else the third. `Failed` where the sink failed: a prefix of these bytes was then written. `read_config`
/// gives the setup back. The format is this project's own.
pub fn put_config<K: Sink>(setup: &Setup, out: &mut K) -> Result<(), Failed>
    requires { first_broken setup.now ≡ None }
    ensures ok { OnOk result (Grows (K.written out.old) (config_spelling setup.now) (K.written out.new)) }
    ensures err { OnErr result (GrowsPart (K.written out.old) (config_spelling setup.now) (K.written out.new)) }
    ensures keeps { K.keeps out.old out.new }
    ensures cause { HasCause (K.faults out.old) (K.faults out.new) result }
    // what is written is read again, whatever follows it
    ensures back { (tail : List ℕ) → config_of (config_spelling setup.now ++ tail) ≡ Ok (setup.now, tail) }
{
    let version = version_of(setup);
    match put_front(version, setup, out) {
        Ok(()) => put_later(version, setup, out),
        Err(e) => Err(e),
    }
}

fn outputs_len(version: Version, outputs: usize) -> u64
    requires { outputs ≤ 255 }
    ensures { result ≡ outputs_len version outputs }
{
    match version {
        Version::First => 0,
        Version::Second | Version::Third => 1 + 16 * outputs as u64,
    }
}

fn clipboard_len(version: Version, pairs: usize) -> u64
    requires { pairs ≤ 255 }
    ensures { result ≡ clipboard_len version pairs }
{
    match version {
        Version::First | Version::Second => 0,
        Version::Third => 2 + 2 * pairs as u64,
    }
}

// The bytes of what every version spells.
fn front_len(guests: &[GuestSetup]) -> u64
    requires { length guests.now ≤ 255 }
    ensures len { result ≡ 34 + sum_by (λ g. 5 + length g.name) guests.now }
    ensures small { result ≤ 34 + 260 * length guests.now }
{
    let mut size = 34;
    for guest in guests {
        size += 5 + guest.name.bytes().len() as u64;
    }
    size
}

/// The number of bytes that `put_config` writes for the setup, the four at the record's beginning among
/// them. The setup breaks no rule.
pub fn config_len(setup: &Setup) -> u64
    requires { first_broken setup.now ≡ None }
    ensures len { result ≡ config_len setup.now }
    ensures spelled { result ≡ length (config_spelling setup.now) }
    ensures small { result ≤ 2 ^ 20 }
{
    let version = version_of(setup);
    let outputs = outputs_len(version, setup.outputs.items().len());
    let clipboard = clipboard_len(version, setup.denied.items().len());
    front_len(setup.guests.items()) + (outputs + clipboard)
}
