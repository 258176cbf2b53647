// Reads how a record begins: four bytes, the desktop's sizes and guests, and what its version has behind them.
ghost use Rattle.std.specs.Prelude.{◌≡◌, ◌+◌, ◌≤◌, ◌^◌, length, Some, None, IfOk, IfNone, IsErrOf};
ghost use Rattle.io_ports.specs.Content.{Told};
ghost use Rattle.io_ports.specs.Counts.{Rose};
ghost use Rattle.desk_laws.specs.Rules.{Fits, first_broken};
ghost use Rattle.record_format.specs.Config.{number_at, signed_at, behind_magic, head_of, plane, setup_at, setup_wrong, part_of, guest_of, guests_of, behind_head, config_of};
ghost use Rattle.record_format.specs.Parts.{Agrees, IsWrong, no_config, with_room};
ghost use Rattle.record_format.specs.Readings.{Reads};

use crate::clipboard::{Clipboard, read_clipboard};
use crate::outputs::read_outputs;
use crate::part::{PartRead, fill_whole};
use crate::version::{Version, is_same, version_at, version_of};
use desk_laws::{GuestSetup, Guests, MAX_GUESTS, Name, Outputs, Setup};
use gui_num::{Colour, Rect};
use io_ports::{RecordFault, RecordKind, Source, fill};
use std::alloc::Global;

/// Why no setup was read.
#[derive(Clone, Copy, Debug, PartialEq, Eq)]
pub enum ConfigRead {
    /// A read failed.
    Failed,
    /// The record has this fault.
    Bad(RecordFault),
    /// The setup breaks the rule of this number.
    Rule(u8),
    /// There is no memory for the guests.
    NoMemory,
}

const fn fault(offset: u64, kind: RecordKind) -> ConfigRead
    ensures { result ≡ ConfigRead.Bad (record { offset = offset; kind = kind }) }
{
    ConfigRead::Bad(RecordFault { offset, kind })
}

// The kind byte of a Config has the offset 4.
fn no_config(part: PartRead) -> ConfigRead
    ensures { result ≡ no_config part }
{
    match part {
        PartRead::Failed => ConfigRead::Failed,
        PartRead::Short => fault(4, RecordKind::Short),
    }
}

// The number of the four bytes from this place on, the lowest first.
pub(crate) fn number_at(bytes: &[u8], place: usize) -> u32
    requires { place + 4 ≤ length bytes.now }
    ensures { result ≡ number_at place bytes.now }
{
    u32::from_le_bytes([
        bytes[place],
        bytes[place + 1],
        bytes[place + 2],
        bytes[place + 3],
    ])
}

pub(crate) fn signed_at(bytes: &[u8], place: usize) -> i32
    requires { place + 4 ≤ length bytes.now }
    ensures { result ≡ signed_at place bytes.now }
{
    number_at(bytes, place).cast_signed()
}

// The version again, where nothing is wrong with what stands behind the first four bytes.
fn behind_magic(head: &[u8], version: Version) -> Result<Version, ConfigRead>
    ensures agrees { Agrees result (behind_magic head.now (Some version)) }
    ensures long { IfOk result (λ v. 34 ≤ length head.now) }
{
    if head.len() < 5 {
        return Err(fault(4, RecordKind::Short));
    }
    if head[4] != 1 {
        return Err(fault(4, RecordKind::Kind));
    }
    if head.len() < 34 {
        return Err(fault(4, RecordKind::Short));
    }
    if head[33] < 1 || head[33] as u32 > MAX_GUESTS {
        return Err(ConfigRead::Rule(1));
    }
    Ok(version)
}

fn head_of(head: &[u8]) -> Result<Version, ConfigRead>
    ensures agrees { Agrees result (head_of head.now) }
    ensures long { IfOk result (λ v. 34 ≤ length head.now) }
{
    if head.len() < 4 {
        return Err(fault(0, RecordKind::Short));
    }
    match version_at(&head[..4]) {
        Some(version) => behind_magic(head, version),
        None => Err(fault(0, RecordKind::Magic)),
    }
}

fn plane_of(head: &[u8]) -> Rect
    requires { 34 ≤ length head.now }
    ensures { result ≡ plane (number_at 5 head.now) (number_at 9 head.now) }
{
    Rect {
        x: 0,
        y: 0,
        w: number_at(head, 5),
        h: number_at(head, 9),
    }
}

fn setup_of(head: &[u8], guests: Guests, outputs: Outputs, clipboard: Clipboard) -> Setup
    requires { 34 ≤ length head.now }
    ensures { result ≡ setup_at head.now guests outputs clipboard }
{
    let Clipboard { clip, denied } = clipboard;
    Setup {
        width: number_at(head, 5),
        height: number_at(head, 9),
        border: number_at(head, 13),
        pages: number_at(head, 17),
        tiles: number_at(head, 21),
        percent: number_at(head, 25),
        background: Colour(number_at(head, 29)),
        guests,
        outputs,
        clip,
        denied,
    }
}

// What is wrong with a setup in a record of this version.
fn setup_wrong(version: Version, setup: &Setup) -> Option<ConfigRead>
    ensures wrong { IsWrong result (setup_wrong version setup.now (first_broken setup.now)) }
    ensures sound { IfNone result (first_broken setup.now ≡ None) }
    ensures fits { IfNone result (Fits setup.now) }
{
    if let Some(k) = setup.first_broken() {
        return Some(ConfigRead::Rule(k));
    }
    if !is_same(version, version_of(setup)) {
        return Some(fault(4, RecordKind::Range));
    }
    None
}

// Fills the room with the next bytes of a configuration.
pub(crate) fn fill_part<S: Source>(source: &mut S, room: &mut [u8]) -> Result<(), ConfigRead>
    ensures reads { Told (S.left source.old) (λ bytes. Reads (part_of (length room.old)) (with_room result room.new) bytes (S.left source.new)) }
    ensures keeps { S.keeps source.old source.new }
    ensures later { S.faults source.old ≤ S.faults source.new }
    ensures failed { IsErrOf result ConfigRead.Failed → Rose (S.faults source.old) (S.faults source.new) }
{
    match fill_whole(source, room) {
        Ok(()) => Ok(()),
        Err(part) => Err(no_config(part)),
    }
}

// Reads a name as long as the room.
fn fill_name<S: Source>(source: &mut S, room: &mut [u8]) -> Result<Name, ConfigRead>
    requires { length room.old ≤ 255 }
    ensures reads { Told (S.left source.old) (λ bytes. Reads (part_of (length room.old)) result bytes (S.left source.new)) }
    ensures keeps { S.keeps source.old source.new }
    ensures later { S.faults source.old ≤ S.faults source.new }
    ensures failed { IsErrOf result ConfigRead.Failed → Rose (S.faults source.old) (S.faults source.new) }
{
    match fill_whole(source, room) {
        Ok(()) => Ok(Name::new(room)),
        Err(part) => Err(no_config(part)),
    }
}

fn read_name<S: Source>(source: &mut S, size: u8) -> Result<Name, ConfigRead>
    ensures reads { Told (S.left source.old) (λ bytes. Reads (part_of size) result bytes (S.left source.new)) }
    ensures keeps { S.keeps source.old source.new }
    ensures later { S.faults source.old ≤ S.faults source.new }
    ensures failed { IsErrOf result ConfigRead.Failed → Rose (S.faults source.old) (S.faults source.new) }
{
    let mut room = [0u8; 255];
    fill_name(source, &mut room[..size as usize])
}

fn read_guest<S: Source>(source: &mut S) -> Result<GuestSetup, ConfigRead>
    ensures reads { Told (S.left source.old) (λ bytes. Reads guest_of result bytes (S.left source.new)) }
    ensures keeps { S.keeps source.old source.new }
    ensures later { S.faults source.old ≤ S.faults source.new }
    ensures failed { IsErrOf result ConfigRead.Failed → Rose (S.faults source.old) (S.faults source.new) }
{
    let mut fixed = [0u8; 5];
    match fill_whole(source, &mut fixed) {
        Ok(()) => {}
        Err(part) => return Err(no_config(part)),
    }
    let colour = Colour(number_at(&fixed, 0));
    match read_name(source, fixed[4]) {
        Ok(name) => Ok(GuestSetup { colour, name }),
        Err(e) => Err(e),
    }
}

fn read_guests<S: Source>(alloc: Global, source: &mut S, count: u8) -> Result<Guests, ConfigRead>
    ensures reads { Told (S.left source.old) (λ bytes. Reads (guests_of count) result bytes (S.left source.new)) }
    ensures keeps { S.keeps source.old source.new }
    ensures later { S.faults source.old ≤ S.faults source.new }
    ensures failed { IsErrOf result ConfigRead.Failed → Rose (S.faults source.old) (S.faults source.new) }
{
    let mut guests = Guests::new(alloc);
    for _ in 0..count {
        let guest = match read_guest(source) {
            Ok(guest) => guest,
            Err(e) => return Err(e),
        };
        match guests.push(guest) {
            Ok(()) => {}
            Err(_) => return Err(ConfigRead::NoMemory),
        }
    }
    Ok(guests)
}

// Reads what stands behind these first 34 bytes.
fn read_behind<S: Source>(
    alloc: Global,
    source: &mut S,
    version: Version,
    head: &[u8],
) -> Result<Setup, ConfigRead>
    requires { 34 ≤ length head.now }
    ensures reads { Told (S.left source.old) (λ bytes. Reads (behind_head head.now version) result bytes (S.left source.new)) }
    ensures sound { IfOk result (λ setup. first_broken setup ≡ None) }
    ensures fits { IfOk result (λ setup. Fits setup) }
    ensures keeps { S.keeps source.old source.new }
    ensures later { S.faults source.old ≤ S.faults source.new }
    ensures failed { IsErrOf result ConfigRead.Failed → Rose (S.faults source.old) (S.faults source.new) }
{
    let guests = match read_guests(alloc, source, head[33]) {
        Ok(guests) => guests,
        Err(e) => return Err(e),
    };
    let outputs = match read_outputs(alloc, source, version, plane_of(head)) {
        Ok(outputs) => outputs,
        Err(e) => return Err(e),
    };
    let clipboard = match read_clipboard(alloc, source, version) {
        Ok(clipboard) => clipboard,
        Err(e) => return Err(e),
    };
    let setup = setup_of(head, guests, outputs, clipboard);
    match setup_wrong(version, &setup) {
        Some(wrong) => Err(wrong),
        None => Ok(setup),
    }
}

/// Reads the four bytes of a record and its setup, and no byte behind them. The first version has the one
/// output of the whole plane, the first two have the clipboard's revision 1 and no denied pair. `Bad` has
/// the offset 0 where the four bytes are others or aren't there, else 4, the offset of the Config's kind
/// byte; it is Range exactly where all is right but that a lower version has this setup. `Rule` has the
/// least number of a rule that the setup breaks; the number of guests and that of outputs are looked at as
/// soon as they are read, all else when the whole setup was read. The format is this project's own.
pub fn read_config<S: Source>(alloc: Global, source: &mut S) -> Result<Setup, ConfigRead>
    ensures reads { Told (S.left source.old) (λ bytes. Reads config_of result bytes (S.left source.new)) }
    ensures sound { IfOk result (λ setup. first_broken setup ≡ None) }
    ensures fits { IfOk result (λ setup. Fits setup) }
    ensures keeps { S.keeps source.old source.new }
    ensures later { S.faults source.old ≤ S.faults source.new }
    ensures failed { IsErrOf result ConfigRead.Failed → Rose (S.faults source.old) (S.faults source.new) }
{
    let mut room = [0u8; 34];
    let n = match fill(source, &mut room) {
        Ok(n) => n,
        Err(_) => return Err(ConfigRead::Failed),
    };
    let head = &room[..n];
    match head_of(head) {
        Ok(version) => read_behind(alloc, source, version, head),
        Err(wrong) => Err(wrong),
    }
}
