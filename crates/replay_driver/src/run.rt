// Runs the desk over a feed.
ghost use Rattle.std.specs.Prelude.{◌≡◌, ◌≤◌, ◌*◌, length, map, vec_len, IfOk, None};
ghost use Rattle.io_ports.specs.Counts.{Rose};
ghost use Rattle.desk_laws.specs.Rules.{first_broken, Fits};
ghost use Rattle.desk_laws.specs.State.{opening};
ghost use Rattle.desk_laws.specs.declared.limits.TheConstants.{MAX_PIECE};
ghost use Rattle.replay_driver.specs.FeedOutcomes.{FeedCall, RanOver, after_feed};
ghost use Rattle.replay_driver.specs.PictureRecords.{head_of};
ghost use Rattle.frame_pool.specs.Ports.{AreZeros};
ghost use Rattle.desk_core.specs.DeskView.{picture_of};
ghost use Rattle.desk_core.specs.DeskStands.{Stands};
ghost use Rattle.record_format.specs.RecordGrammar.{is_end};

use crate::item_writer::write_item;
use crate::outcome::{Bounds, Outcome};
use crate::picture_writer::{Head, picture_heads};
use desk_core::Desk;
use desk_laws::{Item, MAX_PIECE, Setup};
use frame_pool::FramePort;
use gui_num::NoMemory;
use io_ports::{Feed, FeedFault, Sink};
use std::alloc::Global;

// What a run takes of memory beside the desk: how the Picture records of the outputs begin, the bytes
// of one row of the plane, and the bytes of one item.
#[derive(Drop)]
struct Buffers {
    heads: Vec<Head>,
    line: Vec<u8>,
    room: Vec<u8>,
}

impl Buffers {
    fn new(alloc: Global, setup: &Setup) -> Result<Buffers, NoMemory>
        requires { Fits setup.now }
        ensures heads { IfOk result (λ b. b.heads.items ≡ map head_of setup.now.outputs) }
        ensures line { IfOk result (λ b. vec_len b.line ≡ 3 * setup.now.width) }
        ensures room { IfOk result (λ b. vec_len b.room ≡ MAX_PIECE) }
    {
        let heads = picture_heads(alloc, setup.outputs.items(), setup.width, setup.height)?;
        let line = vec![in alloc; 0u8; 3 * setup.width as usize]?;
        let room = vec![in alloc; 0u8; MAX_PIECE as usize]?;
        Ok(Buffers { heads, line, room })
    }
}

fn is_end(item: Item) -> bool
    ensures { result ≡ is_end item }
{
    match item {
        Item::End => true,
        _ => false,
    }
}

// The outcome where the feed gave no item.
fn after_feed(fault: FeedFault) -> Outcome
    ensures is { result ≡ after_feed fault }
    ensures read { result ≡ Outcome.ReadFault → fault ≡ FeedFault.Failed }
    ensures write { result ≡ Outcome.WriteFault → ⊥ }
{
    match fault {
        FeedFault::Failed => Outcome::ReadFault,
        FeedFault::Bad(fault) => Outcome::BadRecord(fault),
    }
}

// Takes items up to End, a fault, or the bound, over a port whose frames are the desk's.
fn run_items<F: Feed, P: FramePort, K: Sink>(
    setup: &Setup,
    desk: &mut Desk,
    heads: &[Head],
    line: &mut [u8],
    room: &mut [u8],
    feed: &mut F,
    port: &mut P,
    out: &mut K,
    bounds: Bounds,
) -> Outcome
    requires sound { first_broken setup.now ≡ None }
    requires stands { Stands setup.now desk.old (P.state port.old) (opening setup.now) }
    requires fresh { (picture_of desk.old).painted ≡ 0 }
    requires fits { Fits setup.now }
    requires heads { heads.now ≡ map head_of setup.now.outputs }
    requires line { length line.old ≡ 3 * setup.now.width }
    requires room { length room.old ≡ MAX_PIECE }
    requires guests { F.guests feed.old ≡ length setup.now.guests }
    requires pages { F.pages feed.old ≡ setup.now.pages }
    requires port_guests { P.guests port.old ≡ length setup.now.guests }
    requires port_pages { P.pages port.old ≡ setup.now.pages }
    requires some { 1 ≤ bounds.items }
    ensures ran { RanOver (FeedCall F.gives F.left F.given) setup.now bounds.items feed.old feed.new result (P.state port.new) (K.written out.old) (K.written out.new) }
    ensures port_guests { P.guests port.new ≡ P.guests port.old }
    ensures port_pages { P.pages port.new ≡ P.pages port.old }
    ensures keeps { K.keeps out.old out.new }
    ensures read_later { F.faults feed.old ≤ F.faults feed.new }
    ensures read { result ≡ Outcome.ReadFault → Rose (F.faults feed.old) (F.faults feed.new) }
    ensures write_later { K.faults out.old ≤ K.faults out.new }
    ensures write { result ≡ Outcome.WriteFault → Rose (K.faults out.old) (K.faults out.new) }
{
    for _n in 0..bounds.items {
        let next = match feed.next(room) {
            Ok(next) => next,
            Err(fault) => return after_feed(fault),
        };
        let piece = &room[..next.len];
        match write_item(desk, &next.item, piece, port, heads, line, out) {
            Ok(()) => {}
            Err(_) => return Outcome::WriteFault,
        }
        if is_end(next.item) {
            return Outcome::Done;
        }
    }
    Outcome::TooLong
}

/// Runs a desk of this setup over a feed: takes items until it gives End, at most as many as the bounds
/// say, and writes what they give as records of an output. All items before the last answer of the feed
/// were stepped, and what they give was written whole, but where a write failed. What they give shows and
/// tells each guest what it would get alone, from its own messages, the words that are read of its frames,
/// and what is granted to it. `NoMemory` is answered
/// before any item is taken, and nothing was written then. `ReadFault` and `WriteFault` are answered only
/// where the feed's or the sink's count of faults rose. The setup keeps its rules, the feed is of its
/// numbers of guests and pages, so is the port, whose frames are all zero and whose stores none waits,
/// and at least one item may be taken.
pub fn desk_run<F: Feed, P: FramePort, K: Sink>(
    alloc: Global,
    setup: &Setup,
    feed: &mut F,
    port: &mut P,
    out: &mut K,
    bounds: Bounds,
) -> Outcome
    requires sound { first_broken setup.now ≡ None }
    requires fits { Fits setup.now }
    requires guests { F.guests feed.old ≡ length setup.now.guests }
    requires pages { F.pages feed.old ≡ setup.now.pages }
    requires port_guests { P.guests port.old ≡ length setup.now.guests }
    requires port_pages { P.pages port.old ≡ setup.now.pages }
    requires zeros { AreZeros (P.guests port.old) (P.pages port.old) (P.state port.old) }
    requires some { 1 ≤ bounds.items }
    ensures ran { RanOver (FeedCall F.gives F.left F.given) setup.now bounds.items feed.old feed.new result (P.state port.new) (K.written out.old) (K.written out.new) }
    ensures port_guests { P.guests port.new ≡ P.guests port.old }
    ensures port_pages { P.pages port.new ≡ P.pages port.old }
    ensures keeps { K.keeps out.old out.new }
    ensures read_later { F.faults feed.old ≤ F.faults feed.new }
    ensures read { result ≡ Outcome.ReadFault → Rose (F.faults feed.old) (F.faults feed.new) }
    ensures write_later { K.faults out.old ≤ K.faults out.new }
    ensures write { result ≡ Outcome.WriteFault → Rose (K.faults out.old) (K.faults out.new) }
{
    let buffers = match Buffers::new(alloc, setup) {
        Ok(buffers) => buffers,
        Err(_) => return Outcome::NoMemory,
    };
    let mut desk = match Desk::open(alloc, setup) {
        Ok(desk) => desk,
        Err(_) => return Outcome::NoMemory,
    };
    let Buffers {
        heads,
        mut line,
        mut room,
    } = buffers;
    run_items(
        setup, &mut desk, &heads, &mut line, &mut room, feed, port, out, bounds,
    )
}
