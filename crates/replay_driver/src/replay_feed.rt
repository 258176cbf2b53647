// A feed that reads the items of a record.
ghost use Rattle.std.specs.Prelude.{◌≡◌, ◌≤◌, ◌+◌, ◌∷◌, ℕ, List, length, IfOk, IsOk, IsErrOf};
ghost use Rattle.io_ports.specs.Content.{Told};
ghost use Rattle.io_ports.specs.Counts.{Rose};
ghost use Rattle.io_ports.specs.Feeds.{answer_of, given_after};
ghost use Rattle.desk_laws.specs.declared.limits.TheConstants.{MAX_PIECE};
ghost use Rattle.desk_laws.specs.Rules.{Fits};
ghost use Rattle.desk_laws.specs.Frames.{counted};
ghost use Rattle.desk_laws.specs.Items.{FitsItem};
ghost use Rattle.replay_driver.specs.ItemParts.{no_item, IsFront, FindsFront, next_of, Finds, size_in};
ghost use Rattle.replay_driver.specs.FeedReadings.{state_after, coming_in};
ghost use Rattle.replay_driver.specs.FeedRuns.{FeedGives};

use desk_laws::{Item, Setup};
use gui_num::NoMemory;
use io_ports::{Feed, FeedFault, Next, RecordFault, RecordKind, Source};
use record_format::{PartRead, fill_whole, fixed_len, item_within};
use std::alloc::Global;
use std::marker::Model;

/// Where a feed that reads a record stands.
#[derive(Clone, Copy, Debug, PartialEq, Eq)]
pub enum FeedState {
    /// An item is due.
    Going,
    /// End was given.
    Ended,
    /// This fault was met.
    Bad(RecordFault),
}

/// A feed that reads the items of a record, up to End or a fault, and takes no byte behind them.
#[derive(Drop)]
pub struct ReplayFeed<S> {
    source: S,
    at: u64,
    state: FeedState,
    guests: u32,
    pages: u32,
    given: u64,
}

impl<S> Model for ReplayFeed<S> {
    ghost use Rattle.replay_driver.specs.FeedView.{FeedView};

    ghost Value = { FeedView S };

    ghost view = { λ f. record { source = f.source; at = f.at; state = f.state; guests = f.guests; pages = f.pages; given = f.given } };
}

// A fault of this kind at this offset.
const fn bad(offset: u64, kind: RecordKind) -> FeedFault
    ensures { result ≡ FeedFault.Bad (record { offset = offset; kind = kind }) }
{
    FeedFault::Bad(RecordFault { offset, kind })
}

// What a part of the item at this offset that wasn't read makes of it.
fn no_item(at: u64, part: PartRead) -> FeedFault
    ensures { result ≡ no_item at part }
{
    match part {
        PartRead::Failed => FeedFault::Failed,
        PartRead::Short => bad(at, RecordKind::Short),
    }
}

// Where a feed stands behind an item.
fn state_behind(item: &Item) -> FeedState
    ensures { (piece : List ℕ) → result ≡ state_after FeedState.Going (Ok (record { item = item.now; piece = piece })) }
{
    match item {
        Item::End => FeedState::Ended,
        _ => FeedState::Going,
    }
}

// Where a feed stands at a fault.
fn state_at(fault: FeedFault) -> FeedState
    ensures { result ≡ state_after FeedState.Going (Err fault) }
{
    match fault {
        FeedFault::Failed => FeedState::Going,
        FeedFault::Bad(f) => FeedState::Bad(f),
    }
}

// A kind byte, and fields behind it.
fn front_of(kind: u8, fields: &[u8; 15]) -> [u8; 16]
    ensures { result ≡ kind ∷ fields.now }
{
    let mut front = [kind; 16];
    front[1..].copy_from_slice(fields);
    front
}

// Reads the kind byte of the item at this offset and its fields, and answers how many bytes of fields these
// are; zeros follow them.
fn read_front<S: Source>(source: &mut S, at: u64) -> Result<([u8; 16], usize), FeedFault>
    ensures finds { Told (S.left source.old) (λ bytes. FindsFront at result bytes (S.left source.new)) }
    ensures front { IfOk result (λ found. IsFront found.1 found.0) }
    ensures keeps { S.keeps source.old source.new }
    ensures later { S.faults source.old ≤ S.faults source.new }
    ensures failed { IsErrOf result FeedFault.Failed → Rose (S.faults source.old) (S.faults source.new) }
{
    let mut kind = [0u8; 1];
    match fill_whole(source, &mut kind) {
        Ok(()) => {}
        Err(part) => return Err(no_item(at, part)),
    }
    let n = match fixed_len(kind[0]) {
        Some(n) => n,
        None => return Err(bad(at, RecordKind::Kind)),
    };
    let mut fields = [0u8; 15];
    match fill_whole(source, &mut fields[..n]) {
        Ok(()) => Ok((front_of(kind[0], &fields), n)),
        Err(part) => Err(no_item(at, part)),
    }
}

// Reads the item at this offset, and answers how many bytes it takes with its piece.
fn read_item<S: Source>(
    source: &mut S,
    guests: u32,
    pages: u32,
    at: u64,
    room: &mut [u8],
) -> Result<(Next, usize), FeedFault>
    requires { MAX_PIECE ≤ length room.old }
    ensures finds { Told (S.left source.old) (λ bytes. Finds guests pages at (answer_of (next_of result) room.new) bytes (S.left source.new)) }
    ensures size { IfOk result (λ found. found.1 ≡ size_in found.0 room.new) }
    ensures range { IfOk result (λ found. FitsItem guests pages found.0.item found.0.len) }
    ensures keeps { S.keeps source.old source.new }
    ensures later { S.faults source.old ≤ S.faults source.new }
    ensures failed { IsErrOf result FeedFault.Failed → Rose (S.faults source.old) (S.faults source.new) }
{
    let (front, n) = match read_front(source, at) {
        Ok(found) => found,
        Err(fault) => return Err(fault),
    };
    let (item, len) = match item_within(&front[..1 + n], guests as usize, pages) {
        Some(found) => found,
        None => return Err(bad(at, RecordKind::Range)),
    };
    match fill_whole(source, &mut room[..len]) {
        Ok(()) => Ok((Next { item, len }, 1 + n + len)),
        Err(part) => Err(no_item(at, part)),
    }
}

impl<S: Source> ReplayFeed<S> {
    /// A feed over a record of this setup. `at` is the offset in bytes of the source's next byte, the
    /// first behind the setup. It takes no memory, and answers `Ok`.
    pub fn new(_alloc: Global, source: S, setup: &Setup, at: u64) -> Result<ReplayFeed<S>, NoMemory>
        requires { Fits setup.now }
        ensures ok { IsOk result }
        ensures source { IfOk result (λ f. f.source ≡ source) }
        ensures at { IfOk result (λ f. f.at ≡ at) }
        ensures state { IfOk result (λ f. f.state ≡ FeedState.Going) }
        ensures guests { IfOk result (λ f. f.guests ≡ length setup.now.guests) }
        ensures pages { IfOk result (λ f. f.pages ≡ setup.now.pages) }
        ensures given { IfOk result (λ f. f.given ≡ 0) }
    {
        Ok(ReplayFeed {
            source,
            at,
            state: FeedState::Going,
            guests: setup.guests.items().len() as u32,
            pages: setup.pages,
            given: 0,
        })
    }

    /// Hands the source back.
    pub fn finish(self) -> S
        ensures { result ≡ self.source }
    {
        self.source
    }

    // Reads the item that is due.
    fn go_on(&mut self, room: &mut [u8]) -> Result<Next, FeedFault>
        requires going { self.old.state ≡ FeedState.Going }
        requires room { MAX_PIECE ≤ length room.old }
        ensures finds { Told (S.left self.old.source) (λ bytes. Finds self.old.guests self.old.pages self.old.at (answer_of result room.new) bytes (S.left self.new.source)) }
        ensures range { IfOk result (λ n. FitsItem self.old.guests self.old.pages n.item n.len) }
        ensures at { IfOk result (λ n. self.new.at ≡ counted (self.old.at + size_in n room.new)) }
        ensures state { self.new.state ≡ state_after FeedState.Going (answer_of result room.new) }
        ensures given { self.new.given ≡ given_after result self.old.given }
        ensures guests { self.new.guests ≡ self.old.guests }
        ensures pages { self.new.pages ≡ self.old.pages }
        ensures keeps { S.keeps self.old.source self.new.source }
        ensures later { S.faults self.old.source ≤ S.faults self.new.source }
        ensures failed { IsErrOf result FeedFault.Failed → Rose (S.faults self.old.source) (S.faults self.new.source) }
    {
        match read_item(&mut self.source, self.guests, self.pages, self.at, room) {
            Ok((next, size)) => {
                self.at = self.at.saturating_add(size as u64);
                self.given = self.given.saturating_add(1);
                self.state = state_behind(&next.item);
                Ok(next)
            }
            Err(fault) => {
                self.state = state_at(fault);
                Err(fault)
            }
        }
    }
}

impl<S: Source> Feed for ReplayFeed<S> {
    ghost guests = { λ f. f.guests };

    ghost pages = { λ f. f.pages };

    ghost left = { λ f. coming_in f.state f.guests f.pages f.at (S.left f.source) };

    ghost given = { λ f. f.given };

    ghost faults = { λ f. S.faults f.source };

    ghost gives = { λ a answer b. FeedGives S.left S.faults S.keeps a answer b };

    fn next(&mut self, room: &mut [u8]) -> Result<Next, FeedFault> {
        match self.state {
            FeedState::Ended => {
                self.given = self.given.saturating_add(1);
                Ok(Next {
                    item: Item::End,
                    len: 0,
                })
            }
            FeedState::Bad(fault) => Err(FeedFault::Bad(fault)),
            FeedState::Going => self.go_on(room),
        }
    }
}
