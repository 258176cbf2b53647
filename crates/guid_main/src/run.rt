// The program's top call.
ghost use Rattle.std.specs.Prelude.{◌≤◌, ◌≡◌, ℕ, length, IfOk, IsOk, None};
ghost use Rattle.io_ports.specs.Content.{Told};
ghost use Rattle.io_ports.specs.Counts.{Rose};
ghost use Rattle.desk_laws.specs.Rules.{first_broken, Fits};
ghost use Rattle.frame_pool.specs.Ports.{AreZeros};
ghost use Rattle.guid_main.specs.Answers.{Says, SaysBehind, after_config, status_of};
ghost use Rattle.guid_main.specs.Making.{Makes};
ghost use Rattle.guid_main.specs.WordForms.{IsReplay, IsMake, HasNoForm};

use crate::making::make;
use crate::status::Status;
use crate::words::{Words, words_of};
use desk_laws::Setup;
use frame_pool::{FramePort, PoolPort};
use gui_num::NoMemory;
use io_ports::{Sink, Source};
use record_format::{ConfigRead, config_len, read_config};
use replay_driver::{Bounds, Outcome, ReplayFeed, desk_run};
use std::alloc::Global;

// How many items a run takes at most.
const MOST_ITEMS: u64 = 1 << 40;

// The status where no setup was read.
fn after_config(e: ConfigRead) -> Status
    ensures is { result ≡ after_config e }
    ensures read { result ≡ Status.ReadFault → e ≡ ConfigRead.Failed }
    ensures write { result ≡ Status.WriteFault → ⊥ }
    ensures words { result ≡ Status.Usage → ⊥ }
{
    match e {
        ConfigRead::Failed => Status::ReadFault,
        ConfigRead::Bad(fault) => Status::BadRecord { fault },
        ConfigRead::Rule(rule) => Status::BadConfig { rule },
        ConfigRead::NoMemory => Status::NoMemory,
    }
}

// The status after a run.
fn status_of(outcome: Outcome) -> Status
    ensures is { result ≡ status_of outcome }
    ensures read { result ≡ Status.ReadFault → outcome ≡ Outcome.ReadFault }
    ensures write { result ≡ Status.WriteFault → outcome ≡ Outcome.WriteFault }
    ensures words { result ≡ Status.Usage → ⊥ }
{
    match outcome {
        Outcome::Done => Status::Done,
        Outcome::BadRecord(fault) => Status::BadRecord { fault },
        Outcome::ReadFault => Status::ReadFault,
        Outcome::WriteFault => Status::WriteFault,
        Outcome::NoMemory => Status::NoMemory,
        Outcome::TooLong => Status::TooLong,
    }
}

// Replays the items behind this setup, which the source has left, over a port of zero words, and hands
// the source back.
fn replay_over<S: Source, P: FramePort, K: Sink>(
    alloc: Global,
    setup: &Setup,
    source: S,
    port: &mut P,
    out: &mut K,
) -> Result<(Status, S), NoMemory>
    requires sound { first_broken setup.now ≡ None }
    requires fits { Fits setup.now }
    requires port_guests { P.guests port.old ≡ length setup.now.guests }
    requires port_pages { P.pages port.old ≡ setup.now.pages }
    requires zeros { AreZeros (P.guests port.old) (P.pages port.old) (P.state port.old) }
    ensures ok { IsOk result }
    ensures says { IfOk result (λ r. Told (S.left source) (λ bytes. SaysBehind setup.now bytes (S.left r.1) r.0 (K.written out.old) (K.written out.new))) }
    ensures keeps { IfOk result (λ r. S.keeps source r.1) }
    ensures read_later { IfOk result (λ r. S.faults source ≤ S.faults r.1) }
    ensures read { IfOk result (λ r. r.0 ≡ Status.ReadFault → Rose (S.faults source) (S.faults r.1)) }
    ensures write_later { K.faults out.old ≤ K.faults out.new }
    ensures write { IfOk result (λ r. r.0 ≡ Status.WriteFault → Rose (K.faults out.old) (K.faults out.new)) }
    ensures words { IfOk result (λ r. r.0 ≡ Status.Usage → ⊥) }
{
    let start = config_len(setup);
    let mut feed = match ReplayFeed::new(alloc, source, setup, start) {
        Ok(feed) => feed,
        Err(e) => return Err(e),
    };
    let bounds = Bounds { items: MOST_ITEMS };
    let outcome = desk_run(alloc, setup, &mut feed, port, out, bounds);
    Ok((status_of(outcome), feed.finish()))
}

// Replays the items behind this setup, over frames of zero words.
fn replay<S: Source, K: Sink>(alloc: Global, setup: &Setup, input: &mut S, out: &mut K) -> Status
    requires sound { first_broken setup.now ≡ None }
    requires fits { Fits setup.now }
    ensures says { Told (S.left input.old) (λ bytes. SaysBehind setup.now bytes (S.left input.new) result (K.written out.old) (K.written out.new)) }
    ensures read_later { S.faults input.old ≤ S.faults input.new }
    ensures read { result ≡ Status.ReadFault → Rose (S.faults input.old) (S.faults input.new) }
    ensures write_later { K.faults out.old ≤ K.faults out.new }
    ensures write { result ≡ Status.WriteFault → Rose (K.faults out.old) (K.faults out.new) }
    ensures words { result ≡ Status.Usage → ⊥ }
{
    let guests = setup.guests.items();
    let mut port = match PoolPort::new(alloc, guests.len() as u32, setup.pages) {
        Ok(port) => port,
        Err(_) => return Status::NoMemory,
    };
    match replay_over(alloc, setup, input, &mut port, out) {
        Ok((status, _)) => status,
        Err(_) => Status::NoMemory,
    }
}

// Replays the record that the input is.
fn replay_input<S: Source, K: Sink>(alloc: Global, input: &mut S, out: &mut K) -> Status
    ensures says { Told (S.left input.old) (λ bytes. Says bytes (S.left input.new) result (K.written out.old) (K.written out.new)) }
    ensures read_later { S.faults input.old ≤ S.faults input.new }
    ensures read { result ≡ Status.ReadFault → Rose (S.faults input.old) (S.faults input.new) }
    ensures write_later { K.faults out.old ≤ K.faults out.new }
    ensures write { result ≡ Status.WriteFault → Rose (K.faults out.old) (K.faults out.new) }
    ensures words { result ≡ Status.Usage → ⊥ }
{
    let setup = match read_config(alloc, input) {
        Ok(setup) => setup,
        Err(e) => return after_config(e),
    };
    replay(alloc, &setup, input, out)
}

/// Does all that the program does, for the words after its name: with the one word `replay` it reads
/// a record from the input and writes what the desktop posts to the output; with `make` and a number it
/// writes the record of so many rounds, and leaves the input alone. Words of another form do nothing.
///
/// What is written for a record is pixel by pixel the composition of its windows, and to each guest exactly
/// what it would get alone: from its own messages, the words that are read of its frames, and the events and
/// pastes that are granted to it.
///
/// What each status says of the record and of the output stands with `Status`; the record and output
/// formats are this project's own, and the messages in them are those of the Qubes GUI protocol.
#[tactic(auto, using(crate::proofs::WordLemmas::one_form, crate::proofs::WordLemmas::made_again))]
pub fn run<S: Source, K: Sink>(
    alloc: Global,
    words: &Vec<String>,
    input: &mut S,
    out: &mut K,
) -> Status
    ensures says { IsReplay words.now.items → Told (S.left input.old) (λ bytes. Says bytes (S.left input.new) result (K.written out.old) (K.written out.new)) }
    ensures makes { (rounds : ℕ) → IsMake words.now.items rounds → Makes rounds result (K.written out.old) (K.written out.new) }
    ensures unread { (rounds : ℕ) → IsMake words.now.items rounds → input.new ≡ input.old }
    ensures usage { result ≡ Status.Usage → HasNoForm words.now.items }
    ensures words { HasNoForm words.now.items → result ≡ Status.Usage }
    ensures nothing { HasNoForm words.now.items → (input.new ≡ input.old) × (out.new ≡ out.old) }
    ensures read_later { S.faults input.old ≤ S.faults input.new }
    ensures read { result ≡ Status.ReadFault → Rose (S.faults input.old) (S.faults input.new) }
    ensures write_later { K.faults out.old ≤ K.faults out.new }
    ensures write { result ≡ Status.WriteFault → Rose (K.faults out.old) (K.faults out.new) }
{
    match words_of(words) {
        Some(Words::Replay) => replay_input(alloc, input, out),
        Some(Words::Make { rounds }) => make(alloc, rounds, out),
        None => Status::Usage,
    }
}
