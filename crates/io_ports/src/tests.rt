// Each port over a few bytes, with ample memory.
ghost use Rattle.std.specs.Prelude.{◌≡◌, ℕ, Some, IfOk, [], None, ⊤};
ghost use Rattle.io_ports.specs.Feeds.{Coming};
ghost use Rattle.io_ports.specs.Memory.{told_of};

use crate::kept::KeptBytes;
use crate::*;
use desk_laws::{Cause, GuestSetup, Guests, Item, MAX_PIECE, Name, Outputs, Pairs, Setup};
use gui_num::{Colour, NoMemory};
use std::alloc::Global;
use std::io::{self, Write};
use std::test::Fail;
use std::{env, fs, process};

// A sink that takes at most 3 bytes a put.
#[derive(Drop)]
struct NarrowSink {
    kept: KeptBytes,
}

impl Sink for NarrowSink {
    ghost written = { λ k. told_of k.kept };

    ghost faults = { λ _. 0 };

    ghost keeps_same = { λ _. tt };

    ghost keeps_on = { λ _ _ _ _ _. tt };

    fn put(&mut self, bytes: &[u8]) -> Result<usize, Failed> {
        let n = bytes.len().min(3);
        self.kept.keep(&bytes[..n]);
        Ok(n)
    }
}

// A writer that takes nothing, and can't be flushed.
#[derive(Drop)]
struct FullDisk {}

impl Write for FullDisk {
    fn write(&mut self, _bytes: &[u8]) -> io::Result<usize> {
        Ok(0)
    }

    fn flush(&mut self) -> io::Result<()> {
        Err(io::Error::from(io::ErrorKind::StorageFull))
    }
}

// A feed whose items ended.
#[derive(Drop)]
struct EndedFeed {
    given: u64,
}

impl Feed for EndedFeed {
    ghost guests = { λ _. 0 };

    ghost pages = { λ _. 0 };

    ghost left = { λ _. Some (record { items = []; fate = None }) };

    ghost given = { λ f. f.given };

    ghost faults = { λ _. 0 };

    ghost gives = { λ _ _ _. ⊤ };

    fn next(&mut self, _room: &mut [u8]) -> Result<Next, FeedFault> {
        self.given = self.given.saturating_add(1);
        Ok(Next {
            item: Item::End,
            len: 0,
        })
    }
}

fn next_of<F: Feed>(feed: &mut F, room: &mut [u8]) -> Option<Result<Next, FeedFault>> {
    if room.len() < MAX_PIECE as usize {
        return None;
    }
    Some(feed.next(room))
}

fn start_of<W: Wire>(wire: &mut W, setup: &Setup) -> Result<(), StartFault> {
    wire.start("d", setup)
}

// Reads and puts through the bounds alone.
fn copy_once<S: Source + Drop, K: Sink + Drop>(
    mut source: S,
    mut sink: K,
) -> Result<usize, Failed> {
    let mut room = [0; 4];
    let n = source.read(&mut room)?.min(room.len());
    put_all(&mut sink, &room[..n])?;
    Ok(n)
}

#[test]
fn source_fails_at_its_second_read(rt: HostRuntime) -> Result<(), Fail> {
    let mut source = MemSource::new(rt.alloc(), b"abcde", &[2])?;
    let mut room = [0; 2];
    assert_eq!(rt; source.read(&mut room), Ok(2));
    assert_eq!(rt; room, *b"ab");
    assert_eq!(rt; source.read(&mut room), Err(Failed));
    assert_eq!(rt; source.read(&mut room), Ok(2));
    assert_eq!(rt; room, *b"cd");
    assert_eq!(rt; source.read(&mut room), Ok(1));
    assert_eq!(rt; room, *b"ed");
    assert_eq!(rt; source.read(&mut room), Ok(0));
    Ok(())
}

#[test]
fn fill_meets_the_end_and_the_fault(rt: HostRuntime) -> Result<(), Fail> {
    let mut room = [0; 4];
    let mut source = SureSource::new(rt.alloc(), b"abcdefg")?;
    assert_eq!(rt; fill(&mut source, &mut room), Ok(4));
    assert_eq!(rt; room, *b"abcd");
    assert_eq!(rt; fill(&mut source, &mut room), Ok(3));
    assert_eq!(rt; room, *b"efgd");
    let mut source = MemSource::new(rt.alloc(), b"abc", &[2])?;
    assert_eq!(rt; fill(&mut source, &mut room), Err(Failed));
    assert_eq!(rt; fill(&mut source, &mut room), Ok(0));
    Ok(())
}

#[test]
fn sink_fails_at_its_first_put(rt: HostRuntime) -> Result<(), Fail> {
    let mut sink = MemSink::new(rt.alloc(), &[1])?;
    assert_eq!(rt; put_all(&mut sink, b"abc"), Err(Failed));
    assert_eq!(rt; sink.bytes(), b"".as_slice());
    assert_eq!(rt; put_all(&mut sink, b"de"), Ok(()));
    assert_eq!(rt; put_all(&mut sink, b"f"), Ok(()));
    assert_eq!(rt; sink.bytes(), b"def".as_slice());
    Ok(())
}

#[test]
fn journal_counts_starts_with_puts(rt: HostRuntime) -> Result<(), Fail> {
    let mut journal = MemJournal::new(rt.alloc(), &[2, 3])?;
    assert_eq!(rt; journal.start("j"), Ok(()));
    assert_eq!(rt; put_all(&mut journal, b"abc"), Err(Failed));
    assert_eq!(rt; journal.start("k"), Err(StartFault::Failed));
    assert_eq!(rt; put_all(&mut journal, b"de"), Ok(()));
    assert_eq!(rt; journal.bytes(), b"de".as_slice());
    Ok(())
}

#[test]
fn puts_all_in_parts(rt: HostRuntime) -> Result<(), Fail> {
    let mut sink = NarrowSink {
        kept: KeptBytes::new(rt.alloc()),
    };
    assert_eq!(rt; put_all(&mut sink, b"abcdefgh"), Ok(()));
    assert_eq!(rt; sink.kept.bytes(), b"abcdefgh".as_slice());
    Ok(())
}

#[test]
fn copies_between_borrowed_ports(rt: HostRuntime) -> Result<(), Fail> {
    let mut source = SureSource::new(rt.alloc(), b"abcdef")?;
    let mut sink = SureSink::new(rt.alloc())?;
    assert_eq!(rt; copy_once(&mut source, &mut sink), Ok(4));
    assert_eq!(rt; copy_once(&mut source, &mut sink), Ok(2));
    assert_eq!(rt; sink.bytes(), b"abcdef".as_slice());
    Ok(())
}

#[test]
fn adapters_count_nothing_taken(rt: HostRuntime) -> Result<(), Fail> {
    let mut source = StdSource::new(b"abc".as_slice());
    let mut room = [0; 2];
    assert_eq!(rt; source.read(&mut room), Ok(2));
    assert_eq!(rt; source.read(&mut room), Ok(1));
    assert_eq!(rt; room, *b"cb");
    assert_eq!(rt; source.read(&mut room), Ok(0));
    let mut sink = StdSink::new(FullDisk {});
    assert_eq!(rt; sink.put(b""), Ok(0));
    assert_eq!(rt; sink.put(b"a"), Err(Failed));
    assert_eq!(rt; sink.flush(), Err(Failed));
    let mut sink = StdSink::new(Vec::new(rt.alloc()));
    assert_eq!(rt; sink.flush(), Ok(()));
    Ok(())
}

#[test]
fn journal_in_a_file(rt: HostRuntime) -> Result<(), Fail> {
    let id = process::id(rt.process());
    let name = format!(in rt.alloc(); "io_ports-journal-{id}")?;
    let path = env::temp_dir(&rt)?.join(rt.alloc(), name.as_str())?;
    let mut journal = FileJournal::new(&rt, rt.alloc())?;
    assert_eq!(rt; journal.put(b""), Ok(0));
    assert_eq!(rt; journal.put(b"a"), Err(Failed));
    assert_eq!(rt; journal.start(path.as_str()), Ok(()));
    assert_eq!(rt; put_all(&mut journal, b"first"), Ok(()));
    assert_eq!(rt; journal.start(path.as_str()), Ok(()));
    assert_eq!(rt; put_all(&mut journal, b"ab"), Ok(()));
    assert_eq!(rt; journal.start("no/such/folder"), Err(StartFault::Failed));
    assert_eq!(rt; put_all(&mut journal, b"cd"), Ok(()));
    let bytes = fs::read(&rt, path.as_path())?;
    fs::remove_file(&rt, path.as_path())?;
    assert_eq!(rt; bytes.as_slice(), b"abcd".as_slice());
    Ok(())
}

#[test]
fn posts_are_kept(rt: HostRuntime) -> Result<(), Fail> {
    let mut posts = PostList::new(rt.alloc());
    let cause = Cause::StreamEnded { a: 0, b: 0 };
    posts.reply(1, &[8, 9]);
    posts.ended(2, cause);
    posts.reply(0, &[]);
    assert_eq!(rt; posts.reply_at(0), Some((1, [8, 9].as_slice())));
    assert_eq!(rt; posts.reply_at(1), None);
    assert_eq!(rt; posts.reply_at(2), Some((0, [].as_slice())));
    assert_eq!(rt; posts.reply_at(3), None);
    assert_eq!(rt; posts.ended_at(0), None);
    assert_eq!(rt; posts.ended_at(1), Some((2, cause)));
    assert_eq!(rt; posts.ended_at(3), None);
    Ok(())
}

#[test]
fn ended_feed_gives_end(rt: HostRuntime) -> Result<(), Fail> {
    let mut room = vec![in rt.alloc(); 0; MAX_PIECE as usize]?;
    let mut feed = EndedFeed { given: 0 };
    let want = Next {
        item: Item::End,
        len: 0,
    };
    assert_eq!(rt; next_of(&mut feed, &mut room), Some(Ok(want)));
    assert_eq!(rt; feed.given, 1);
    Ok(())
}

const FATE: RecordFault = RecordFault {
    offset: 9,
    kind: RecordKind::Kind,
};

// A piece of guest 1 and a picture, for two guests of 8 pages each. The second call fails, and so do the second send to
// guest 1 and the third one to guest 0.
fn failing_wire(alloc: Global) -> Result<MemWire, NoMemory>
    ensures { IfOk result (λ w. w.feed.guests ≡ 2) }
{
    let piece = Next {
        item: Item::Bytes { guest: 1 },
        len: 3,
    };
    let snap = Next {
        item: Item::Snap,
        len: 0,
    };
    let second = SendFail {
        guest: 1,
        nth: 2,
        sent: 2,
    };
    let ignored = SendFail {
        guest: 1,
        nth: 2,
        sent: 0,
    };
    let third = SendFail {
        guest: 0,
        nth: 3,
        sent: 9,
    };
    MemWire::new(
        alloc,
        2,
        8,
        &[piece, snap],
        b"abc",
        Some(FATE),
        &[2],
        &[second, ignored, third],
    )
}

// A piece of guest 0, for one guest of 8 pages.
fn sure_wire(alloc: Global) -> Result<SureWire, NoMemory>
    ensures { IfOk result (λ w. w.feed.guests ≡ 1) }
{
    let piece = Next {
        item: Item::Bytes { guest: 0 },
        len: 2,
    };
    SureWire::new(alloc, 1, 8, &[piece], b"hi", None)
}

fn one_guest(alloc: Global) -> Result<Guests, NoMemory> {
    let mut guests = Guests::new(alloc);
    guests.push(GuestSetup {
        colour: Colour(0xff0000),
        name: Name::new(b"red"),
    })?;
    Ok(guests)
}

// A desktop of one guest with 8 pages.
fn setup_of_one(alloc: Global) -> Result<Setup, NoMemory> {
    Ok(Setup {
        width: 8,
        height: 6,
        border: 1,
        pages: 8,
        tiles: 16,
        percent: 90,
        background: Colour(0),
        guests: one_guest(alloc)?,
        outputs: Outputs::new(alloc),
        clip: 1,
        denied: Pairs::new(alloc),
    })
}

#[test]
fn wire_gives_its_items_and_its_fate(rt: HostRuntime) -> Result<(), Fail> {
    let mut room = vec![in rt.alloc(); 0; MAX_PIECE as usize]?;
    let mut wire = failing_wire(rt.alloc())?;
    let piece = Next {
        item: Item::Bytes { guest: 1 },
        len: 3,
    };
    let snap = Next {
        item: Item::Snap,
        len: 0,
    };
    assert_eq!(rt; next_of(&mut wire, &mut room), Some(Ok(piece)));
    assert_eq!(rt; room.get(..3), Some(b"abc".as_slice()));
    assert_eq!(rt; next_of(&mut wire, &mut room), Some(Err(FeedFault::Failed)));
    assert_eq!(rt; next_of(&mut wire, &mut room), Some(Ok(snap)));
    assert_eq!(rt;
        next_of(&mut wire, &mut room),
        Some(Err(FeedFault::Bad(FATE)))
    );
    assert_eq!(rt;
        next_of(&mut wire, &mut room),
        Some(Err(FeedFault::Bad(FATE)))
    );
    Ok(())
}

#[test]
fn wire_fails_sends_of_one_guest(rt: HostRuntime) -> Result<(), Fail> {
    let mut wire = failing_wire(rt.alloc())?;
    assert_eq!(rt; wire.send(0, b"x"), Ok(()));
    assert_eq!(rt; wire.send(1, b"ab"), Ok(()));
    assert_eq!(rt; wire.send(0, b"yz"), Ok(()));
    assert_eq!(rt; wire.send(1, b"hello"), Err(SendFailed { sent: 2 }));
    assert_eq!(rt; wire.send(0, b"uv"), Err(SendFailed { sent: 1 }));
    assert_eq!(rt; wire.send(1, b"c"), Ok(()));
    assert_eq!(rt; wire.sent(0), b"xyzu".as_slice());
    assert_eq!(rt; wire.sent(1), b"abhec".as_slice());
    Ok(())
}

#[test]
fn start_for_another_number_leaves_no_item(rt: HostRuntime) -> Result<(), Fail> {
    let mut room = vec![in rt.alloc(); 0; MAX_PIECE as usize]?;
    let setup = setup_of_one(rt.alloc())?;
    let mut wire = failing_wire(rt.alloc())?;
    let end = Next {
        item: Item::End,
        len: 0,
    };
    assert_eq!(rt; wire.start("d", &setup), Ok(()));
    assert_eq!(rt; wire.start("e", &setup), Err(StartFault::Failed));
    assert_eq!(rt; next_of(&mut wire, &mut room), Some(Ok(end)));
    Ok(())
}

#[test]
fn start_for_the_same_numbers_leaves_the_items(rt: HostRuntime) -> Result<(), Fail> {
    let mut room = vec![in rt.alloc(); 0; MAX_PIECE as usize]?;
    let setup = setup_of_one(rt.alloc())?;
    let mut wire = sure_wire(rt.alloc())?;
    let piece = Next {
        item: Item::Bytes { guest: 0 },
        len: 2,
    };
    assert_eq!(rt; wire.send(0, b"ok"), Ok(()));
    assert_eq!(rt; wire.sent(0), b"ok".as_slice());
    assert_eq!(rt; start_of(&mut wire, &setup), Ok(()));
    assert_eq!(rt; next_of(&mut wire, &mut room), Some(Ok(piece)));
    assert_eq!(rt; room.get(..2), Some(b"hi".as_slice()));
    Ok(())
}
