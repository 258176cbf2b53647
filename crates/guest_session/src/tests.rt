// One session each, with hand-computed answers, on a desktop of 8 by 6. What each message does is told by
// the definitions, and by the tests of the program.
ghost use Rattle.std.specs.Prelude.{◌≡◌, ◌<◌, ◌≤◌, None, IfOk, length};
ghost use Rattle.desk_laws.specs.Grants.{FitsGrant};

use super::*;
use desk_laws::{Cause, GIn, GuestSetup, Guests, Name, Outputs, Pairs, Setup};
use frame_pool::TapePort;
use gui_num::{Colour, NoMemory, Rect};
use io_ports::PostList;
use std::alloc::Global;

const SEVEN: [u8; 4] = [7, 0, 1, 0];

const SIZE: [u8; 16] = [8, 0, 0, 0, 6, 0, 0, 0, 24, 0, 0, 0, 1, 0, 0, 0];

const CREATE: u32 = 130;

const MAP: u32 = 132;

const SHMIMAGE: u32 = 136;

const TITLE: u32 = 141;

const FLAGS: u32 = 145;

const DUMP: u32 = 147;

fn red() -> GuestSetup {
    GuestSetup {
        colour: Colour(0xff0000),
        name: Name::new(b"red"),
    }
}

fn guests_of(alloc: Global) -> Result<Guests, NoMemory> {
    let mut guests = Guests::new(alloc);
    guests.push(red())?;
    Ok(guests)
}

// The one output of the whole desktop.
fn outputs_of(alloc: Global) -> Result<Outputs, NoMemory> {
    let mut outputs = Outputs::new(alloc);
    outputs.push(Rect {
        x: 0,
        y: 0,
        w: 8,
        h: 6,
    })?;
    Ok(outputs)
}

fn setup_of(alloc: Global, pages: u32) -> Result<Setup, NoMemory>
    ensures { IfOk result (λ setup. setup.clip ≡ 1) }
{
    let guests = guests_of(alloc)?;
    let outputs = outputs_of(alloc)?;
    Ok(Setup {
        width: 8,
        height: 6,
        border: 1,
        pages,
        tiles: 4096,
        percent: 90,
        background: Colour(0),
        guests,
        outputs,
        clip: 1,
        denied: Pairs::new(alloc),
    })
}

// A session, the readings of its guest's frames, and what was posted.
#[derive(Drop)]
struct Run {
    session: Session,
    port: TapePort,
    out: PostList,
    ghost guest: { session.guest < length port.tapes },
    ghost pages: { port.pages ≡ session.sizes.pages },
    ghost clip: { 3 ≤ session.sizes.clip_limit },
}

// The session of a guest with four pages, which sent this version word.
fn ready(alloc: Global, word: &[u8; 4]) -> Result<Run, NoMemory> {
    ready_with(alloc, 4, word)
}

// The same with so many pages.
fn ready_with(alloc: Global, pages: u32, word: &[u8; 4]) -> Result<Run, NoMemory> {
    let setup = setup_of(alloc, pages)?;
    ready_on(alloc, &setup, word)
}

// The session of the guest of this setup, which sent this version word.
fn ready_on(alloc: Global, setup: &Setup, word: &[u8; 4]) -> Result<Run, NoMemory>
    requires { setup.now.clip ≡ 1 }
{
    if setup.first_broken().is_some() {
        return Err(NoMemory);
    }
    let mut run = Run {
        session: Session::open(alloc, 0, setup)?,
        port: TapePort::new(alloc, 1, setup.pages)?,
        out: PostList::new(alloc),
    };
    run.push(word);
    run.turn();
    Ok(run)
}

impl Run {
    // Hands bytes to the session, and answers how many it took.
    fn push(&mut self, bytes: &[u8]) -> usize {
        self.session.push(bytes)
    }

    fn turn(&mut self) -> Turn {
        self.session.turn(&mut self.port, &mut self.out)
    }

    // A message of numbers, and what the turn after it did.
    fn send(&mut self, kind: u32, window: u32, numbers: &[u32]) -> Turn
        requires { length numbers.now ≤ 40 }
    {
        self.push(&kind.to_le_bytes());
        self.push(&window.to_le_bytes());
        self.push(&(4 * numbers.len() as u32).to_le_bytes());
        for number in numbers {
            self.push(&number.to_le_bytes());
        }
        self.turn()
    }

    // Adds a reading of the guest's frames.
    fn add(&mut self, word: u32) -> Result<(), NoMemory> {
        self.port.push(0, word)
    }

    // How many readings of the guest's frames are left.
    fn left(&self) -> usize {
        self.port.left(0)
    }

    fn end(&mut self, cause: Cause) {
        self.session.end(cause);
    }

    // Grants an input, with three bytes for the clipboard.
    fn grant(&mut self, input: GIn)
        requires { FitsGrant input }
    {
        self.session.grant(&input, &[7, 8, 9], &mut self.out);
    }

    // How many bytes of clipboard data stand in front, which are then dropped.
    fn take_clip(&mut self) -> Option<usize>
        requires { self.old.session.ended ≡ None }
    {
        match self.session.turn(&mut self.port, &mut self.out) {
            Turn::ClipWhole => {
                let len = self.session.clip().len();
                self.session.clip_done();
                Some(len)
            }
            _ => None,
        }
    }

    // Whether the reply number `k` of the guest is this.
    fn said(&self, k: usize, bytes: &[u8]) -> bool {
        match self.out.reply_at(k) {
            Some((guest, told)) => guest == 0 && told == bytes,
            None => false,
        }
    }
}

fn changed(window: u32) -> Turn {
    Turn::Changed {
        window,
        drawn: None,
    }
}

#[test]
fn answers_the_version(rt: HostRuntime) -> Result<(), NoMemory> {
    let run = ready(rt.alloc(), &SEVEN)?;
    assert!(rt; run.said(0, &SEVEN));
    assert!(rt; run.said(1, &SIZE));
    assert!(rt; run.out.reply_at(2).is_none());
    let mut run = ready(rt.alloc(), &[7, 0, 2, 0])?;
    assert!(rt; run.out.reply_at(0).is_none());
    assert_eq!(rt;
        run.session.ended(),
        Some(Cause::BadVersion { a: 131079, b: 0 })
    );
    assert_eq!(rt; run.push(&SIZE), 16);
    assert_eq!(rt; run.turn(), Turn::Wait);
    Ok(())
}

#[test]
fn keeps_what_is_told_of_a_window(rt: HostRuntime) -> Result<(), NoMemory> {
    let mut run = ready(rt.alloc(), &SEVEN)?;
    run.send(CREATE, 2, &[0xffff_ffff, 0, 0, 9000, 0, 0]);
    run.send(MAP, 2, &[0, 0]);
    // The text `a`, a byte that doesn't print, a zero byte, and more.
    let mut text = [0; 32];
    text[0] = 0x6200_0161;
    run.send(TITLE, 2, &text);
    match run.session.pane(2) {
        Some(pane) => {
            let place = Rect {
                x: -1,
                y: 0,
                w: 1,
                h: 6144,
            };
            assert!(rt; pane.place == place && pane.mapped && !pane.over);
            assert!(rt; pane.title.as_slice() == b"a_".as_slice());
        }
        None => assert!(rt; false),
    }
    assert_eq!(rt; run.session.count(), 1);
    Ok(())
}

#[test]
fn ends_from_outside(rt: HostRuntime) -> Result<(), NoMemory> {
    let mut run = ready(rt.alloc(), &SEVEN)?;
    run.send(CREATE, 1, &[2, 2, 2, 2, 0, 0]);
    let cause = Cause::StreamEnded { a: 0, b: 0 };
    run.end(cause);
    assert_eq!(rt;
        (run.session.ended(), run.session.count()),
        (Some(cause), 0)
    );
    assert!(rt; run.session.pane(1).is_none());
    Ok(())
}

#[test]
fn shows_clipboard_data(rt: HostRuntime) -> Result<(), NoMemory> {
    let mut run = ready(rt.alloc(), &SEVEN)?;
    run.push(&[0x8c, 0, 0, 0, 9, 0, 0, 0, 3, 0, 0, 0, 1, 2]);
    assert_eq!(rt; run.turn(), Turn::Wait);
    run.push(&[3]);
    if run.session.ended().is_none() {
        assert_eq!(rt; run.take_clip(), Some(3));
    }
    assert_eq!(rt; run.send(CREATE, 1, &[2, 2, 2, 2, 0, 0]), changed(1));
    Ok(())
}

// A session with a window of 3 by 1 pixels and a dump of that size, whose frames read as 1, 2 and 3; the
// last has a byte above the colour.
fn reading(alloc: Global) -> Result<Run, NoMemory> {
    let mut run = ready(alloc, &SEVEN)?;
    run.add(1)?;
    run.add(2)?;
    run.add(0xff00_0003)?;
    run.send(CREATE, 1, &[2, 2, 3, 1, 0, 0]);
    run.send(DUMP, 1, &[0, 3, 1, 32, 0]);
    Ok(run)
}

#[test]
fn reads_what_is_reported(rt: HostRuntime) -> Result<(), NoMemory> {
    let mut run = reading(rt.alloc())?;
    let drawn = Some(Rect {
        x: 0,
        y: 0,
        w: 3,
        h: 1,
    });
    assert_eq!(rt;
        run.send(SHMIMAGE, 1, &[0, 0, 3, 1]),
        Turn::Changed { window: 1, drawn }
    );
    assert_eq!(rt; run.left(), 0);
    assert_eq!(rt; run.session.content(1, 2, 0), Some(Colour(3)));
    let mut row = [0; 4];
    run.session.content_row(1, 0, 0, Colour(9), &mut row);
    assert_eq!(rt; row, [1, 2, 3, 9]);
    Ok(())
}

// A session with a window of 1030 by 2 pixels and a dump of that size, whose frames read as 1, 2 and so on up to 20.
fn reading_wide(alloc: Global) -> Result<Run, NoMemory> {
    let mut run = ready(alloc, &SEVEN)?;
    for word in 1..21 {
        run.add(word)?;
    }
    run.send(CREATE, 1, &[2, 2, 1030, 2, 0, 0]);
    run.send(DUMP, 1, &[0, 1030, 2, 32, 0, 1, 2]);
    Ok(run)
}

// Of the second row a page ends before column 1018, and a tile before column 1024.
#[test]
fn reads_a_row_in_runs(rt: HostRuntime) -> Result<(), NoMemory> {
    let mut run = reading_wide(rt.alloc())?;
    run.send(SHMIMAGE, 1, &[1010, 1, 20, 1]);
    assert_eq!(rt; run.left(), 0);
    let mut row = [0; 22];
    run.session.content_row(1, 1009, 1, Colour(9), &mut row);
    assert_eq!(rt;
        row,
        [
            9, 1, 2, 3, 4, 5, 6, 7, 8, 9, 10, 11, 12, 13, 14, 15, 16, 17, 18, 19, 20, 9
        ]
    );
    Ok(())
}

// A pressed key, with Shift held: type, window, length; kind, place, state and code.
const KEY: [u8; 32] = [
    124, 0, 0, 0, 1, 0, 0, 0, 20, 0, 0, 0, 2, 0, 0, 0, 0, 0, 0, 0, 0, 0, 0, 0, 1, 0, 0, 0, 38, 0,
    0, 0,
];

// A place of 3 by 2 pixels from (-1, 5) on.
const PLACED: [u8; 32] = [
    134, 0, 0, 0, 1, 0, 0, 0, 20, 0, 0, 0, 255, 255, 255, 255, 5, 0, 0, 0, 3, 0, 0, 0, 2, 0, 0, 0,
    0, 0, 0, 0,
];

// The clipboard's three bytes.
const PASTED: [u8; 15] = [140, 0, 0, 0, 1, 0, 0, 0, 3, 0, 0, 0, 7, 8, 9];

#[test]
fn tells_what_is_granted(rt: HostRuntime) -> Result<(), NoMemory> {
    let mut run = ready(rt.alloc(), &SEVEN)?;
    run.send(CREATE, 1, &[2, 2, 3, 1, 0, 0]);
    run.grant(GIn::Key {
        window: 1,
        down: true,
        code: 38,
        state: 1,
    });
    run.grant(GIn::Close { window: 9 });
    run.grant(GIn::ClipGive { window: 1 });
    run.grant(GIn::Close { window: 1 });
    assert!(rt; run.said(2, &KEY));
    assert!(rt; run.said(3, &PASTED));
    assert!(rt; run.said(4, &[137, 0, 0, 0, 1, 0, 0, 0, 0, 0, 0, 0]));
    assert!(rt; run.out.reply_at(5).is_none());
    Ok(())
}

#[test]
fn changes_what_is_granted(rt: HostRuntime) -> Result<(), NoMemory> {
    let mut run = ready(rt.alloc(), &SEVEN)?;
    run.send(CREATE, 1, &[2, 2, 3, 1, 0, 0]);
    run.send(FLAGS, 1, &[6, 0]);
    let rect = Rect {
        x: -1,
        y: 5,
        w: 3,
        h: 2,
    };
    run.grant(GIn::Place { window: 1, rect });
    run.grant(GIn::Restored { window: 1 });
    assert!(rt; run.said(2, &PLACED));
    assert!(rt; run.out.reply_at(3).is_none());
    match run.session.pane(1) {
        Some(pane) => assert!(rt; pane.place == rect && pane.flags == 2),
        None => assert!(rt; false),
    }
    Ok(())
}

// A session on a plane of 40 by 10 pixels, whose second output is its right half.
fn ready_on_two(alloc: Global) -> Result<Run, NoMemory> {
    let mut setup = setup_of(alloc, 4)?;
    setup.width = 40;
    setup.height = 10;
    setup.outputs.push(Rect {
        x: 20,
        y: 0,
        w: 20,
        h: 10,
    })?;
    ready_on(alloc, &setup, &SEVEN)
}

// A place of 4 by 2 pixels from (35, 7) on, of an override-redirect window.
const MOVED: [u8; 32] = [
    134, 0, 0, 0, 1, 0, 0, 0, 20, 0, 0, 0, 35, 0, 0, 0, 7, 0, 0, 0, 4, 0, 0, 0, 2, 0, 0, 0, 1, 0,
    0, 0,
];

// A place of 18 by 8 pixels from (21, 1) on.
const FULL: [u8; 32] = [
    134, 0, 0, 0, 2, 0, 0, 0, 20, 0, 0, 0, 21, 0, 0, 0, 1, 0, 0, 0, 18, 0, 0, 0, 8, 0, 0, 0, 0, 0,
    0, 0,
];

#[test]
fn places_in_the_second_output(rt: HostRuntime) -> Result<(), NoMemory> {
    let mut run = ready_on_two(rt.alloc())?;
    run.send(CREATE, 1, &[38, 8, 4, 2, 0, 0]);
    run.send(MAP, 1, &[0, 1]);
    run.send(CREATE, 2, &[25, 4, 3, 1, 0, 0]);
    run.send(FLAGS, 2, &[1, 0]);
    assert!(rt; run.said(2, &MOVED));
    assert!(rt; run.said(3, &FULL));
    assert!(rt; run.out.reply_at(4).is_none());
    Ok(())
}

// Makes a window of the greatest size, with a dump of eight pages.
fn make_greatest(run: &mut Run, window: u32) {
    run.send(CREATE, window, &[0, 0, 16384, 6144, 0, 0]);
    run.send(DUMP, window, &[0, 1024, 8, 32, 0, 1, 2, 3, 4, 5, 6, 7]);
}

// Reports a pixel of a window, whose word is read as this.
fn report_pixel(run: &mut Run, window: u32, x: u32, word: u32) -> Result<(), NoMemory> {
    run.add(word)?;
    run.send(SHMIMAGE, window, &[x, 7, 1, 1]);
    Ok(())
}

// Reports the pixels of a window in columns 0, 64, 128 and 192 of its eighth row, each in a tile of its own.
fn report_four(run: &mut Run, window: u32) -> Result<(), NoMemory>
    requires { window ≤ 1024 }
{
    for column in 0..4 {
        report_pixel(run, window, 64 * column, 4 * window + column)?;
    }
    Ok(())
}

// A session with 1024 windows of the greatest size, which take all references and all tiles.
fn filled(alloc: Global) -> Result<Run, NoMemory> {
    let mut run = ready_with(alloc, 8192, &SEVEN)?;
    for window in 1..1025 {
        make_greatest(&mut run, window);
        report_four(&mut run, window)?;
    }
    Ok(run)
}

// Whether the pixels of a window in these columns are as they were read, and others have nothing.
fn shows_four(run: &Run, window: u32) -> bool
    requires { window ≤ 1024 }
{
    let mut row = [0; 194];
    run.session.content_row(window, 0, 7, Colour(9), &mut row);
    let word = 4 * window;
    row[0] == word
        && row[64] == word + 1
        && row[128] == word + 2
        && row[192] == word + 3
        && row[193] == 9
}

#[test]
fn opens_with_memory_for_all(rt: HostRuntime) -> Result<(), NoMemory> {
    let mut run = filled(rt.alloc())?;
    assert!(rt; run.session.ended().is_none());
    assert_eq!(rt; (run.session.count(), run.left()), (1024, 0));
    for window in 1..1025 {
        assert!(rt; shows_four(&run, window));
    }
    report_pixel(&mut run, 1, 256, 0)?;
    assert_eq!(rt;
        run.session.ended(),
        Some(Cause::PixelBudget { a: 1, b: 0 })
    );
    Ok(())
}
