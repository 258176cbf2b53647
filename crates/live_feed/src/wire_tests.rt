// A wire over real sockets, in one thread.
use crate::LiveWire;
use desk_laws::{GuestSetup, Guests, Item, MAX_PIECE, Name, Outputs, Pairs, Setup};
use gui_num::Colour;
use io_ports::{Feed, FeedFault, Link, Next, RecordFault, RecordKind, StartFault, Wire};
use std::alloc::Global;
use std::io::{self, Read, Write};
use std::os::unix::net::UnixStream;
use std::test::Fail;
use std::{env, fs, process};

// A desktop of the guests `red` and `green`, of 16 pages each.
fn two_guests(alloc: Global) -> Result<Setup, Fail> {
    let mut guests = Guests::new(alloc);
    guests.push(GuestSetup {
        colour: Colour(0xff_0000),
        name: Name::new(b"red"),
    })?;
    guests.push(GuestSetup {
        colour: Colour(0x00_ff00),
        name: Name::new(b"green"),
    })?;
    Ok(Setup {
        width: 640,
        height: 480,
        border: 1,
        pages: 16,
        tiles: 1,
        percent: 90,
        background: Colour(0),
        guests,
        outputs: Outputs::new(alloc),
        clip: 1,
        denied: Pairs::new(alloc),
    })
}

// A wire, the folder that it was started in, and a room for what it gives.
#[derive(Drop)]
struct Stage {
    dir: String,
    wire: LiveWire<HostRuntime>,
    room: Vec<u8>,
}

impl Stage {
    // Starts a wire in a new folder.
    fn new(rt: &HostRuntime, name: &str) -> Result<Stage, Fail> {
        let id = process::id(rt.process());
        let temp = env::temp_dir(rt)?;
        let folder = temp.as_str();
        let dir = format!(in rt.alloc(); "{folder}/live_feed-{name}-{id}")?;
        fs::create_dir(rt, dir.as_str())?;
        let mut wire = LiveWire::new(rt, rt.alloc())?;
        let setup = two_guests(rt.alloc())?;
        if wire.start(dir.as_str(), &setup).is_err() {
            return Err(Fail::from(io::Error::from(io::ErrorKind::Other)));
        }
        Ok(Stage {
            dir,
            wire,
            room: vec![in rt.alloc(); 0; MAX_PIECE as usize]?,
        })
    }

    fn connect(&self, rt: &HostRuntime, name: &str) -> Result<UnixStream, Fail> {
        let dir = self.dir.as_str();
        let path = format!(in rt.alloc(); "{dir}/{name}")?;
        Ok(UnixStream::connect(rt, path.as_str())?)
    }

    // The answer of one round.
    fn round(&mut self) -> Result<Next, FeedFault> {
        if self.room.len() < MAX_PIECE as usize {
            return Err(FeedFault::Failed);
        }
        self.wire.next(&mut self.room)
    }

    // The first answer but for Idle, within a few rounds.
    fn next(&mut self) -> Result<Next, FeedFault> {
        for _ in 0..20 {
            let answer = self.round();
            if answer != Ok(bare(Item::Idle)) {
                return answer;
            }
        }
        Ok(bare(Item::Idle))
    }

    // Whether the room begins with these bytes.
    fn has(&self, bytes: &[u8]) -> bool {
        self.room.starts_with(bytes)
    }

    // Sends to a guest, where it is one of the two.
    fn send(&mut self, guest: u32, bytes: &[u8]) -> bool {
        guest < self.wire.guests() && !bytes.is_empty() && self.wire.send(guest, bytes).is_ok()
    }

    fn end(self, rt: &HostRuntime) -> Result<(), Fail> {
        fs::remove_dir_all(rt, self.dir.as_str())?;
        Ok(())
    }
}

fn bare(item: Item) -> Next {
    Next { item, len: 0 }
}

// What a round answers for an item with so many bytes.
fn given(item: Item, len: usize) -> Result<Next, FeedFault> {
    Ok(Next { item, len })
}

fn bad(offset: u64, kind: RecordKind) -> Result<Next, FeedFault> {
    Err(FeedFault::Bad(RecordFault { offset, kind }))
}

#[test]
fn gives_a_version_word(rt: HostRuntime) -> Result<(), Fail> {
    let mut stage = Stage::new(&rt, "word")?;
    assert_eq!(rt; stage.round(), given(Item::Idle, 0));
    let mut red = stage.connect(&rt, "red.gui")?;
    red.write_all(&[7, 0, 1, 0])?;
    assert_eq!(rt; stage.next(), given(Item::Bytes { guest: 0 }, 4));
    assert!(rt; stage.has(&[7, 0, 1, 0]));
    stage.end(&rt)
}

#[test]
fn refuses_a_kind_of_no_user(rt: HostRuntime) -> Result<(), Fail> {
    let mut stage = Stage::new(&rt, "kind")?;
    let mut user = stage.connect(&rt, "user")?;
    user.write_all(&[255])?;
    assert_eq!(rt; stage.next(), bad(0, RecordKind::Kind));
    assert_eq!(rt; stage.next(), bad(0, RecordKind::Kind));
    stage.end(&rt)
}

#[test]
fn gives_what_the_user_does(rt: HostRuntime) -> Result<(), Fail> {
    let mut stage = Stage::new(&rt, "user")?;
    let mut user = stage.connect(&rt, "user")?;
    user.write_all(&[9, 5, 1, 38])?;
    assert_eq!(rt; stage.next(), given(Item::Snap, 0));
    assert_eq!(rt; stage.next(), given(Item::Idle, 0));
    user.write_all(&[4, 0, 7, 1, 16, 0, 0])?;
    let key = Item::Key {
        down: true,
        code: 38,
        state: 4,
    };
    assert_eq!(rt; stage.next(), given(key, 0));
    assert_eq!(rt; stage.next(), bad(6, RecordKind::Range));
    stage.end(&rt)
}

#[test]
fn the_user_ends_well_or_within_an_item(rt: HostRuntime) -> Result<(), Fail> {
    let mut stage = Stage::new(&rt, "end")?;
    let mut user = stage.connect(&rt, "user")?;
    user.write_all(&[9])?;
    drop(user);
    assert_eq!(rt; stage.next(), given(Item::Snap, 0));
    assert_eq!(rt; stage.next(), given(Item::End, 0));
    assert_eq!(rt; stage.next(), given(Item::End, 0));
    stage.end(&rt)?;
    let mut stage = Stage::new(&rt, "short")?;
    let mut user = stage.connect(&rt, "user")?;
    user.write_all(&[9, 8, 1])?;
    drop(user);
    assert_eq!(rt; stage.next(), given(Item::Snap, 0));
    assert_eq!(rt; stage.next(), bad(1, RecordKind::Short));
    stage.end(&rt)
}

#[test]
fn gives_closed_where_a_reply_is_unread(rt: HostRuntime) -> Result<(), Fail> {
    let mut stage = Stage::new(&rt, "closed")?;
    let mut green = stage.connect(&rt, "green.gui")?;
    green.write_all(&[7, 0, 1, 0])?;
    assert_eq!(rt; stage.next(), given(Item::Bytes { guest: 1 }, 4));
    assert!(rt; stage.send(1, b"reply"));
    drop(green);
    assert_eq!(rt; stage.next(), given(Item::Closed { guest: 1 }, 0));
    assert!(rt; !stage.send(1, b"more") && stage.send(0, b"waits"));
    stage.end(&rt)
}

#[test]
fn gives_a_change_of_a_frame(rt: HostRuntime) -> Result<(), Fail> {
    let mut stage = Stage::new(&rt, "pages")?;
    let mut pages = stage.connect(&rt, "red.pages")?;
    let change = [3, 0, 0, 0, 8, 0, 0, 0, 4, 0, 0, 0, 1, 2, 3, 4];
    let store = Item::Store {
        guest: 0,
        delay: 0,
        page: 3,
        offset: 8,
    };
    pages.write_all(&change)?;
    pages.write_all(&change[..13])?;
    assert_eq!(rt; stage.next(), given(store, 4));
    assert!(rt; stage.has(&[1, 2, 3, 4]));
    assert_eq!(rt; stage.next(), given(Item::Idle, 0));
    pages.write_all(&change[13..])?;
    pages.write_all(&[16, 0, 0, 0, 8, 0, 0, 0, 4, 0, 0, 0])?;
    assert_eq!(rt; stage.next(), given(store, 4));
    assert_eq!(rt; stage.next(), given(Item::Closed { guest: 0 }, 0));
    assert!(rt; !stage.send(0, b"reply"));
    stage.end(&rt)
}

#[test]
fn sockets_take_turns(rt: HostRuntime) -> Result<(), Fail> {
    let mut stage = Stage::new(&rt, "turns")?;
    let mut red = stage.connect(&rt, "red.gui")?;
    let mut user = stage.connect(&rt, "user")?;
    let flood = vec![in rt.alloc(); 1u8; 80_000]?;
    red.write_all(&flood)?;
    user.write_all(&[9, 9])?;
    assert_eq!(rt; stage.next(), given(Item::Bytes { guest: 0 }, 65_536));
    assert_eq!(rt; stage.next(), given(Item::Snap, 0));
    assert_eq!(rt; stage.next(), given(Item::Bytes { guest: 0 }, 14_464));
    assert_eq!(rt; stage.next(), given(Item::Snap, 0));
    stage.end(&rt)
}

#[test]
fn a_socket_that_was_left_is_replaced(rt: HostRuntime) -> Result<(), Fail> {
    let mut stage = Stage::new(&rt, "left")?;
    let setup = two_guests(rt.alloc())?;
    let dir = stage.dir.as_str();
    assert_eq!(rt; stage.wire.start(dir, &setup), Ok(()));
    let mut red = stage.connect(&rt, "red.gui")?;
    red.write_all(b"a")?;
    assert_eq!(rt; stage.next(), given(Item::Bytes { guest: 0 }, 1));
    let missing = stage.wire.start("no/such/folder", &setup);
    assert_eq!(rt; missing, Err(StartFault::Failed));
    red.write_all(b"b")?;
    assert_eq!(rt; stage.next(), given(Item::Bytes { guest: 0 }, 1));
    stage.end(&rt)
}
