// The two sockets of a guest, with the bytes that wait for it.
ghost use Rattle.std.specs.Prelude.{◌≡◌, ◌+◌, ◌≤◌, ◌<◌, ℕ, length, take, drop, IfOk, IfErr};
ghost use Rattle.desk_laws.specs.Items.{FitsItem};
ghost use Rattle.desk_laws.specs.declared.limits.TheConstants.{MAX_PIECE};
ghost use Rattle.live_feed.specs.declared.change.TheConstants.{HEAD_BYTES};
ghost use Rattle.live_feed.specs.Given.{GivesFit};

use crate::change::{HEAD_BYTES, change_of};
use crate::row::Row;
use crate::socket::{Got, Socket};
use crate::{MAX_WAITING, Outbox, PageRead};
use desk_laws::Item;
use gui_num::NoMemory;
use io_ports::{Failed, FeedFault, Next, SendFailed};
use mio::Registry;
use std::alloc::Global;

// The two sockets of a guest: its messages and replies, and the changes of its frames.
#[derive(Drop)]
pub(crate) struct Guest {
    gui: Socket,
    pages: Socket,
    // The replies that its socket hasn't taken yet.
    waiting: Outbox,
    // A write failed, so that it is sent no more.
    is_cut: bool,
    // What was read of its changes and isn't given yet.
    changes: Row,
}

impl Guest {
    pub(crate) fn new(alloc: Global, gui: Socket, pages: Socket) -> Result<Guest, NoMemory> {
        Ok(Guest {
            gui,
            pages,
            waiting: Outbox::new(alloc)?,
            is_cut: false,
            changes: Row::new(alloc)?,
        })
    }

    // Marks what one of the two sockets has become ready for.
    pub(crate) fn mark(&mut self, is_gui: bool, readable: bool, writable: bool) {
        if is_gui {
            self.gui.mark(readable, writable);
        } else {
            self.pages.mark(readable, writable);
        }
    }

    // Gives a piece of the guest's messages, or their end.
    pub(crate) fn give_piece(
        &mut self,
        me: u32,
        registry: &Registry,
        room: &mut [u8],
    ) -> Result<Option<Next>, FeedFault>
        requires room { MAX_PIECE ≤ length room.old }
        ensures fits { (guests pages : ℕ) → me < guests → GivesFit guests pages result }
    {
        self.gui.accept(registry)?;
        Ok(match self.gui.read_piece(room) {
            Got::Bytes(len) => Some(piece(me, len)),
            Got::Nothing => None,
            Got::Over | Got::Failed => {
                self.flush();
                self.gui.shut();
                Some(closed(me))
            }
        })
    }

    // Gives a change of the guest's frames of so many pages, or the end of its changes.
    pub(crate) fn give_change(
        &mut self,
        me: u32,
        pages: u32,
        registry: &Registry,
        room: &mut [u8],
    ) -> Result<Option<Next>, FeedFault>
        requires room { MAX_PIECE ≤ length room.old }
        ensures fits { (guests : ℕ) → me < guests → GivesFit guests pages result }
    {
        self.pages.accept(registry)?;
        if !self.fetch(pages, room) {
            self.shut();
            return Ok(Some(closed(me)));
        }
        Ok(match change_of(self.changes.bytes(), pages) {
            PageRead::Whole { page, offset, len } => {
                hand_over(&mut self.changes, len, room);
                let item = Item::Store {
                    guest: me,
                    delay: 0,
                    page,
                    offset,
                };
                Some(Next { item, len })
            }
            PageRead::Need { .. } => None,
            PageRead::Bad => {
                self.shut();
                Some(closed(me))
            }
        })
    }

    // Reads more of the changes where no whole one is held. False where they have ended.
    fn fetch(&mut self, pages: u32, room: &mut [u8]) -> bool
        requires room { MAX_PIECE ≤ length room.old }
    {
        if let PageRead::Need { .. } = change_of(self.changes.bytes(), pages) {
            self.pages.read_behind(&mut self.changes, room).is_ok()
        } else {
            true
        }
    }

    fn shut(&mut self) {
        self.flush();
        self.gui.shut();
        self.pages.shut();
    }

    // Writes what the guest's socket takes at once of the bytes that wait.
    pub(crate) fn flush(&mut self) {
        if self.is_cut {
            return;
        }
        let waiting = self.waiting.front();
        if waiting.is_empty() {
            return;
        }
        match self.gui.write(waiting) {
            Ok(n) => self.waiting.drop_front(n),
            Err(Failed) => self.is_cut = true,
        }
    }

    // Sends these bytes behind those that wait. What the socket doesn't take at once waits.
    pub(crate) fn send(&mut self, bytes: &[u8]) -> Result<(), SendFailed>
        requires some { 0 < length bytes.now }
        ensures part { IfErr result (λ e. e.sent < length bytes.now) }
    {
        self.flush();
        if self.is_cut || self.gui.is_shut() {
            return Err(SendFailed { sent: 0 });
        }
        let Ok(sent) = self.write_first(bytes) else {
            return Err(SendFailed { sent: 0 });
        };
        if self.waiting.post(&bytes[sent..]) || sent == bytes.len() {
            Ok(())
        } else {
            Err(SendFailed { sent })
        }
    }

    // Where no bytes wait, writes what the socket takes at once.
    fn write_first(&mut self, bytes: &[u8]) -> Result<usize, Failed>
        ensures { IfOk result (λ n. n ≤ length bytes.now) }
    {
        if !self.waiting.front().is_empty() {
            return Ok(0);
        }
        let written = self.gui.write(bytes);
        self.is_cut = written.is_err();
        written
    }
}

// Takes a change of so many bytes off those that are held, and puts its bytes into the front of the room.
fn hand_over(held: &mut Row, len: usize, room: &mut [u8])
    requires held { HEAD_BYTES + len ≤ length held.old }
    requires room { len ≤ length room.old }
    ensures room { take len room.new ≡ take len (drop HEAD_BYTES held.old) }
    ensures held { held.new ≡ drop (HEAD_BYTES + len) held.old }
{
    room[..len].copy_from_slice(&held.bytes()[HEAD_BYTES..HEAD_BYTES + len]);
    held.drop_front(HEAD_BYTES + len);
}

fn piece(guest: u32, len: usize) -> Next
    requires some { 1 ≤ len }
    requires most { len ≤ MAX_PIECE }
    ensures { (guests pages : ℕ) → guest < guests → FitsItem guests pages result.item result.len }
{
    Next {
        item: Item::Bytes { guest },
        len,
    }
}

fn closed(guest: u32) -> Next
    ensures { (guests pages : ℕ) → guest < guests → FitsItem guests pages result.item result.len }
{
    Next {
        item: Item::Closed { guest },
        len: 0,
    }
}
