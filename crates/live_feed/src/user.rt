// The user's socket.
ghost use Rattle.std.specs.Prelude.{◌≤◌, ℕ, length};
ghost use Rattle.desk_laws.specs.Items.{FitsItem};
ghost use Rattle.desk_laws.specs.declared.limits.TheConstants.{MAX_PIECE};
ghost use Rattle.live_feed.specs.Given.{GivesFit};

use crate::row::Row;
use crate::socket::{Ended, Socket};
use crate::user_item::{UserRead, user_item};
use desk_laws::Item;
use gui_num::NoMemory;
use io_ports::{FeedFault, Next, RecordFault, RecordKind};
use mio::Registry;
use std::alloc::Global;

// How the user's items end.
#[derive(Clone, Copy, Debug, PartialEq, Eq)]
enum Fate {
    End,
    Bad(RecordFault),
}

// The user's socket, with what was read of it and isn't given yet.
#[derive(Drop)]
pub(crate) struct User {
    socket: Socket,
    held: Row,
    // The offset in the user's bytes of the first that is held.
    at: u64,
    // Set once the items have ended.
    fate: Option<Fate>,
}

impl User {
    pub(crate) fn new(alloc: Global, socket: Socket) -> Result<User, NoMemory> {
        Ok(User {
            socket,
            held: Row::new(alloc)?,
            at: 0,
            fate: None,
        })
    }

    // Marks what the socket has become ready for.
    pub(crate) fn mark(&mut self, readable: bool, writable: bool) {
        self.socket.mark(readable, writable);
    }

    // Gives an item of the user's, or how they end.
    pub(crate) fn give(
        &mut self,
        guests: u32,
        pages: u32,
        registry: &Registry,
        room: &mut [u8],
    ) -> Result<Option<Next>, FeedFault>
        requires room { MAX_PIECE ≤ length room.old }
        ensures fits { GivesFit guests pages result }
    {
        self.fetch(guests, pages, registry, room)?;
        match self.fate {
            None => self.take(guests, pages),
            Some(Fate::End) => Ok(Some(end())),
            Some(Fate::Bad(fault)) => Err(FeedFault::Bad(fault)),
        }
    }

    // Reads more of the user's bytes where no whole item is held, and notes their end.
    fn fetch(
        &mut self,
        guests: u32,
        pages: u32,
        registry: &Registry,
        room: &mut [u8],
    ) -> Result<(), FeedFault>
        requires room { MAX_PIECE ≤ length room.old }
    {
        self.socket.accept(registry)?;
        if self.fate.is_some() {
            return Ok(());
        }
        if let UserRead::Need = user_item(self.held.bytes(), guests as usize, pages) {
            match self.socket.read_behind(&mut self.held, room) {
                Ok(()) => {}
                Err(Ended::Over) => self.end_here(),
                Err(Ended::Failed) => return Err(FeedFault::Failed),
            }
        }
        Ok(())
    }

    // The bytes have ended: well between two items.
    fn end_here(&mut self) {
        self.socket.shut();
        self.fate = Some(if self.held.bytes().is_empty() {
            Fate::End
        } else {
            Fate::Bad(RecordFault {
                offset: self.at,
                kind: RecordKind::Short,
            })
        });
    }

    // Takes the item off that is held, where there is one.
    fn take(&mut self, guests: u32, pages: u32) -> Result<Option<Next>, FeedFault>
        ensures fits { GivesFit guests pages result }
    {
        match user_item(self.held.bytes(), guests as usize, pages) {
            UserRead::Whole { next, size } => {
                self.held.drop_front(size);
                self.at = self.at.saturating_add(size as u64);
                if next.item == Item::End {
                    self.fate = Some(Fate::End);
                }
                Ok(Some(next))
            }
            UserRead::Need => Ok(None),
            UserRead::Bad(kind) => {
                let fault = RecordFault {
                    offset: self.at,
                    kind,
                };
                self.fate = Some(Fate::Bad(fault));
                Err(FeedFault::Bad(fault))
            }
        }
    }
}

fn end() -> Next
    ensures { (guests pages : ℕ) → FitsItem guests pages result.item result.len }
{
    Next {
        item: Item::End,
        len: 0,
    }
}
