// A desk of the scene's guests over their frames.
ghost use Rattle.std.specs.Prelude.{◌≡◌, ◌<◌, None, length};
ghost use Rattle.desk_laws.specs.Rules.{first_broken};
ghost use Rattle.desk_laws.specs.Items.{FitsItem};
ghost use Rattle.desk_core.specs.DeskView.{picture_of};

use desk_core::{Desk, Picture};
use desk_laws::{Item, MAX_PIECE, Setup};
use frame_pool::PoolPort;
use gui_num::NoMemory;
use io_ports::PostList;
use std::alloc::Global;
use std::marker::Model;

// A desk of 4 guests of 4096 pages, their frames, and what they were told.
#[derive(Drop)]
pub(crate) struct Screen {
    desk: Desk,
    port: PoolPort,
    posts: PostList,
}

impl Model for Screen {
    ghost use Rattle.desk_core.specs.DeskView.{DeskView};
    ghost use Rattle.full_repaints.specs.Screens.{IsOver};

    ghost Value = { DeskView };

    ghost view = { λ s. s.desk };

    ghost invariant = { λ s. IsOver s.desk s.port };
}

impl Screen {
    // A desk of this setup before any item, over frames of zero words. `NoMemory` where there is none
    // for the desk and the frames.
    pub(crate) fn open(alloc: Global, setup: &Setup) -> Result<Screen, NoMemory>
        requires rules { first_broken setup.now ≡ None }
        requires guests { length setup.now.guests ≡ 4 }
        requires pages { setup.now.pages ≡ 4096 }
    {
        let desk = Desk::open(alloc, setup)?;
        let port = PoolPort::new(alloc, 4, setup.pages)?;
        let posts = PostList::new(alloc);
        Ok(Screen { desk, port, posts })
    }

    // Takes an item with its piece.
    fn take(&mut self, item: &Item, piece: &[u8])
        requires { FitsItem 4 4096 item.now (length piece.now) }
    {
        self.desk.step(item, piece, &mut self.port, &mut self.posts);
    }

    // Takes bytes of a guest, in pieces that are as long as they may be.
    pub(crate) fn receive(&mut self, guest: u32, bytes: &[u8])
        requires { guest < 4 }
    {
        let mut left = bytes;
        while !left.is_empty() {
            let size = left.len().min(MAX_PIECE as usize);
            self.take(&Item::Bytes { guest }, &left[..size]);
            left = &left[size..];
        }
    }

    // Writes one page of a guest's frames at once.
    pub(crate) fn store(&mut self, guest: u32, page: u32, bytes: &[u8])
        requires guest { guest < 4 }
        requires page { page < 4096 }
        requires whole { length bytes.now ≡ 4096 }
    {
        let item = Item::Store {
            guest,
            delay: 0,
            page,
            offset: 0,
        };
        self.take(&item, bytes);
    }

    // Draws the picture anew.
    pub(crate) fn snap(&mut self) {
        self.take(&Item::Snap, &[]);
    }

    // The picture, as it was drawn last.
    pub(crate) fn picture(&self) -> &Picture
        ensures { result.now ≡ picture_of self.now }
    {
        self.desk.picture()
    }
}
