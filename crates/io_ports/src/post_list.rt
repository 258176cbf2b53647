// A list of posts in memory.
ghost use Rattle.std.specs.Prelude.{◌≡◌, [], ◌∷◌, map, None, Some, MatchOption, slice_get};
ghost use Rattle.desk_laws.specs.Scene.{Post, Reply, Ended};
ghost use Rattle.io_ports.specs.KeptPosts.{post_of};
ghost use Rattle.io_ports.specs.Memory.{KeepsPost, none_kept, reply_in, ended_in};

use crate::Outlet;
use desk_laws::Cause;
use std::alloc::Global;
use std::marker::Model;

// A post as the list keeps it.
#[derive(Drop)]
enum KeptPost {
    Reply { guest: u32, bytes: Vec<u8> },
    Ended { guest: u32, cause: Cause },
}

/// An outlet that keeps its posts in memory, in their order.
///
/// Once it found no memory for a post it goes on answering, keeps nothing more, and its list isn't
/// told any longer. Contracts see the posts that it kept, and whether these are all.
#[derive(Drop)]
pub struct PostList {
    alloc: Global,
    posts: Vec<KeptPost>,
    is_whole: bool,
}

impl Model for PostList {
    ghost use Rattle.std.specs.Prelude.{map};
    ghost use Rattle.desk_laws.specs.Scene.{Post};
    ghost use Rattle.io_ports.specs.Memory.{Kept};

    ghost Value = { Kept Post };

    ghost use Rattle.io_ports.specs.KeptPosts.{post_of};

    ghost view = { λ p. record { items = map post_of p.posts.items; is_whole = p.is_whole } };
}

impl PostList {
    /// A list without posts. It takes no memory.
    pub fn new(alloc: Global) -> Self
        ensures { result ≡ none_kept }
    {
        PostList {
            alloc,
            posts: Vec::new(alloc),
            is_whole: true,
        }
    }

    /// The guest and the bytes of the kept post number `k`, counted from 0. None exactly where
    /// there is no such post or it isn't a reply.
    pub fn reply_at(&self, k: usize) -> Option<(u32, &[u8])>
        ensures { MatchOption result
            (reply_in (slice_get self.now.items k) ≡ None)
            (λ r. reply_in (slice_get self.now.items k) ≡ Some (r.0, r.1.now)) }
    {
        match self.posts.get(k) {
            Some(KeptPost::Reply { guest, bytes }) => Some((*guest, bytes)),
            _ => None,
        }
    }

    /// The guest whose session the kept post number `k`, counted from 0, says to have ended, and
    /// why it ended. None exactly where there is no such post or it is a reply.
    pub fn ended_at(&self, k: usize) -> Option<(u32, Cause)>
        ensures { result ≡ ended_in (slice_get self.now.items k) }
    {
        match self.posts.get(k) {
            Some(KeptPost::Ended { guest, cause }) => Some((*guest, *cause)),
            _ => None,
        }
    }

    // Puts the post behind the others, unless it finds no memory.
    fn keep(&mut self, post: KeptPost)
        ensures { KeepsPost self.old (post_of post) self.new }
    {
        self.is_whole = self.is_whole && self.posts.push(post).is_ok();
    }
}

impl Outlet for PostList {
    ghost takes = { KeepsPost };

    fn reply(&mut self, guest: u32, bytes: &[u8]) {
        if !self.is_whole {
            return;
        }
        match bytes.to_vec(self.alloc) {
            Ok(bytes) => self.keep(KeptPost::Reply { guest, bytes }),
            Err(_) => self.is_whole = false,
        }
    }

    fn ended(&mut self, guest: u32, cause: Cause) {
        self.keep(KeptPost::Ended { guest, cause });
    }
}
