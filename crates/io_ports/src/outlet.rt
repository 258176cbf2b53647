// Where what the desktop tells its guests goes to.
ghost use Rattle.desk_laws.specs.Scene.{Post, Reply, Ended};

use desk_laws::Cause;

/// Takes what the desktop posts: replies to guests, and the ends of their sessions.
///
/// What a post does is up to each outlet, and is said by its relation `takes`. A function that
/// posts a list leads from the old outlet to the new one by `takes` over that list, in order.
pub trait Outlet {
    /// The outlet before a post, the post, and the outlet after it.
    ghost takes: { Self → Post → Self → Type 0 };

    /// Posts a reply: the guest, counted from 0, is sent these bytes, which are one message, one
    /// version word or the desktop's size.
    fn reply(&mut self, guest: u32, bytes: &[u8])
        ensures { takes self.old (Reply guest bytes.now) self.new };

    /// Posts that the session of the guest, counted from 0, ended, and why.
    fn ended(&mut self, guest: u32, cause: Cause)
        ensures { takes self.old (Ended guest cause) self.new };
}
