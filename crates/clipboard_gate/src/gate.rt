// Who was asked for data, and the data that is held.
ghost use Rattle.std.specs.Prelude.{◌≡◌, ℕ, ◌<◌, ◌≤◌, ◌&&◌, nat_le, List, length, replicate, IfOk, IfSome, Some, None, option_map};
ghost use Rattle.desk_laws.specs.Clipboard.{empty_clip, is_asked, ask, give, wiped, forget};
ghost use Rattle.clipboard_gate.specs.Kept.{keeping, padded, overrun};

use gui_num::NoMemory;
use std::alloc::Global;
use std::marker::Model;

/// The clipboard: the guest that was asked for data, if one was, and the data that is held, if any is,
/// with the guest that it is from. Of the block in which it stands, all other bytes are zero.
#[derive(Drop)]
pub struct Gate {
    asked: Option<u32>,
    source: Option<u32>,
    len: usize,
    pub(crate) kept: Vec<u8>,
}

impl Model for Gate {
    ghost use Rattle.std.specs.Prelude.{length};
    ghost use Rattle.clipboard_gate.specs.Kept.{GateView, content_in, IsKept};

    ghost Value = { GateView };

    ghost view = { λ g. record {
      limit = length g.kept.items;
      clip = record { asked = g.asked; content = content_in g.source g.len g.kept.items };
      kept = g.kept.items;
      len = g.len;
    } };

    ghost invariant = { λ g. IsKept (content_in g.source g.len g.kept.items) g.len g.kept.items };
}

impl Gate {
    /// An empty clipboard for data of at most `limit` bytes, with nobody asked. `NoMemory` where there is
    /// no memory for so many.
    pub fn new(alloc: Global, limit: u32) -> Result<Gate, NoMemory>
        ensures { IfOk result (λ g. g ≡ keeping limit empty_clip) }
    {
        let kept = vec![in alloc; 0u8; limit as usize]?;
        Ok(Gate {
            asked: None,
            source: None,
            len: 0,
            kept,
        })
    }

    /// Asks a guest for its data, in place of any that was asked before.
    pub fn ask(&mut self, guest: u32)
        ensures { self.new ≡ keeping self.old.limit (ask guest self.old.clip) }
    {
        self.asked = Some(guest);
    }

    /// Takes data of a guest, if it is the one that was asked: its question is then answered, and these
    /// bytes are held in place of any others. Longer data than the limit isn't held, and nothing is then.
    /// False exactly where the guest isn't the one that was asked, or the data is too long.
    pub fn take(&mut self, guest: u32, bytes: &[u8]) -> bool
        ensures given { self.new ≡ keeping self.old.limit (give self.old.limit guest bytes.now self.old.clip) }
        ensures answer { result ≡ (is_asked self.old.clip.asked guest && nat_le (length bytes.now) self.old.limit) }
    {
        if bytes.len() > self.kept.len() {
            self.over(guest);
            false
        } else if self.answers(guest) {
            self.hold(guest, bytes);
            true
        } else {
            false
        }
    }

    /// Does what `take` does with data of a guest that is longer than the limit, whichever bytes it has:
    /// these have passed, and aren't needed. False exactly where the guest isn't the one that was asked.
    pub fn over(&mut self, guest: u32) -> bool
        ensures overrun { self.new ≡ keeping self.old.limit (overrun guest self.old.clip) }
        ensures given { (bytes : List ℕ) → self.old.limit < length bytes → self.new ≡ keeping self.old.limit (give self.old.limit guest bytes self.old.clip) }
        ensures answer { result ≡ is_asked self.old.clip.asked guest }
    {
        let answered = self.answers(guest);
        if answered {
            self.asked = None;
            self.wipe();
        }
        answered
    }

    /// The data that is held. `None` exactly where none is.
    pub fn paste(&self) -> Option<&[u8]>
        ensures data { option_map (λ bytes. bytes.now) result ≡ option_map (λ content. content.bytes) self.now.clip.content }
        ensures fits { IfSome result (λ bytes. length bytes.now ≤ self.now.limit) }
        ensures kept { self.now ≡ keeping self.now.limit self.now.clip }
    {
        match self.source {
            Some(_) => Some(&self.kept[..self.len]),
            None => None,
        }
    }

    /// The guest that the data is from. `None` exactly where none is held.
    pub fn source(&self) -> Option<u32>
        ensures { result ≡ option_map (λ content. content.source) self.now.clip.content }
    {
        self.source
    }

    /// Overwrites the data that is held with zeros, after a paste. Who was asked stays.
    pub fn wipe(&mut self)
        ensures wiped { self.new ≡ keeping self.old.limit (wiped self.old.clip) }
        ensures zero { self.new.kept ≡ replicate self.old.limit 0 }
        ensures len { self.new.len ≡ 0 }
    {
        self.source = None;
        self.len = 0;
        self.kept.fill(0);
    }

    /// A guest's session has ended: if it was asked, nobody is any more. Its data stays.
    pub fn forget(&mut self, guest: u32)
        ensures { self.new ≡ keeping self.old.limit (forget guest self.old.clip) }
    {
        if self.answers(guest) {
            self.asked = None;
        }
    }

    // Whether a guest is the one that was asked.
    fn answers(&self, guest: u32) -> bool
        ensures { result ≡ is_asked self.now.clip.asked guest }
    {
        match self.asked {
            Some(asked) => asked == guest,
            None => false,
        }
    }

    // Holds the data of the guest that was asked, which then is asked no longer.
    fn hold(&mut self, guest: u32, bytes: &[u8])
        requires { length bytes.now ≤ self.old.limit }
        ensures { self.new ≡ keeping self.old.limit (record { asked = None; content = Some (record { source = guest; bytes = bytes.now }) }) }
    {
        self.asked = None;
        self.source = Some(guest);
        self.len = bytes.len();
        overwrite(&mut self.kept, bytes);
    }
}

// Writes these bytes into a block, and zeros behind them.
fn overwrite(kept: &mut [u8], bytes: &[u8])
    requires { length bytes.now ≤ length kept.old }
    ensures { kept.new ≡ padded (length kept.old) bytes.now }
{
    let (data, behind) = kept.split_at_mut(bytes.len());
    data.copy_from_slice(bytes);
    behind.fill(0);
}
