// What a setup says of the clipboard.
ghost use Rattle.std.specs.Prelude.{◌≡◌, ◌&&◌, ◌==◌};
ghost use Rattle.desk_laws.specs.Pairs.{clip_limit, denies};

use crate::{Pair, Setup};
use gui_wire::{MAX_CLIPBOARD_DATA, MAX_CLIPBOARD_SIZE};

/// Whether what the guest `from` copied isn't given to the guest `to`: whether the pair stands in the
/// list.
pub fn denies(denied: &[Pair], from: u32, to: u32) -> bool
    ensures { result ≡ denies denied.now from to }
{
    denied.iter().any(|pair| pair.from == from && pair.to == to)
}

impl Setup {
    /// How many bytes the clipboard holds: 256,000 in the second revision, and else 65,000.
    pub fn clip_limit(&self) -> u32
        ensures { result ≡ clip_limit self.now.clip }
    {
        if self.clip == 2 {
            MAX_CLIPBOARD_DATA
        } else {
            MAX_CLIPBOARD_SIZE
        }
    }

    /// Whether what the guest `from` copied isn't given to the guest `to`.
    pub fn denies(&self, from: u32, to: u32) -> bool
        ensures { result ≡ denies self.now.denied from to }
    {
        denies(self.denied.items(), from, to)
    }
}
