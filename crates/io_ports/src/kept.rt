// Bytes that are kept in memory: what a sink in memory is made of.
ghost use Rattle.std.specs.Prelude.{◌≡◌};
ghost use Rattle.io_ports.specs.Memory.{KeepsMore, none_kept};

use std::alloc::Global;
use std::marker::Model;

// Once it found no memory it isn't whole, and keeps nothing more.
#[derive(Drop)]
pub struct KeptBytes {
    bytes: Vec<u8>,
    is_whole: bool,
}

impl Model for KeptBytes {
    ghost use Rattle.std.specs.Prelude.{ℕ};
    ghost use Rattle.io_ports.specs.Memory.{Kept};

    ghost Value = { Kept ℕ };

    ghost view = { λ k. record { items = k.bytes.items; is_whole = k.is_whole } };
}

impl KeptBytes {
    /// No bytes yet.
    pub fn new(alloc: Global) -> Self
        ensures { result ≡ none_kept }
    {
        KeptBytes {
            bytes: Vec::new(alloc),
            is_whole: true,
        }
    }

    /// The bytes that were kept.
    pub fn bytes(&self) -> &[u8]
        ensures { result.now ≡ self.now.items }
    {
        &self.bytes
    }

    /// Keeps these bytes behind the others, as long as there was memory for all.
    pub fn keep(&mut self, bytes: &[u8])
        ensures { KeepsMore self.old bytes.now self.new }
    {
        self.is_whole = self.is_whole && self.bytes.extend_from_slice(bytes).is_ok();
    }
}
