// Sources and sinks in memory that never fail.
ghost use Rattle.std.specs.Prelude.{◌≡◌, ℕ, ◌<◌, ◌≤◌, ◌↔◌, List, [], length, min, take, Some, IfOk, IsOk, OnErr, ⊤};
ghost use Rattle.io_ports.specs.Content.{Grows, Taken, Told};
ghost use Rattle.io_ports.specs.Counts.{HasCause};
ghost use Rattle.io_ports.specs.Memory.{KeepsMore, none_kept, told_of};

use crate::held::HeldBytes;
use crate::kept::KeptBytes;
use crate::{Failed, Sink, Source};
use gui_num::NoMemory;
use std::alloc::Global;
use std::marker::Model;

/// A source over bytes in memory whose reads never fail.
///
/// Each read gives as many bytes as fit into its room. Contracts see the bytes that are left.
#[derive(Drop)]
pub struct SureSource {
    held: HeldBytes,
}

impl Model for SureSource {
    ghost Value = { List ℕ };

    ghost view = { λ s. s.held };
}

impl SureSource {
    /// A source of these bytes. Its only error is that there is no memory for them.
    pub fn new(alloc: Global, bytes: &[u8]) -> Result<Self, NoMemory>
        ensures { IfOk result (λ s. s ≡ bytes.now) }
    {
        Ok(SureSource {
            held: HeldBytes::new(alloc, bytes)?,
        })
    }
}

impl Source for SureSource {
    ghost left = { λ s. Some s };

    ghost faults = { λ _. 0 };

    ghost keeps_same = { λ _. tt };

    ghost keeps_on = { λ _ _ _ _ _. tt };

    fn read(&mut self, room: &mut [u8]) -> Result<usize, Failed>
        ensures bound { IfOk result (λ n. n ≤ length room.old) }
        ensures taken { IfOk result (λ n. Told (Some self.old) (λ bytes. Taken bytes n room.new (Some self.new))) }
        ensures end { IfOk result (λ n. Told (Some self.old) (λ bytes. 0 < length room.old → n ≡ 0 ↔ (bytes ≡ []))) }
        ensures same { OnErr result (Some self.new ≡ Some self.old) }
        ensures keeps { ⊤ }
        ensures cause { HasCause 0 0 result }

        // It never fails, and gives what fits.
        ensures sure { IsOk result }
        ensures all { IfOk result (λ n. n ≡ min (length room.old) (length self.old)) }
    {
        Ok(self.held.give(room))
    }
}

/// A sink that keeps what it is given in memory, and whose puts never fail.
///
/// Each put takes the whole piece. Once a put found no memory the sink answers as before, keeps
/// nothing more, and tells no content. Contracts see the bytes that it kept.
#[derive(Drop)]
pub struct SureSink {
    kept: KeptBytes,
}

impl Model for SureSink {
    ghost use Rattle.std.specs.Prelude.{ℕ};
    ghost use Rattle.io_ports.specs.Memory.{Kept};

    ghost Value = { Kept ℕ };

    ghost view = { λ k. k.kept };
}

impl SureSink {
    /// A sink that was given nothing. It takes no memory, and always answers Ok.
    pub fn new(alloc: Global) -> Result<Self, NoMemory>
        ensures sure { IsOk result }
        ensures none { IfOk result (λ k. k ≡ none_kept) }
    {
        Ok(SureSink {
            kept: KeptBytes::new(alloc),
        })
    }

    /// The bytes that it kept: all that were put, unless it found no memory for some.
    pub fn bytes(&self) -> &[u8]
        ensures { result.now ≡ self.now.items }
    {
        self.kept.bytes()
    }
}

impl Sink for SureSink {
    ghost written = { λ k. told_of k };

    ghost faults = { λ _. 0 };

    ghost keeps_same = { λ _. tt };

    ghost keeps_on = { λ _ _ _ _ _. tt };

    fn put(&mut self, bytes: &[u8]) -> Result<usize, Failed>
        ensures bound { IfOk result (λ n. n ≤ length bytes.now) }
        ensures some { IfOk result (λ n. 0 < length bytes.now → 0 < n) }
        ensures grows { IfOk result (λ n. Grows (told_of self.old) (take n bytes.now) (told_of self.new)) }
        ensures same { OnErr result (told_of self.new ≡ told_of self.old) }
        ensures keeps { ⊤ }
        ensures cause { HasCause 0 0 result }

        // It never fails, and takes the whole piece.
        ensures sure { IsOk result }
        ensures all { IfOk result (λ n. n ≡ length bytes.now) }
        ensures kept { KeepsMore self.old bytes.now self.new }
    {
        self.kept.keep(bytes);
        Ok(bytes.len())
    }
}
