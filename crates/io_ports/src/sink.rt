// Where bytes go to.
ghost use Rattle.std.specs.Prelude.{◌≡◌, ◌<◌, ◌≤◌, ℕ, List, length, take, Option, IfOk, OnOk, OnErr, refl, ⊤};
ghost use Rattle.std.proofs.Common.{◌∙◌};
ghost use Rattle.io_ports.specs.Content.{Grows, GrowsPart};
ghost use Rattle.io_ports.specs.Counts.{HasCause};

use crate::source::Failed;

/// Where bytes go to.
pub trait Sink {
    /// The bytes that were put so far, where they are told.
    ghost written: { Self → Option (List ℕ) };

    /// How often it has failed: a count that never falls, and stays at 2 ^ 64 - 1.
    ghost faults: { Self → ℕ };

    /// What each call leaves as it was, from the object before it to the one after it: a `&mut`
    /// stays a reference to the same place. Anything, where the sink needs no such fact.
    ghost keeps: { Self → Self → Type 0 } = { λ _ _. ⊤ };

    /// Takes the first bytes of the piece, and answers how many: some of a piece that isn't empty.
    /// They stand behind what was written, unless the sink doesn't tell its content from then on.
    ///
    /// Failed only where the count of faults rose. What was written is then as it was.
    fn put(&mut self, bytes: &[u8]) -> Result<usize, Failed>
        ensures bound { IfOk result (λ n. n ≤ length bytes.now) }
        ensures some { IfOk result (λ n. 0 < length bytes.now → 0 < n) }
        ensures grows { IfOk result (λ n. Grows (written self.old) (take n bytes.now) (written self.new)) }
        ensures same { OnErr result (written self.new ≡ written self.old) }
        ensures keeps { keeps self.old self.new }
        ensures cause { HasCause (faults self.old) (faults self.new) result };

    /// Without a call all is kept.
    ghost keeps_same: { (a : Self) → keeps a a };

    /// What each of two calls keeps, both keep.
    ghost keeps_on: { (a b c : Self) → keeps a b → keeps b c → keeps a c };
}

// A borrowed sink is the same sink.
impl<K: Sink> Sink for &mut K {
    ghost written = { λ k. K.written k.now };

    ghost faults = { λ k. K.faults k.now };

    ghost keeps = { λ a b. (b.ghost_name ≡ a.ghost_name) × K.keeps a.now b.now };

    ghost keeps_same = { λ a. (refl, K.keeps_same a.now) };

    ghost keeps_on = { λ a b c first then. (then.0 ∙ first.0, K.keeps_on a.now b.now c.now first.1 then.1) };

    fn put(&mut self, bytes: &[u8]) -> Result<usize, Failed> {
        (**self).put(bytes)
    }
}

/// Puts all the bytes, in their order.
///
/// Failed where a put failed. The bytes that the puts before it took, a prefix of all of them, were
/// then written.
pub fn put_all<K: Sink>(sink: &mut K, bytes: &[u8]) -> Result<(), Failed>
    ensures ok { OnOk result (Grows (K.written sink.old) bytes.now (K.written sink.new)) }
    ensures err { OnErr result (GrowsPart (K.written sink.old) bytes.now (K.written sink.new)) }
    ensures keeps { K.keeps sink.old sink.new }
    ensures cause { HasCause (K.faults sink.old) (K.faults sink.new) result }
{
    let mut at = 0;
    while at < bytes.len() {
        at += sink.put(&bytes[at..])?;
    }
    Ok(())
}
