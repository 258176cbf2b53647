// Where bytes come from.
ghost use Rattle.std.specs.Prelude.{◌≡◌, ◌<◌, ◌≤◌, ◌↔◌, ℕ, List, [], length, min, drop, Option, Some, IfOk, OnErr, refl, ⊤};
ghost use Rattle.std.proofs.Common.{◌∙◌};
ghost use Rattle.io_ports.specs.Content.{Taken, Told};
ghost use Rattle.io_ports.specs.Counts.{HasCause};

/// Why a read or a put gave nothing: the outside failed. The object counted it.
#[derive(Clone, Copy, Debug, PartialEq, Eq)]
pub struct Failed;

/// Where bytes come from.
pub trait Source {
    /// The bytes still to come, where they are told.
    ghost left: { Self → Option (List ℕ) };

    /// How often it has failed: a count that never falls, and stays at 2 ^ 64 - 1.
    ghost faults: { Self → ℕ };

    /// What each call leaves as it was, from the object before it to the one after it: a `&mut`
    /// stays a reference to the same place. Anything, where the source needs no such fact.
    ghost keeps: { Self → Self → Type 0 } = { λ _ _. ⊤ };

    /// Puts the next bytes into the front of the room, as many as it likes, and answers how many.
    /// Where the content is told, none into room that isn't empty is the end, and some stands for
    /// the first bytes that were left, which are taken off.
    ///
    /// Failed only where the count of faults rose. What is left is then as it was.
    fn read(&mut self, room: &mut [u8]) -> Result<usize, Failed>
        ensures bound { IfOk result (λ n. n ≤ length room.old) }
        ensures taken { IfOk result (λ n. Told (left self.old) (λ bytes. Taken bytes n room.new (left self.new))) }
        ensures end { IfOk result (λ n. Told (left self.old) (λ bytes. 0 < length room.old → n ≡ 0 ↔ (bytes ≡ []))) }
        ensures same { OnErr result (left self.new ≡ left self.old) }
        ensures keeps { keeps self.old self.new }
        ensures cause { HasCause (faults self.old) (faults self.new) result };

    /// Without a call all is kept.
    ghost keeps_same: { (a : Self) → keeps a a };

    /// What each of two calls keeps, both keep.
    ghost keeps_on: { (a b c : Self) → keeps a b → keeps b c → keeps a c };
}

// A borrowed source is the same source.
impl<S: Source> Source for &mut S {
    ghost left = { λ s. S.left s.now };

    ghost faults = { λ s. S.faults s.now };

    ghost keeps = { λ a b. (b.ghost_name ≡ a.ghost_name) × S.keeps a.now b.now };

    ghost keeps_same = { λ a. (refl, S.keeps_same a.now) };

    ghost keeps_on = { λ a b c first then. (then.0 ∙ first.0, S.keeps_on a.now b.now c.now first.1 then.1) };

    fn read(&mut self, room: &mut [u8]) -> Result<usize, Failed> {
        (**self).read(room)
    }
}

/// Reads until the room is full or the source has ended, and answers how many bytes stand at the
/// front of the room: fewer than its length only at the end.
///
/// Failed where a read failed. Fewer bytes than the room's length, those of the reads before it,
/// were then taken off what was left.
pub fn fill<S: Source>(source: &mut S, room: &mut [u8]) -> Result<usize, Failed>
    ensures bound { IfOk result (λ n. n ≤ length room.old) }
    ensures taken { IfOk result (λ n. Told (S.left source.old) (λ bytes. Taken bytes n room.new (S.left source.new))) }
    ensures full { IfOk result (λ n. Told (S.left source.old) (λ bytes. n ≡ min (length room.old) (length bytes))) }
    ensures part { OnErr result (Told (S.left source.old) (λ bytes. (k : ℕ) × (k < length room.old) × (k ≤ length bytes) × (S.left source.new ≡ Some (drop k bytes)))) }
    ensures keeps { S.keeps source.old source.new }
    ensures cause { HasCause (S.faults source.old) (S.faults source.new) result }
{
    let mut at = 0;
    while at < room.len() {
        let n = source.read(&mut room[at..])?;
        if n == 0 {
            break;
        }
        at += n;
    }
    Ok(at)
}
