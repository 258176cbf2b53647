// The codes of keys or buttons that are held.
ghost use Rattle.std.specs.Prelude.{◌≡◌, ◌↔◌, [], IsTrue};
ghost use Rattle.desk_laws.specs.Events.{is_among, held, released};

use arrayvec::ArrayVec;
use std::marker::Model;

// A set of codes from 0 to 255, in the order in which they were put. There is room for all of them.
//
// Contracts see the list of the codes.
#[derive(Drop)]
pub(crate) struct Codes {
    codes: ArrayVec<u8, 256>,
}

impl Model for Codes {
    ghost use Rattle.std.specs.Prelude.{ℕ, List};
    ghost use Rattle.input_router.specs.Codes.{AreCodes};

    ghost Value = { List ℕ };

    ghost view = { λ c. c.codes.items };

    ghost invariant = { λ c. AreCodes c.codes.items };
}

impl Codes {
    // No code.
    pub(crate) fn new() -> Self
        ensures { result ≡ [] }
    {
        Codes {
            codes: ArrayVec::new(),
        }
    }

    // Whether the code is held.
    pub(crate) fn has(&self, code: u8) -> bool
        ensures { result ≡ is_among code self.now }
    {
        has(self.codes.as_slice(), code)
    }

    // Whether none is held.
    pub(crate) fn is_empty(&self) -> bool
        ensures { IsTrue result ↔ (self.now ≡ []) }
    {
        self.codes.is_empty()
    }

    // Puts a code behind the others, where it isn't held yet.
    pub(crate) fn put(&mut self, code: u8)
        ensures { self.new ≡ held code self.old }
    {
        if !self.has(code) {
            self.codes.push(code);
        }
    }

    // Takes a code out.
    pub(crate) fn take(&mut self, code: u8)
        ensures { self.new ≡ released code self.old }
    {
        self.codes.retain(|other| *other != code);
    }

    // Takes all out.
    pub(crate) fn clear(&mut self)
        ensures { self.new ≡ [] }
    {
        self.codes.clear();
    }
}

// Whether a code stands in a list.
fn has(codes: &[u8], code: u8) -> bool
    ensures { result ≡ is_among code codes.now }
{
    codes.iter().any(|other| *other == code)
}
