// Keys: the two chords of the clipboard, and the keys of the focused row, of which those that are held
// are noted.
ghost use Rattle.std.specs.Prelude.{◌≡◌, ◌&&◌, ◌==◌, [], ◌∷◌, true, false};
ghost use Rattle.desk_laws.specs.declared.input.GIn.TheVariants as g;
ghost use Rattle.desk_laws.specs.Events.{is_chord, plain_key, key_to, key_by};
ghost use Rattle.desk_laws.specs.Scene.{Grants};
ghost use Rattle.input_router.specs.Commanded.{seated};
ghost use Rattle.input_router.specs.Deliveries.{Leads};
ghost use Rattle.input_router.specs.Presents.{Carries};

use crate::deliver::Deliver;
use crate::router::Router;
use desk_laws::{GIn, RowId};

// The keys C and V, by the codes that X11 has for them.
const KEY_C: u8 = 54;

const KEY_V: u8 = 55;

// Whether both Shift and Control are held.
fn is_chord(state: u16) -> bool
    ensures { result ≡ is_chord state }
{
    state % 2 == 1 && state / 4 % 2 == 1
}

// Whether a key is pressed with both Shift and Control, and is this one.
fn is_pressed_with(key: u8, down: bool, code: u8, state: u16) -> bool
    ensures { result ≡ (down && (is_chord state && code == key)) }
{
    down && is_chord(state) && code == key
}

// Tells a row of a key.
fn tell_key<V: Deliver>(id: RowId, down: bool, code: u8, state: u16, to: &mut V)
    ensures { Leads V.delivers to.old (Grants id (g.Key id.window down code state) ∷ []) to.new }
{
    let key = GIn::Key {
        window: id.window,
        down,
        code,
        state,
    };
    to.grant(id, &key);
}

impl Router {
    // A key of a row is pressed, and noted.
    fn press_key<V: Deliver>(&mut self, id: RowId, code: u8, state: u16, to: &mut V)
        ensures { Carries V.delivers to.old to.new self.new (plain_key id true code state (seated self.old)) }
    {
        tell_key(id, true, code, state, to);
        self.pressed_keys.put(code);
    }

    // A key of a row is released, which matters where it was pressed.
    fn release_key<V: Deliver>(&mut self, id: RowId, code: u8, state: u16, to: &mut V)
        ensures { Carries V.delivers to.old to.new self.new (plain_key id false code state (seated self.old)) }
    {
        if self.pressed_keys.has(code) {
            tell_key(id, false, code, state, to);
            self.pressed_keys.take(code);
        }
    }

    // A key of a row.
    fn plain_key<V: Deliver>(&mut self, id: RowId, down: bool, code: u8, state: u16, to: &mut V)
        ensures { Carries V.delivers to.old to.new self.new (plain_key id down code state (seated self.old)) }
    {
        if down {
            self.press_key(id, code, state, to);
        } else {
            self.release_key(id, code, state, to);
        }
    }

    // A key, with the focus on this row: a chord, or a key of the row's.
    fn key_to<V: Deliver>(&mut self, id: RowId, down: bool, code: u8, state: u16, to: &mut V)
        ensures { Carries V.delivers to.old to.new self.new (key_to id down code state (seated self.old)) }
    {
        if is_pressed_with(KEY_C, down, code, state) {
            to.ask(id);
        } else if is_pressed_with(KEY_V, down, code, state) {
            to.paste(id);
        } else {
            self.plain_key(id, down, code, state, to);
        }
    }

    // A key, for the row that was last told that it has the focus.
    pub(crate) fn key<V: Deliver>(&mut self, down: bool, code: u8, state: u16, to: &mut V)
        ensures { Carries V.delivers to.old to.new self.new (key_by self.old.focus down code state (seated self.old)) }
    {
        if let Some(id) = self.focus {
            self.key_to(id, down, code, state, to);
        }
    }
}
