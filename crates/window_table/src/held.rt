// What the slab keeps of a window.
ghost use Rattle.std.specs.Prelude.{◌≡◌, ℕ, true, option_map, is_some, find};
ghost use Rattle.slab.specs.Slab.{get, slab_len, Updates};
ghost use Rattle.desk_laws.specs.Effects.{name_without};
ghost use Rattle.window_table.specs.Kept.{among, holds, forgets_held};

use crate::{DumpSize, Pane};
use slab::Slab;

// A window's id, the size of its dump, and its pane.
#[derive(Drop)]
pub(crate) struct Held {
    pub(crate) window: u32,
    pub(crate) size: Option<DumpSize>,
    pub(crate) pane: Pane,
}

// No window is named as parent or transient any more.
fn forget_name(name: &mut u32, window: u32)
    ensures { name.new ≡ name_without window name.old }
{
    if *name == window {
        *name = 0;
    }
}

// The panes name this window no more, as parent or transient.
pub(crate) fn forget(held: &mut Slab<Held>, window: u32)
    ensures each { (slot : ℕ) → get held.new slot ≡ option_map (forgets_held window) (get held.old slot) }
    ensures len { slab_len held.new ≡ slab_len held.old }
    ensures capacity { held.new.capacity ≡ held.old.capacity }
{
    for key in 0..held.capacity() {
        forget_at(held, key, window);
    }
}

// The pane at this key, if it has one, names this window no more.
fn forget_at(held: &mut Slab<Held>, key: usize, window: u32)
    ensures updates { Updates held.old held.new key (option_map (forgets_held window) (get held.old key)) }
    ensures len { slab_len held.new ≡ slab_len held.old }
    ensures capacity { held.new.capacity ≡ held.old.capacity }
{
    if let Some(one) = held.get_mut(key) {
        forget_name(&mut one.pane.parent, window);
        forget_name(&mut one.pane.transient, window);
    }
}
