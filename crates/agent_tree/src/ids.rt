// The ids of the windows that are shown.
ghost use Rattle.std.specs.Prelude.{◌≡◌, ◌++◌, ◌==◌, ◌∷◌, [], not, filter, OnOk, OnErr, if◌then◌else◌};
ghost use Rattle.std.specs.List.{list_any};

use gui_num::NoMemory;

// Puts an id behind the others, if it isn't among them yet.
pub(crate) fn put_id(ids: &mut Vec<u32>, id: u32) -> Result<(), NoMemory>
    ensures done { OnOk result (ids.new.items ≡ (if list_any (λ s. s == id) ids.old.items then ids.old.items else ids.old.items ++ id ∷ [])) }
    ensures same { OnErr result (ids.new.items ≡ ids.old.items) }
{
    if has_id(ids, id) {
        return Ok(());
    }
    ids.push(id)?;
    Ok(())
}

// Takes an id out.
pub(crate) fn drop_id(ids: &mut Vec<u32>, id: u32)
    ensures { ids.new.items ≡ filter (λ s. not (s == id)) ids.old.items }
{
    ids.retain(|s| *s != id);
}

// Whether an id is among them.
pub(crate) fn has_id(ids: &[u32], id: u32) -> bool
    ensures { result ≡ list_any (λ s. s == id) ids.now }
{
    ids.contains(&id)
}
