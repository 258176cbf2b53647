// Edits of the windows of a scene.
ghost use Rattle.std.specs.Prelude.{◌≡◌, ◌+◌, ◌<◌, ◌≤◌, ◌++◌, ◌∷◌, [], ℕ, true, false, length, OnOk, OnErr, IfErr, slice_get, Some, slice_index_or};
ghost use Rattle.std.specs.List.{list_any};
ghost use Rattle.agent_tree.specs.declared.boxes.SceneBox.{SceneBox};
ghost use Rattle.agent_tree.specs.Frames.{IsPlace};
ghost use Rattle.agent_tree.specs.Lists.{IsFirst, at_first};
ghost use Rattle.agent_tree.specs.Limits.{IsScene};
ghost use Rattle.agent_tree.specs.Paths.{IsSound};
ghost use Rattle.agent_tree.specs.Trees.{is_box};
ghost use Rattle.agent_tree.specs.Views.{TopView};
ghost use Rattle.agent_tree.specs.Scenes.{Answers, fit, is_named, holds, top_placed, box_removed};
ghost use Rattle.agent_tree.specs.BoxEdits.{IsEdit, new_box, box_edited, held_fault};

use crate::boxes::SceneBox;
use crate::fault::SceneFault;
use crate::top::Top;
use crate::tops::{box_at, pages, pages_in, tiles, tiles_in};
use gui_num::{Colour, Rect};
use std::alloc::Global;

// A change of a box: another place, or another colour.
#[derive(Clone, Copy, Debug, PartialEq, Eq)]
pub(crate) enum BoxEdit {
    Place(Rect),
    Fill(Colour),
}

// The box once it is changed.
fn edited(b: SceneBox, edit: BoxEdit) -> SceneBox
    requires sound { IsSound b }
    requires edit { IsEdit edit }
    ensures is { result ≡ new_box edit b }
    ensures sound { IsSound result }
    ensures level { result.level ≡ b.level }
{
    match edit {
        BoxEdit::Place(place) => SceneBox { place, ..b },
        BoxEdit::Fill(colour) => SceneBox { colour, ..b },
    }
}

// Changes the box with an id.
pub(crate) fn edit_box(
    tops: &mut Vec<Top>,
    alloc: Global,
    id: u32,
    edit: BoxEdit,
) -> Result<(), SceneFault>
    requires { IsEdit edit }
    ensures done { OnOk result (tops.new.items ≡ at_first (holds id) (box_edited edit id) tops.old.items) }
    ensures fault { Answers result (held_fault id tops.old.items) }
    ensures same { OnErr result (tops.new.items ≡ tops.old.items) }
{
    let Some((k, at)) = box_at(tops, id) else {
        return Err(SceneFault::Unknown);
    };
    let top = &mut tops[k];
    let new = edited(top.get(at), edit);
    if top.replace(alloc, at, new).is_err() {
        return Err(SceneFault::NoMemory);
    }
    Ok(())
}

// Takes out the box with an id, with all in it.
pub(crate) fn remove_box(tops: &mut Vec<Top>, alloc: Global, id: u32) -> Result<(), SceneFault>
    ensures done { OnOk result (tops.new.items ≡ at_first (holds id) (box_removed id) tops.old.items) }
    ensures fault { Answers result (held_fault id tops.old.items) }
    ensures same { OnErr result (tops.new.items ≡ tops.old.items) }
{
    let Some((k, at)) = box_at(tops, id) else {
        return Err(SceneFault::Unknown);
    };
    let top = &mut tops[k];
    if top.remove(alloc, at).is_err() {
        return Err(SceneFault::NoMemory);
    }
    Ok(())
}

// Gives a window another place.
pub(crate) fn place_top(tops: &mut Vec<Top>, k: usize, r: Rect) -> Result<(), SceneFault>
    requires at { k < length tops.old.items }
    requires place { IsPlace r }
    requires limits { IsScene tops.old.items }
    ensures done { OnOk result ((id : ℕ) → IsFirst (is_named id) tops.old.items k → tops.new.items ≡ at_first (is_named id) (top_placed r) tops.old.items) }
    ensures fits { OnOk result (fit tops.new.items ≡ true) }
    ensures limit { IfErr result (λ e. e ≡ SceneFault.Limit) }
    ensures full { OnErr result ((id : ℕ) → IsFirst (is_named id) tops.old.items k → fit (at_first (is_named id) (top_placed r) tops.old.items) ≡ false) }
    ensures same { OnErr result (tops.new.items ≡ tops.old.items) }
{
    let old = tops[k].place();
    let all_pages = pages_in(tops) - pages(old) + pages(r);
    let all_tiles = tiles_in(tops) - tiles(old) + tiles(r);
    if all_pages > 8192 || all_tiles > 4096 {
        return Err(SceneFault::Limit);
    }
    tops[k].put(r);
    Ok(())
}
