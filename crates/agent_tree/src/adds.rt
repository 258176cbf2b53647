// What is added to a scene.
ghost use Rattle.std.specs.Prelude.{◌≡◌, ◌+◌, ◌<◌, ◌≤◌, ◌++◌, ◌∷◌, [], ℕ, true, false, length, OnOk, OnErr};
ghost use Rattle.agent_tree.specs.Frames.{IsPlace};
ghost use Rattle.agent_tree.specs.Lists.{IsFirst, at_first};
ghost use Rattle.agent_tree.specs.Limits.{IsScene};
ghost use Rattle.agent_tree.specs.Paths.{IsSound};
ghost use Rattle.agent_tree.specs.Scenes.{Answers, is_named, holds, new_top, child_added, box_added};
ghost use Rattle.agent_tree.specs.Adds.{top_refused, child_refused, inside_refused};

use crate::boxes::SceneBox;
use crate::fault::SceneFault;
use crate::top::Top;
use crate::tops::{box_at, boxes_in, is_used, pages, pages_in, tiles, tiles_in};
use gui_num::{Colour, Rect};
use std::alloc::Global;

const MOST_TOPS: usize = 1024;

const MOST_BOXES: usize = 65536;

const MOST_LEVELS: u32 = 64;

// Adds a top window.
pub(crate) fn add_top(
    tops: &mut Vec<Top>,
    alloc: Global,
    id: u32,
    place: Rect,
    colour: Colour,
) -> Result<(), SceneFault>
    requires place { IsPlace place }
    requires limits { IsScene tops.old.items }
    ensures done { OnOk result (tops.new.items ≡ tops.old.items ++ new_top id place colour ∷ []) }
    ensures fault { Answers result (top_refused id place tops.old.items) }
    ensures same { OnErr result (tops.new.items ≡ tops.old.items) }
    ensures limits { IsScene tops.new.items }
{
    if is_used(tops, id) {
        return Err(SceneFault::Exists);
    }
    if tops.len() >= MOST_TOPS
        || pages_in(tops) + pages(place) > 8192
        || tiles_in(tops) + tiles(place) > 4096
    {
        return Err(SceneFault::Limit);
    }
    let Ok(top) = Top::new(alloc, id, place, colour) else {
        return Err(SceneFault::NoMemory);
    };
    if tops.push(top).is_err() {
        return Err(SceneFault::NoMemory);
    }
    Ok(())
}

// Adds a box as the last child of the window with an index.
pub(crate) fn add_child(
    tops: &mut Vec<Top>,
    alloc: Global,
    k: usize,
    new: SceneBox,
) -> Result<(), SceneFault>
    requires at { k < length tops.old.items }
    requires sound { IsSound new }
    requires level { new.level ≡ 1 }
    requires limits { IsScene tops.old.items }
    ensures done { OnOk result ((id : ℕ) → IsFirst (is_named id) tops.old.items k → tops.new.items ≡ at_first (is_named id) (child_added new) tops.old.items) }
    ensures fault { Answers result (child_refused new.id tops.old.items) }
    ensures same { OnErr result (tops.new.items ≡ tops.old.items) }
{
    if is_used(tops, new.id) {
        return Err(SceneFault::Exists);
    }
    if boxes_in(tops) >= MOST_BOXES {
        return Err(SceneFault::Limit);
    }
    let top = &mut tops[k];
    let end = top.len();
    if top.insert(alloc, end, new).is_err() {
        return Err(SceneFault::NoMemory);
    }
    Ok(())
}

// Adds a box as the last child of the box with an id.
pub(crate) fn add_inside(
    tops: &mut Vec<Top>,
    alloc: Global,
    parent: u32,
    new: SceneBox,
) -> Result<(), SceneFault>
    requires sound { IsSound new }
    requires limits { IsScene tops.old.items }
    ensures done { OnOk result (tops.new.items ≡ at_first (holds parent) (box_added parent new) tops.old.items) }
    ensures fault { Answers result (inside_refused new.id parent tops.old.items) }
    ensures same { OnErr result (tops.new.items ≡ tops.old.items) }
{
    let Some((k, at)) = box_at(tops, parent) else {
        return Err(SceneFault::Unknown);
    };
    if is_used(tops, new.id) {
        return Err(SceneFault::Exists);
    }
    let holder = &tops[k];
    let level = holder.get(at).level;
    if boxes_in(tops) >= MOST_BOXES || level >= MOST_LEVELS {
        return Err(SceneFault::Limit);
    }
    let top = &mut tops[k];
    let end = top.end_of(at);
    let new = SceneBox {
        level: level + 1,
        ..new
    };
    if top.insert(alloc, end, new).is_err() {
        return Err(SceneFault::NoMemory);
    }
    Ok(())
}
