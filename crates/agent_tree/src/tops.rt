// The top windows of a scene: which one has an id, and how much of the limits they take.
ghost use Rattle.std.specs.Prelude.{◌≡◌, ◌+◌, ◌<◌, ◌≤◌, ◌^◌, false, length, IfSome, IfNone, slice_get, slice_set, map, Some, ◌==◌, ◌||◌, if◌then◌else◌};
ghost use Rattle.std.specs.List.{list_any};
ghost use Rattle.agent_tree.specs.Frames.{IsPlace};
ghost use Rattle.agent_tree.specs.Lists.{IsFirst};
ghost use Rattle.agent_tree.specs.Trees.{is_box};
ghost use Rattle.agent_tree.specs.Views.{TopView};
ghost use Rattle.agent_tree.specs.Scenes.{is_named, holds, pages, tiles, pages_of, tiles_of, boxes_of, undamaged};

use crate::ids::has_id;
use crate::top::Top;
use gui_num::Rect;

// The index of the top window with an id.
pub(crate) fn top_at(tops: &[Top], id: u32) -> Option<usize>
    ensures found { IfSome result (IsFirst (is_named id) tops.now) }
    ensures none { IfNone result (list_any (is_named id) tops.now ≡ false) }
{
    for (k, top) in tops.iter().enumerate() {
        if top.id() == id {
            return Some(k);
        }
    }
    None
}

// The index of the top window that holds the box with an id, and the box's own in its list.
pub(crate) fn box_at(tops: &[Top], id: u32) -> Option<(usize, usize)>
    ensures found { IfSome result (λ at. IsFirst (holds id) tops.now at.0) }
    ensures inside { IfSome result (λ at. (t : TopView) → slice_get tops.now at.0 ≡ Some t → IsFirst (is_box id) t.boxes at.1) }
    ensures none { IfNone result (list_any (holds id) tops.now ≡ false) }
{
    for (k, top) in tops.iter().enumerate() {
        if let Some(at) = top.index_of(id) {
            return Some((k, at));
        }
    }
    None
}

// How many pages of 4096 bytes the pixels of a window take.
pub(crate) fn pages(r: Rect) -> u32
    requires { IsPlace r }
    ensures is { result ≡ pages r }
    ensures few { result ≤ 98304 }
{
    (4 * r.w * r.h).div_ceil(4096)
}

// How many tiles of 64 by 64 pixels it takes.
pub(crate) fn tiles(r: Rect) -> u32
    requires { IsPlace r }
    ensures is { result ≡ tiles r }
    ensures few { result ≤ 24576 }
{
    r.w.div_ceil(64) * r.h.div_ceil(64)
}

// How many pages all windows take.
pub(crate) fn pages_in(tops: &[Top]) -> u32
    requires { pages_of tops.now < 2 ^ 32 }
    ensures { result ≡ pages_of tops.now }
{
    tops.iter().map(|top| pages(top.place())).sum()
}

// How many tiles they take.
pub(crate) fn tiles_in(tops: &[Top]) -> u32
    requires { tiles_of tops.now < 2 ^ 32 }
    ensures { result ≡ tiles_of tops.now }
{
    tops.iter().map(|top| tiles(top.place())).sum()
}

// How many boxes they hold.
pub(crate) fn boxes_in(tops: &[Top]) -> usize
    requires { boxes_of tops.now < 2 ^ 32 }
    ensures { result ≡ boxes_of tops.now }
{
    tops.iter().map(|top| top.len()).sum()
}

// Whether a window or a box has an id.
pub(crate) fn is_used(tops: &[Top], id: u32) -> bool
    ensures { result ≡ (list_any (is_named id) tops.now || list_any (holds id) tops.now) }
{
    is_top(tops, id) || is_held(tops, id)
}

// Whether a window has it.
pub(crate) fn is_top(tops: &[Top], id: u32) -> bool
    ensures { result ≡ list_any (is_named id) tops.now }
{
    match top_at(tops, id) {
        Some(_) => true,
        None => false,
    }
}

// Whether a box has it.
fn is_held(tops: &[Top], id: u32) -> bool
    ensures { result ≡ list_any (holds id) tops.now }
{
    match box_at(tops, id) {
        Some(_) => true,
        None => false,
    }
}

// Takes the damage off the window with an index, where it is shown.
fn clear_shown(tops: &mut Vec<Top>, shown: &[u32], k: usize)
    requires { k < length tops.old.items }
    ensures { (t : TopView) → slice_get tops.old.items k ≡ Some t → tops.new.items ≡ slice_set tops.old.items k (if list_any (λ s. s == t.id) shown.now then undamaged t else t) }
{
    let top = &mut tops[k];
    let id = top.id();
    if has_id(shown, id) {
        top.clear();
    }
}

// Takes the damage off those that are shown.
pub(crate) fn clear_all(tops: &mut Vec<Top>, shown: &[u32])
    ensures { tops.new.items ≡ map (λ t. if list_any (λ s. s == t.id) shown.now then undamaged t else t) tops.old.items }
{
    for k in 0..tops.len() {
        clear_shown(tops, shown, k);
    }
}
