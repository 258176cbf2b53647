// The boxes of one window, as a list in preorder.
ghost use Rattle.std.specs.Prelude.{◌≡◌, ◌+◌, ◌<◌, ◌≤◌, ◌++◌, false, take, drop, length, IfSome, IfNone};
ghost use Rattle.agent_tree.specs.Lists.{IsFirst};
ghost use Rattle.agent_tree.specs.Trees.{has_box, is_box, outer};

use gui_num::{Colour, Rect};

// A box: its level, which is 1 for one that lies in the window itself, its place from the corner of what it lies in,
// and its colour.
#[derive(Clone, Copy, Debug, PartialEq, Eq)]
pub(crate) struct SceneBox {
    pub(crate) id: u32,
    pub(crate) level: u32,
    pub(crate) place: Rect,
    pub(crate) colour: Colour,
}

// The index of the box with an id.
pub(crate) fn index_of(boxes: &[SceneBox], id: u32) -> Option<usize>
    ensures found { IfSome result (IsFirst (is_box id) boxes.now) }
    ensures none { IfNone result (has_box id boxes.now ≡ false) }
{
    for (k, b) in boxes.iter().enumerate() {
        if b.id == id {
            return Some(k);
        }
    }
    None
}

// The index behind the last box that lies in one.
pub(crate) fn end_of(boxes: &[SceneBox], at: usize, level: u32) -> usize
    requires { at < length boxes.now }
    ensures rest { drop result boxes.now ≡ outer level (drop (at + 1) boxes.now) }
    ensures order { at < result }
    ensures within { result ≤ length boxes.now }
{
    for k in at + 1..boxes.len() {
        if boxes[k].level <= level {
            return k;
        }
    }
    boxes.len()
}

// Takes the boxes from one on and before another out.
pub(crate) fn cut(boxes: &mut Vec<SceneBox>, at: usize, end: usize)
    requires order { at ≤ end }
    requires within { end ≤ length boxes.old.items }
    ensures { boxes.new.items ≡ take at boxes.old.items ++ drop end boxes.old.items }
{
    let count = boxes.len();
    boxes.copy_within(end..count, at);
    boxes.truncate(count - (end - at));
}
