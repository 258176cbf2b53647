// The way from a window to one of its boxes.
ghost use Rattle.std.specs.Prelude.{◌≡◌, ◌+◌, ◌<◌, ◌≤◌, pos, length, reverse, take, IfOk, IfSome, slice_get};
ghost use Rattle.std.specs.List.{All};
ghost use Rattle.std.specs.Option.{ForSome};
ghost use Rattle.agent_tree.specs.Frames.{IsPlace, IsNarrow, frame};
ghost use Rattle.agent_tree.specs.Paths.{IsSound, along, path};

use crate::boxes::SceneBox;
use crate::frame::{Frame, inside, outermost};
use gui_num::{NoMemory, Rect};
use smallvec::SmallVec;
use std::alloc::Global;

// The boxes that the ones of some level behind the first `at` boxes lie in, by their indices, the innermost first.
// `NoMemory` only where there are more than 8 of them.
fn path_of(
    alloc: Global,
    boxes: &[SceneBox],
    at: usize,
    level: u32,
) -> Result<SmallVec<u32, 8>, NoMemory>
    requires at { at ≤ length boxes.now }
    requires few { length boxes.now ≤ 65536 }
    requires sound { All IsSound boxes.now }
    ensures { IfOk result (λ p. p.items ≡ path level (reverse (take at boxes.now))) }
{
    let mut path = SmallVec::new(alloc);
    let mut lowest = level;
    for k in (0..at).rev() {
        if lowest <= 1 {
            break;
        }
        if boxes[k].level < lowest {
            lowest = boxes[k].level;
            path.push(k as u32)?;
        }
    }
    Ok(path)
}

// The frame of what lies in the first box of a path.
fn along(boxes: &[SceneBox], window: Rect, path: &[u32]) -> Option<Frame>
    requires sound { All IsSound boxes.now }
    requires place { IsPlace window }
    requires x { window.x ≡ pos 0 }
    requires y { window.y ≡ pos 0 }
    requires path { All (λ k. k < length boxes.now) path.now }
    ensures is { result ≡ along window boxes.now path.now }
    ensures narrow { ForSome result IsNarrow }
{
    let mut frame = outermost(window);
    for k in (0..path.len()).rev() {
        frame = inside(frame, boxes[path[k] as usize].place);
    }
    frame
}

// The frame of the boxes of some level behind the first `at` ones. `NoMemory` only where their parent lies in 8 boxes
// or more.
pub(crate) fn frame_at(
    alloc: Global,
    boxes: &[SceneBox],
    window: Rect,
    at: usize,
    level: u32,
) -> Result<Option<Frame>, NoMemory>
    requires at { at ≤ length boxes.now }
    requires few { length boxes.now ≤ 65536 }
    requires sound { All IsSound boxes.now }
    requires place { IsPlace window }
    requires x { window.x ≡ pos 0 }
    requires y { window.y ≡ pos 0 }
    ensures is { IfOk result (λ f. f ≡ frame window level (reverse (take at boxes.now))) }
    ensures narrow { IfOk result (λ f. ForSome f IsNarrow) }
{
    let path = path_of(alloc, boxes, at, level)?;
    Ok(along(boxes, window, path.as_slice()))
}
