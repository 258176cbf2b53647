// What shows of a box of a window.
ghost use Rattle.std.specs.Prelude.{◌≡◌, ◌≤◌, length, reverse, take, IfOk};
ghost use Rattle.std.specs.List.{All};
ghost use Rattle.std.specs.Option.{ForSome};
ghost use Rattle.agent_tree.specs.Frames.{IsPart, IsPlace, clip};
ghost use Rattle.agent_tree.specs.Paths.{IsSound};
ghost use Rattle.agent_tree.specs.Scenes.{whole};

use crate::boxes::SceneBox;
use crate::damage::whole;
use crate::frame::clipped;
use crate::path::frame_at;
use gui_num::{NoMemory, Rect};
use std::alloc::Global;

// What shows of a box behind the first `at` ones.
pub(crate) fn clip_of(
    alloc: Global,
    boxes: &[SceneBox],
    place: Rect,
    at: usize,
    b: SceneBox,
) -> Result<Option<Rect>, NoMemory>
    requires at { at ≤ length boxes.now }
    requires few { length boxes.now ≤ 65536 }
    requires boxes { All IsSound boxes.now }
    requires place { IsPlace place }
    requires sound { IsSound b }
    ensures clip { IfOk result (λ r. r ≡ clip (whole place) b (reverse (take at boxes.now))) }
    ensures part { IfOk result (λ r. ForSome r (IsPart (whole place))) }
{
    let frame = frame_at(alloc, boxes, whole(place), at, b.level)?;
    Ok(clipped(frame, b.place))
}

// What shows of a box behind the first `at` ones, and what of another one of the same level. The way to them is walked
// once.
pub(crate) fn clips_of(
    alloc: Global,
    boxes: &[SceneBox],
    place: Rect,
    at: usize,
    old: SceneBox,
    new: SceneBox,
) -> Result<(Option<Rect>, Option<Rect>), NoMemory>
    requires at { at ≤ length boxes.now }
    requires few { length boxes.now ≤ 65536 }
    requires boxes { All IsSound boxes.now }
    requires place { IsPlace place }
    requires old { IsSound old }
    requires new { IsSound new }
    requires level { new.level ≡ old.level }
    ensures before { IfOk result (λ both. both.0 ≡ clip (whole place) old (reverse (take at boxes.now))) }
    ensures after { IfOk result (λ both. both.1 ≡ clip (whole place) new (reverse (take at boxes.now))) }
    ensures before_part { IfOk result (λ both. ForSome both.0 (IsPart (whole place))) }
    ensures after_part { IfOk result (λ both. ForSome both.1 (IsPart (whole place))) }
{
    let frame = frame_at(alloc, boxes, whole(place), at, old.level)?;
    Ok((clipped(frame, old.place), clipped(frame, new.place)))
}
