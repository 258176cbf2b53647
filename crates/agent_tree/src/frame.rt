// Where boxes lie in their window, and what of them shows.
ghost use Rattle.std.specs.Prelude.{◌≡◌, IfSome, pos};
ghost use Rattle.std.specs.Option.{ForSome};
ghost use Rattle.agent_tree.specs.Frames.{IsPlace, IsNarrow, clipped, inside, moved, outermost};
ghost use Rattle.gui_num.specs.Rects.{IsFit};

use gui_num::{Point, Rect, meet};

// What boxes lie in: the corner from which their places count, and the pixels of the window that they may have.
#[derive(Clone, Copy, Debug, PartialEq, Eq)]
pub(crate) struct Frame {
    pub(crate) corner: Point,
    pub(crate) room: Rect,
}

// The frame that a window is, by its rectangle.
pub(crate) fn outermost(window: Rect) -> Option<Frame>
    requires place { IsPlace window }
    requires x { window.x ≡ pos 0 }
    requires y { window.y ≡ pos 0 }
    ensures is { result ≡ outermost window }
    ensures narrow { ForSome result IsNarrow }
{
    Some(Frame {
        corner: Point {
            x: window.x,
            y: window.y,
        },
        room: window,
    })
}

// A place in a frame, in the pixels of the window.
fn moved(frame: Frame, place: Rect) -> Rect
    requires frame { IsNarrow frame }
    requires place { IsPlace place }
    ensures moved { result ≡ moved frame.corner place }
    ensures fit { IsFit result }
    ensures room { IsFit frame.room }
{
    Rect {
        x: frame.corner.x + place.x,
        y: frame.corner.y + place.y,
        ..place
    }
}

// What of a place in a frame shows.
pub(crate) fn clipped(frame: Option<Frame>, place: Rect) -> Option<Rect>
    requires frame { ForSome frame IsNarrow }
    requires place { IsPlace place }
    ensures { result ≡ clipped frame place }
{
    let frame = frame?;
    meet(frame.room, moved(frame, place))
}

// The frame that a box at a place in a frame is for the boxes in it.
pub(crate) fn inside(frame: Option<Frame>, place: Rect) -> Option<Frame>
    requires frame { ForSome frame IsNarrow }
    requires place { IsPlace place }
    ensures is { result ≡ inside frame place }
    ensures narrow { ForSome result IsNarrow }
{
    let frame = frame?;
    let all = moved(frame, place);
    let room = meet(frame.room, all)?;
    Some(Frame {
        corner: Point { x: all.x, y: all.y },
        room,
    })
}
