// The output that a window is put in.
ghost use Rattle.std.specs.Prelude.{◌≡◌, ◌≤◌, Some, length};
ghost use Rattle.desk_laws.specs.Outputs.{corner, output_of};

use gui_num::{Point, Rect, has};

// The upper left corner of a rectangle.
fn corner(rect: Rect) -> Point
    ensures { result ≡ corner rect }
{
    Point {
        x: rect.x,
        y: rect.y,
    }
}

/// The output that has the rectangle's upper left corner, or the first one where none has it. There is
/// an output.
pub fn output_of(rect: Rect, outputs: &[Rect]) -> Rect
    requires { 1 ≤ length outputs.now }
    ensures { output_of outputs.now rect ≡ Some result }
{
    let first = corner(rect);
    for output in outputs {
        if has(*output, first) {
            return *output;
        }
    }
    outputs[0]
}
