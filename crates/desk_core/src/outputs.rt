// Which pixels of the plane are in an output.
ghost use Rattle.std.specs.Prelude.{◌≡◌, IsTrue, false};
ghost use Rattle.std.specs.List.{All};
ghost use Rattle.compositor.specs.PictureView.{LiesIn};
ghost use Rattle.desk_laws.specs.declared.setup.Setup.{Setup};
ghost use Rattle.desk_laws.specs.Events.{route};
ghost use Rattle.desk_laws.specs.Outputs.{is_in_output};
ghost use Rattle.desk_laws.specs.Scene.{Scene, ignored};
ghost use Rattle.input_router.specs.Routes.{HasPixel, StaysOn};
ghost use Rattle.input_router.specs.SeatView.{IsPixel};

use desk_laws::Item;
use gui_num::{Point, Rect, has};

// Whether some output has the pixel.
fn is_in_output(outputs: &[Rect], p: Point) -> bool
    requires { All (LiesIn 8192 8192) outputs.now }
    ensures is { result ≡ is_in_output outputs.now p }
    ensures pixel { IsTrue result → IsPixel p }
{
    outputs.iter().any(|output| has(*output, p))
}

/// Whether the pixel of a Move is in one of these outputs; `true` for all other items.
pub(crate) fn stays_on(item: &Item, outputs: &[Rect]) -> bool
    requires { All (LiesIn 8192 8192) outputs.now }
    ensures pixel { IsTrue result → HasPixel item.now }
    ensures on { IsTrue result → (setup : Setup) → setup.outputs ≡ outputs.now → StaysOn setup item.now }
    ensures off { result ≡ false → (setup : Setup) (scene : Scene) → setup.outputs ≡ outputs.now → route setup item.now scene ≡ ignored scene }
{
    match *item {
        Item::Move { x, y, .. } => is_in_output(outputs, Point { x, y }),
        _ => true,
    }
}
