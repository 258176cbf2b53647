// The damage of one window.
ghost use Rattle.std.specs.Prelude.{◌≡◌, ◌≤◌, [], ◌∷◌, pos, Some, None, OnOk, OnErr};
ghost use Rattle.std.specs.Option.{ForSome, option_to_list};
ghost use Rattle.gui_num.specs.Rects.{IsFit};
ghost use Rattle.region_clip.specs.Regions.{all_added};
ghost use Rattle.agent_tree.specs.Frames.{IsPart, IsPlace};
ghost use Rattle.agent_tree.specs.Scenes.{damaged, whole};

use gui_num::Rect;
use region_clip::{Full, Region};

// The rectangle of a window in its own pixels.
pub(crate) fn whole(place: Rect) -> Rect
    ensures { result ≡ whole place }
{
    Rect {
        x: 0,
        y: 0,
        ..place
    }
}

// Adds what showed of a box before and what shows after a change, or damages the whole window where there is no room
// for that.
pub(crate) fn add_change(
    damage: &mut Region,
    place: Rect,
    before: Option<Rect>,
    after: Option<Rect>,
)
    requires place { IsPlace place }
    requires before { ForSome before (IsPart (whole place)) }
    requires after { ForSome after (IsPart (whole place)) }
    ensures { damage.new ≡ damaged (whole place) damage.old before after }
{
    if add_one(damage, place, before).is_err() {
        add_whole(damage, place);
        return;
    }
    if add_one(damage, place, after).is_err() {
        add_whole(damage, place);
    }
}

// Adds a rectangle, if there is one.
fn add_one(damage: &mut Region, place: Rect, shown: Option<Rect>) -> Result<(), Full>
    requires place { IsPlace place }
    requires shown { ForSome shown (IsPart (whole place)) }
    ensures added { OnOk result (all_added damage.old (option_to_list shown) ≡ Some damage.new) }
    ensures full { OnErr result (all_added damage.old (option_to_list shown) ≡ None) }
{
    match shown {
        Some(r) => damage.add(r),
        None => Ok(()),
    }
}

// Damages the whole window.
pub(crate) fn add_whole(damage: &mut Region, place: Rect)
    requires { IsPlace place }
    ensures { damage.new ≡ whole place ∷ [] }
{
    damage.clear();
    let _ = damage.add(whole(place));
}
