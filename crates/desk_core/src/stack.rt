// The stack follows the windows of a guest.
ghost use Rattle.std.specs.Prelude.{◌≡◌, ◌≤◌, length};
ghost use Rattle.desk_laws.specs.Rows.{row_with};
ghost use Rattle.guest_session.specs.SessionView.{HasRows};
ghost use Rattle.desk_core.specs.Stacked.{layer_in, after_layer};

use desk_laws::RowId;
use guest_session::Session;
use stacking::Stacking;

// Where a window is mapped, whether it is in the override layer.
pub(crate) fn layer_of(session: &Session, window: u32) -> Option<bool>
    ensures is { result ≡ layer_in (row_with window session.now.rows) }
    ensures sound { HasRows session.now }
{
    match session.pane(window) {
        Some(pane) => { if pane.mapped { Some(pane.over) } else { None } }
        None => None,
    }
}

// Lets the stack follow a window that is in this layer now, or in none: a row that isn't mapped or is
// gone leaves, a new one comes on top, and one that was there stays or changes its layer.
pub(crate) fn follow(stack: &mut Stacking, id: RowId, layer: Option<bool>)
    requires { length (after_layer id layer stack.old.layers).focus ≤ stack.old.rows }
    ensures { stack.new ≡ record stack.old { layers = after_layer id layer stack.old.layers } }
{
    match layer {
        None => stack.leave(id),
        Some(over) => {
            if stack.has(id) {
                stack.relayer(id, over);
            } else {
                stack.enter(id, over);
            }
        }
    }
}
