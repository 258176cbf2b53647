// What a session keeps of the desktop.
ghost use Rattle.std.specs.Prelude.{◌≡◌, None, Some, IfOk};
ghost use Rattle.desk_laws.specs.Outputs.{output_of};
ghost use Rattle.desk_laws.specs.Rules.{first_broken};
ghost use Rattle.desk_laws.specs.Sizes.{sizes_of};
ghost use Rattle.guest_session.specs.Desk.{FitDesk, FitOutput, desk_of};

use desk_laws::{Outputs, Setup};
use gui_num::{NoMemory, Rect};
use redirect_limits::output_of;
use std::alloc::Global;

// What a session keeps of a setup: the sides of the plane and the border in pixels, the percent of an
// output that override-redirect windows may take, the outputs, and the most bytes of the clipboard.
#[derive(Drop)]
pub(crate) struct Desk {
    pub(crate) width: u32,
    pub(crate) height: u32,
    pub(crate) border: u32,
    pub(crate) percent: u32,
    pub(crate) outputs: Outputs,
    pub(crate) clip_limit: u32,
}

// A copy of the outputs.
fn copied(alloc: Global, outputs: &[Rect]) -> Result<Outputs, NoMemory>
    ensures { IfOk result (λ copy. copy ≡ outputs.now) }
{
    let mut copy = Outputs::new(alloc);
    for output in outputs {
        copy.push(*output)?;
    }
    Ok(copy)
}

// What is kept of a setup that keeps its rules.
pub(crate) fn desk_of(alloc: Global, setup: &Setup) -> Result<Desk, NoMemory>
    requires { first_broken setup.now ≡ None }
    ensures is { IfOk result (λ desk. desk ≡ desk_of (sizes_of setup.now)) }
    ensures fit { IfOk result FitDesk }
{
    let outputs = copied(alloc, setup.outputs.items())?;
    Ok(Desk {
        width: setup.width,
        height: setup.height,
        border: setup.border,
        percent: setup.percent,
        outputs,
        clip_limit: setup.clip_limit(),
    })
}

// The output of a place: the one that has its upper left corner, or the first one where none has it.
pub(crate) fn output_at(desk: &Desk, place: Rect) -> Rect
    requires { FitDesk desk.now }
    ensures is { output_of desk.now.outputs place ≡ Some result }
    ensures fit { FitOutput result }
{
    output_of(place, desk.outputs.items())
}
