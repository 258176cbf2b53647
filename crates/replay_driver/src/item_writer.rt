// Steps the desk by an item, and writes what the item gives.
ghost use Rattle.std.specs.Prelude.{◌≡◌, ◌*◌, length, IfOk};
ghost use Rattle.desk_laws.specs.Items.{FitsItem};
ghost use Rattle.desk_laws.specs.State.{DeskState};
ghost use Rattle.desk_laws.specs.declared.setup.Setup.{Setup as SetupValue};
ghost use Rattle.frame_pool.specs.Ports.{HasExtent, KeepsExtent};
ghost use Rattle.desk_core.specs.DeskView.{guests_of, pages_of, picture_of};
ghost use Rattle.desk_core.specs.Painting.{plane};
ghost use Rattle.desk_core.specs.DeskStands.{Stands, stepped_of};
ghost use Rattle.replay_driver.specs.ItemWrites.{StepWrites, Suits, guest_bytes_of, step_bytes};

use crate::picture_writer::{Head, put_pictures};
use crate::post_writer::PostWriter;
use crate::summary_writer::put_summary;
use desk_core::{Desk, Stepped};
use desk_laws::Item;
use frame_pool::FramePort;
use io_ports::{Failed, Sink};

// Steps the desk, and writes what guests are told.
fn step_desk<P: FramePort, K: Sink>(
    desk: &mut Desk,
    item: &Item,
    piece: &[u8],
    port: &mut P,
    out: &mut K,
) -> Result<Stepped, Failed>
    requires range { FitsItem (guests_of desk.old) (pages_of desk.old) item.now (length piece.now) }
    requires port { HasExtent P.guests P.pages port.old (guests_of desk.old) (pages_of desk.old) }
    ensures writes { (setup : SetupValue) (state : DeskState) → Stands setup desk.old (P.state port.old) state →
        StepWrites setup item.now piece.now state desk.old desk.new (P.state port.new) result (guest_bytes_of setup item.now piece.now state)
        (K.written out.old) (K.written out.new) (K.faults out.old) (K.faults out.new) (K.keeps out.old out.new) }
    ensures drawn { item.now ≡ Item.Snap → (setup : SetupValue) (state : DeskState) → Stands setup desk.old (P.state port.old) state →
        (picture_of desk.new).pixels ≡ plane setup state.scene.rows state.scene.layers }
    ensures port { KeepsExtent P.guests P.pages port.old port.new }
    ensures answer { IfOk result (λ stepped. stepped ≡ stepped_of item.now) }
{
    let mut writer = PostWriter { out, failed: false };
    let stepped = desk.step(item, piece, port, &mut writer);
    if writer.failed {
        Err(Failed)
    } else {
        Ok(stepped)
    }
}

/// Steps the desk and the frames by an item, and writes what the item gives: what guests are told, a picture of each
/// output at Snap, the Summary at End. The heads are how the Picture records of the outputs begin, and the line is room
/// for the bytes of a row of the plane.
pub fn write_item<P: FramePort, K: Sink>(
    desk: &mut Desk,
    item: &Item,
    piece: &[u8],
    port: &mut P,
    heads: &[Head],
    line: &mut [u8],
    out: &mut K,
) -> Result<(), Failed>
    requires range { FitsItem (guests_of desk.old) (pages_of desk.old) item.now (length piece.now) }
    requires port { HasExtent P.guests P.pages port.old (guests_of desk.old) (pages_of desk.old) }
    requires suits { Suits desk.old (P.state port.old) heads.now (length line.old) }
    ensures writes { (setup : SetupValue) (state : DeskState) → Stands setup desk.old (P.state port.old) state →
        StepWrites setup item.now piece.now state desk.old desk.new (P.state port.new) result (step_bytes (picture_of desk.new).painted setup item.now piece.now state)
        (K.written out.old) (K.written out.new) (K.faults out.old) (K.faults out.new) (K.keeps out.old out.new) }
    ensures port { KeepsExtent P.guests P.pages port.old port.new }
{
    match step_desk(desk, item, piece, port, out) {
        Ok(Stepped::Going) => Ok(()),
        Ok(Stepped::Snap) => put_pictures(out, heads, desk.picture(), line),
        Ok(Stepped::Ended) => put_summary(out, &desk.summary()),
        Err(e) => Err(e),
    }
}
