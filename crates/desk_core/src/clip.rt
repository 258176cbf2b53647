// What a turn does with clipboard data.
ghost use Rattle.std.specs.Prelude.{◌≡◌, ℕ, ◌<◌, List, length, true};
ghost use Rattle.gui_wire.specs.declared.Header.{Header};
ghost use Rattle.desk_laws.specs.Clipboard.{give};
ghost use Rattle.in_stream.specs.Taking.{DropsUnit};
ghost use Rattle.guest_session.specs.Clips.{BeginsWithClip, HasClip, HasKeptClip};
ghost use Rattle.guest_session.specs.SessionView.{with_stream};
ghost use Rattle.clipboard_gate.specs.Kept.{keeping};

use clipboard_gate::Gate;
use guest_session::Session;

// Takes the data that stands in front of a guest's session, and drops its message.
pub(crate) fn take_clip(session: &mut Session, guest: u32, gate: &mut Gate)
    requires { HasKeptClip session.old.sizes.clip_limit session.old.stream }
    ensures given { (header : Header) (body : List ℕ) → BeginsWithClip session.old.stream header body → gate.new ≡ keeping gate.old.limit (give gate.old.limit guest body gate.old.clip) }
    ensures kept { session.new ≡ with_stream session.new.stream session.old }
    ensures drops { DropsUnit session.old.stream session.new.stream }
    ensures greeted { session.new.stream.greeted ≡ true }
{
    gate.take(guest, session.clip());
    session.clip_done();
}

// Drops the message of a guest whose data is longer than what the clipboard holds.
pub(crate) fn drop_clip(session: &mut Session, guest: u32, gate: &mut Gate)
    requires { HasClip session.old.stream }
    ensures given { (body : List ℕ) → gate.old.limit < length body → gate.new ≡ keeping gate.old.limit (give gate.old.limit guest body gate.old.clip) }
    ensures kept { session.new ≡ with_stream session.new.stream session.old }
    ensures drops { DropsUnit session.old.stream session.new.stream }
    ensures greeted { session.new.stream.greeted ≡ true }
{
    gate.over(guest);
    session.clip_done();
}
