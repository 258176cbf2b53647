// One unit of a guest's bytes, taken.
ghost use Rattle.std.specs.Prelude.{◌≡◌, ℕ, ◌<◌, ◌≤◌, List, [], true, false, None};
ghost use Rattle.desk_laws.specs.Frames.{PortState};
ghost use Rattle.desk_laws.specs.Stream as cut;
ghost use Rattle.frame_pool.specs.Ports.{ChangesFrames};
ghost use Rattle.in_stream.specs.Received.{StandsFor};
ghost use Rattle.guest_session.specs.Desk.{FitDesk, sizes_in};
ghost use Rattle.guest_session.specs.Parts.{joined};
ghost use Rattle.guest_session.specs.Parts as parts;
ghost use Rattle.guest_session.specs.Turns.{Turns};

use crate::Turn;
use crate::desk::Desk;
use crate::obey::take;
use crate::replies::greet;
use crate::rows::Rows;
use desk_laws::Cause;
use frame_pool::FramePort;
use gui_wire::WireFault;
use in_stream::{Front, InStream};
use io_ports::Outlet;

// The type of clipboard data.
const CLIPBOARD_DATA: u32 = 140;

// The cause of a header's fault.
fn cause_of(fault: WireFault) -> Cause
    ensures { result ≡ parts.cause_of fault }
{
    match fault {
        WireFault::Kind(kind) => Cause::BadType { a: kind, b: 0 },
        WireFault::Length(len) => Cause::BadLength { a: len, b: 0 },
    }
}

// Ends a session for a cause: its windows are gone.
fn refuse(rows: &mut Rows, cause: Cause) -> Turn
    ensures answer { result ≡ Turn.Ended cause }
    ensures rows { rows.new ≡ record rows.old { rows = [] } }
{
    rows.clear();
    Turn::Ended(cause)
}

// Takes the version word, whose upper half is the major version, and answers it. No frame is read.
fn take_word<O: Outlet>(
    stream: &mut InStream,
    rows: &mut Rows,
    desk: &Desk,
    minor: &mut u32,
    out: &mut O,
) -> Turn
    requires greeted { stream.old.greeted ≡ false }
    requires wide { desk.now.width ≤ 8192 }
    requires high { desk.now.height ≤ 8192 }
    ensures limit { stream.new.limit ≡ stream.old.limit }
    ensures pages { rows.new.pages ≡ rows.old.pages }
    ensures tiles { rows.new.tiles ≡ rows.old.tiles }
    ensures turned { (port : PortState) (rest : List ℕ) → StandsFor stream.old rest → Turns O.takes out.old out.new port port
        (joined (sizes_in desk.now rows.old) stream.old rows.old minor.old None)
        (joined (sizes_in desk.now rows.old) stream.new rows.new minor.new (parts.ended_by result))
        result (cut.front false rest) }
{
    let Some(word) = stream.word() else {
        return Turn::Wait;
    };
    if word / 0x1_0000 != 1 {
        return refuse(rows, Cause::BadVersion { a: word, b: 0 });
    }
    stream.drop_word();
    *minor = word % 0x1_0000;
    greet(rows.guest(), desk, *minor, out);
    Turn::Changed {
        window: 0,
        drawn: None,
    }
}

// Takes what stands in front behind the version word: a message, a fault, or nothing whole.
// Clipboard data stays.
fn take_front<P: FramePort, O: Outlet>(
    stream: &mut InStream,
    rows: &mut Rows,
    desk: &Desk,
    minor: u32,
    port: &mut P,
    out: &mut O,
) -> Turn
    requires fit { FitDesk desk.now }
    requires limit { stream.old.limit ≡ desk.now.clip_limit }
    requires greeted { stream.old.greeted ≡ true }
    requires guest { rows.old.guest < P.guests port.old }
    requires port_pages { P.pages port.old ≡ rows.old.pages }
    ensures limit { stream.new.limit ≡ stream.old.limit }
    ensures pages { rows.new.pages ≡ rows.old.pages }
    ensures tiles { rows.new.tiles ≡ rows.old.tiles }
    ensures turned { (rest : List ℕ) → StandsFor stream.old rest → Turns O.takes out.old out.new
        (P.state port.old rows.old.guest) (P.state port.new rows.old.guest)
        (joined (sizes_in desk.now rows.old) stream.old rows.old minor None)
        (joined (sizes_in desk.now rows.old) stream.new rows.new minor (parts.ended_by result))
        result (cut.front true rest) }
    ensures port { ChangesFrames P.guests P.pages P.state rows.old.guest port.old port.new }
{
    match stream.front() {
        Front::Whole { header, body } => {
            if header.kind == CLIPBOARD_DATA {
                return Turn::ClipWhole;
            }
            match take(rows, desk, minor, header, body, port, out) {
                Ok(drawn) => {
                    stream.drop_front();
                    Turn::Changed {
                        window: header.window,
                        drawn,
                    }
                }
                Err(cause) => refuse(rows, cause),
            }
        }
        Front::Bad { fault, .. } => refuse(rows, cause_of(fault)),
        Front::ClipLong { header } => {
            refuse(
                rows,
                Cause::ClipTooLong {
                    a: header.len,
                    b: 0,
                },
            )
        }
        Front::Skipped { .. } => Turn::ClipOver,
        Front::Skipping { .. } => Turn::Wait,
        Front::Need { .. } => Turn::Wait,
    }
}

// Takes what stands in front: the version word first, then messages.
pub(crate) fn take_unit<P: FramePort, O: Outlet>(
    stream: &mut InStream,
    rows: &mut Rows,
    desk: &Desk,
    minor: &mut u32,
    port: &mut P,
    out: &mut O,
) -> Turn
    requires fit { FitDesk desk.now }
    requires limit { stream.old.limit ≡ desk.now.clip_limit }
    requires guest { rows.old.guest < P.guests port.old }
    requires port_pages { P.pages port.old ≡ rows.old.pages }
    ensures limit { stream.new.limit ≡ stream.old.limit }
    ensures pages { rows.new.pages ≡ rows.old.pages }
    ensures tiles { rows.new.tiles ≡ rows.old.tiles }
    ensures turned { (rest : List ℕ) → StandsFor stream.old rest → Turns O.takes out.old out.new
        (P.state port.old rows.old.guest) (P.state port.new rows.old.guest)
        (joined (sizes_in desk.now rows.old) stream.old rows.old minor.old None)
        (joined (sizes_in desk.now rows.old) stream.new rows.new minor.new (parts.ended_by result))
        result (cut.front stream.old.greeted rest) }
    ensures port { ChangesFrames P.guests P.pages P.state rows.old.guest port.old port.new }
{
    if stream.greeted() {
        take_front(stream, rows, desk, *minor, port, out)
    } else {
        take_word(stream, rows, desk, minor, out)
    }
}

// Why a turn ended the session, if it did.
pub(crate) fn ended_by(turn: Turn) -> Option<Cause>
    ensures { result ≡ parts.ended_by turn }
{
    match turn {
        Turn::Ended(cause) => Some(cause),
        _ => None,
    }
}
