// What a session tells its guest.
ghost use Rattle.std.specs.Prelude.{◌≡◌, ◌≤◌, [], ◌∷◌, true, if◌then◌else◌};
ghost use Rattle.desk_laws.specs.Effects as effects;
ghost use Rattle.desk_laws.specs.Effects.{tells_place, acks, greeting};
ghost use Rattle.desk_laws.specs.Scene.{Reply, replies};
ghost use Rattle.io_ports.specs.Posts.{Leads};
ghost use Rattle.guest_session.specs.Desk.{sizes_in};
ghost use Rattle.guest_session.specs.RowsView.{RowsView};

use crate::desk::Desk;
use desk_laws::{DUMP_ACK_MINOR, VERSION_REPLY_MINOR};
use gui_num::Rect;
use gui_wire::{DaemonMsg, spell_daemon, spell_word, spell_xconf};
use io_ports::Outlet;

// The daemon's version of the Qubes GUI protocol: 1.7.
const VERSION: u32 = 0x0001_0007;

// Answers a version word: with the daemon's version from minor version 4 on, and with the size of the
// desktop.
pub(crate) fn greet<O: Outlet>(guest: u32, desk: &Desk, minor: u32, out: &mut O)
    requires wide { desk.now.width ≤ 8192 }
    requires high { desk.now.height ≤ 8192 }
    ensures { (rows : RowsView) → Leads O.takes out.old (replies guest (greeting (sizes_in desk.now rows) minor)) out.new }
{
    if minor >= VERSION_REPLY_MINOR {
        let mut version = [0; 4];
        spell_word(VERSION, &mut version);
        out.reply(guest, &version);
    }
    let mut xconf = [0; 16];
    spell_xconf(desk.width, desk.height, &mut xconf);
    out.reply(guest, &xconf);
}

// 1 for yes, 0 for no.
fn as_one(b: bool) -> u32
    ensures { result ≡ effects.as_one b }
{
    if b { 1 } else { 0 }
}

// The message that tells a window's place, and whether it is placed by itself.
fn place_bytes(window: u32, place: Rect, over: bool) -> [u8; 32]
    ensures { result ≡ tells_place window place over }
{
    let mut bytes = [0; 32];
    let message = DaemonMsg::Configure {
        x: place.x,
        y: place.y,
        width: place.w,
        height: place.h,
        override_redirect: as_one(over),
    };
    spell_daemon(window, &message, &mut bytes);
    bytes
}

// Tells a window's place, and whether it is placed by itself.
pub(crate) fn tell_place<O: Outlet>(guest: u32, window: u32, place: Rect, over: bool, out: &mut O)
    ensures { Leads O.takes out.old (replies guest (tells_place window place over ∷ [])) out.new }
{
    out.reply(guest, &place_bytes(window, place, over));
}

// Whether two places are the same.
fn same_rect(a: Rect, b: Rect) -> bool
    ensures { result ≡ effects.same_rect a b }
{
    (a.x == b.x && a.y == b.y) && (a.w == b.w && a.h == b.h)
}

// Tells the place of an override-redirect window that was put elsewhere, and nothing where it wasn't.
pub(crate) fn tell_move<O: Outlet>(guest: u32, window: u32, old: Rect, new: Rect, out: &mut O)
    ensures { Leads O.takes out.old (replies guest (if effects.same_rect old new then [] else tells_place window new true ∷ [])) out.new }
{
    if !same_rect(old, new) {
        tell_place(guest, window, new, true, out);
    }
}

// Acknowledges a dump, from minor version 7 on.
pub(crate) fn acknowledge<O: Outlet>(guest: u32, window: u32, minor: u32, out: &mut O)
    ensures { Leads O.takes out.old (replies guest (acks minor window)) out.new }
{
    if minor >= DUMP_ACK_MINOR {
        let mut bytes = [0; 12];
        spell_daemon(window, &DaemonMsg::DumpAck, &mut bytes);
        out.reply(guest, &bytes);
    }
}
