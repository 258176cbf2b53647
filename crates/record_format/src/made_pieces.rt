// The pieces of guests' bytes in a made record.
ghost use Rattle.std.specs.Prelude.{◌≡◌, ◌<◌, ◌+◌, ◌*◌};
ghost use Rattle.desk_laws.specs.Rows.{span};
ghost use Rattle.gui_wire.specs.Words.{word};
ghost use Rattle.gui_wire.specs.AgentMessages.{spelling, Create, Map, WindowDump};
ghost use Rattle.record_format.specs.MadeRecord.{opening_bytes, report_bytes, place_bytes};

use gui_wire::{AgentMsg, Refs, spell_agent};

// The agents' version of the Qubes GUI protocol: 1.7.
const VERSION: u32 = 0x0001_0007;

// The one window of each guest.
const WINDOW: u32 = 1;

// Its width and height in pixels.
const WIDTH: u32 = 100;

const HEIGHT: u32 = 80;

// The references 0 to 7, as they stand in a message.
const REFERENCES: [u8; 32] = [
    0, 0, 0, 0, 1, 0, 0, 0, 2, 0, 0, 0, 3, 0, 0, 0, 4, 0, 0, 0, 5, 0, 0, 0, 6, 0, 0, 0, 7, 0, 0, 0,
];

fn version_bytes() -> [u8; 4]
    ensures { result ≡ word 65543 }
{
    VERSION.to_le_bytes()
}

fn create_bytes(guest: u32) -> [u8; 36]
    requires { guest < 4 }
    ensures { result ≡ spelling 1 (Create (40 + 120 * guest) (40 + 60 * guest) 100 80 0 0) }
{
    let mut bytes = [0; 36];
    let message = AgentMsg::Create {
        x: 40 + 120 * guest,
        y: 40 + 60 * guest,
        width: WIDTH,
        height: HEIGHT,
        parent: 0,
        override_redirect: 0,
    };
    spell_agent(WINDOW, &message, &mut bytes);
    bytes
}

fn map_bytes() -> [u8; 20]
    ensures { result ≡ spelling 1 (Map 0 0) }
{
    let mut bytes = [0; 20];
    let message = AgentMsg::Map {
        transient_for: 0,
        override_redirect: 0,
    };
    spell_agent(WINDOW, &message, &mut bytes);
    bytes
}

fn dump_bytes() -> [u8; 60]
    ensures { result ≡ spelling 1 (WindowDump 0 100 80 32 (span 0 8)) }
{
    let mut bytes = [0; 60];
    let message = AgentMsg::Dump {
        kind: 0,
        width: WIDTH,
        height: HEIGHT,
        bpp: 32,
        refs: Refs::new(&REFERENCES),
    };
    spell_agent(WINDOW, &message, &mut bytes);
    bytes
}

// What a guest begins with: its version, and its window, created, mapped and given its pages.
#[tactic(auto, unfolding(crate::specs::MadeRecord::opening_bytes))]
pub(crate) fn opening_bytes(guest: u32) -> [u8; 120]
    requires { guest < 4 }
    ensures { result ≡ opening_bytes guest }
{
    let mut bytes = [0u8; 120];
    bytes[..4].copy_from_slice(&version_bytes());
    bytes[4..40].copy_from_slice(&create_bytes(guest));
    bytes[40..60].copy_from_slice(&map_bytes());
    bytes[60..].copy_from_slice(&dump_bytes());
    bytes
}

// The report of a changed part of the window.
#[tactic(auto, unfolding(crate::specs::MadeRecord::report_bytes))]
pub(crate) fn report_bytes(u: u32) -> [u8; 28]
    ensures { result ≡ report_bytes u }
{
    let mut bytes = [0; 28];
    let message = AgentMsg::Shmimage {
        x: u % WIDTH,
        y: u / WIDTH % HEIGHT,
        width: 16,
        height: 16,
    };
    spell_agent(WINDOW, &message, &mut bytes);
    bytes
}

// The window's own move to another place.
#[tactic(auto, unfolding(crate::specs::MadeRecord::place_bytes))]
pub(crate) fn place_bytes(u: u32) -> [u8; 32]
    ensures { result ≡ place_bytes u }
{
    let mut bytes = [0; 32];
    let message = AgentMsg::Configure {
        x: u % 600,
        y: u / 600 % 440,
        width: WIDTH,
        height: HEIGHT,
        override_redirect: 0,
    };
    spell_agent(WINDOW, &message, &mut bytes);
    bytes
}
