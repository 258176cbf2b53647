// Configurations written by hand, and what is to be read of them.
use crate::{ConfigFault, Live, read};
use desk_laws::{GuestSetup, Pair};
use gui_num::{Colour, Rect};
use std::alloc::Global;

const LEFT: Rect = Rect {
    x: 0,
    y: 0,
    w: 10,
    h: 8,
};

const RIGHT: Rect = Rect {
    x: 10,
    y: 0,
    w: 10,
    h: 10,
};

const PLANE: Rect = Rect {
    x: 0,
    y: 0,
    w: 8,
    h: 6,
};

// The fault that these bytes have, where they have one.
fn fault_of(alloc: Global, bytes: &[u8]) -> Option<ConfigFault> {
    match read(alloc, bytes) {
        Ok(_) => None,
        Err(fault) => Some(fault),
    }
}

fn is_guest(guest: &GuestSetup, name: &[u8], colour: u32) -> bool {
    guest.name.bytes() == name && guest.colour == Colour(colour)
}

// Whether all that isn't written of a desk of 8 by 6 pixels is what it usually is.
fn has_usual(live: &Live) -> bool {
    let setup = &live.setup;
    let rooms = setup.pages == 8192 && setup.tiles == 4096 && setup.percent == 90;
    let looks = setup.background == Colour(0) && setup.outputs.items() == [PLANE].as_slice();
    let pastes = setup.clip == 1 && setup.denied.items().is_empty();
    rooms && looks && pastes && live.idle == 1_000_000
}

#[test]
fn reads_a_small_desk(rt: HostRuntime) -> Result<(), ConfigFault> {
    let live = read(
        rt.alloc(),
        b"width = 8
height = 6
border = 1
[[guest]]
name = \"red\"
colour = \"ff0000\"
",
    )?;
    let setup = &live.setup;
    assert!(rt; setup.width == 8 && setup.height == 6 && setup.border == 1);
    assert!(rt; has_usual(&live));
    let guests = setup.guests.items();
    assert!(rt; guests.len() == 1);
    assert!(rt; is_guest(&guests[0], b"red", 0xff_0000));
    Ok(())
}

#[test]
fn reads_all_keys(rt: HostRuntime) -> Result<(), ConfigFault> {
    let live = read(
        rt.alloc(),
        b"deny = [{from = \"b-2\", to = \"a\"}, {from = \"a\", to = \"b-2\"}]
clip = 2
idle = 3
background = \"20aAFf\"
percent = 50
tiles = 32
pages = 64
border = 3
height = 10
width = 20
output = [{x = 10, y = 0, w = 10, h = 10}, {h = 8, w = 10, y = 0, x = 0}]
guest = [{name = \"a\", colour = \"00ff00\"}, {colour = \"0000FF\", name = \"b-2\"}]
",
    )?;
    let setup = &live.setup;
    assert!(rt; setup.width == 20 && setup.height == 10 && setup.border == 3);
    assert!(rt; setup.pages == 64 && setup.tiles == 32 && setup.percent == 50);
    assert!(rt; setup.background == Colour(0x20_aaff) && live.idle == 3 && setup.clip == 2);
    let guests = setup.guests.items();
    assert!(rt; guests.len() == 2);
    assert!(rt; is_guest(&guests[0], b"a", 0x00_ff00));
    assert!(rt; is_guest(&guests[1], b"b-2", 0x00_00ff));
    assert!(rt; setup.outputs.items() == [RIGHT, LEFT].as_slice());
    assert!(rt;
        setup.denied.items() == [Pair { from: 0, to: 1 }, Pair { from: 1, to: 0 }].as_slice()
    );
    Ok(())
}

#[test]
fn refuses_what_is_no_document(rt: HostRuntime) {
    let fault = Some(ConfigFault::NotToml);
    assert!(rt; fault_of(rt.alloc(), b"width =") == fault);
    assert!(rt; fault_of(rt.alloc(), b"width = 8\nwidth = 8") == fault);
    assert!(rt; fault_of(rt.alloc(), b"# \xff") == fault);
}

#[test]
fn refuses_another_shape(rt: HostRuntime) {
    let fault = Some(ConfigFault::Shape);
    assert!(rt; fault_of(rt.alloc(), b"") == fault);
    assert!(rt; fault_of(rt.alloc(), b"width = \"8\"\nheight = 6") == fault);
    assert!(rt; fault_of(rt.alloc(), b"width = 8\nheight = 6\ndepth = 24") == fault);
    assert!(rt; fault_of(rt.alloc(), b"width = 8\nheight = 6\nidle = 0") == fault);
    assert!(rt; fault_of(rt.alloc(), b"width = 8\nheight = 4294967296") == fault);
    assert!(rt;
        fault_of(
            rt.alloc(),
            b"width = 8\nheight = 6\nbackground = \"00000g\""
        ) == fault
    );
    assert!(rt;
        fault_of(
            rt.alloc(),
            b"width = 8\nheight = 6\nguest = [{name = \"red\"}]"
        ) == fault
    );
}

#[test]
fn refuses_a_setup_that_breaks_a_rule(rt: HostRuntime) {
    assert!(rt; fault_of(rt.alloc(), b"width = 8\nheight = 6") == Some(ConfigFault::Rule(1)));
    let thick = b"width = 8
height = 6
border = 17
guest = [{name = \"red\", colour = \"ff0000\"}]";
    assert!(rt; fault_of(rt.alloc(), thick) == Some(ConfigFault::Rule(5)));
    let stranger = b"width = 8
height = 6
guest = [{name = \"red\", colour = \"ff0000\"}]
deny = [{from = \"red\", to = \"blue\"}]";
    assert!(rt; fault_of(rt.alloc(), stranger) == Some(ConfigFault::Rule(21)));
}
