// Items spelled by hand, and read.
ghost use Rattle.std.specs.Prelude.{◌≡◌, ◌≤◌, length};
ghost use Rattle.desk_laws.specs.Items.{FitsItem};
ghost use Rattle.record_format.specs.ItemSpellings.{item_spelling};
ghost use Rattle.record_format.specs.ItemFields.{HasFields};

use crate::{
    ConfigRead, MadeFault, Post, config_len, fixed_len, item_of, item_within, post_of, put_config,
    put_made, read_config, spell_item,
};
use desk_laws::{GuestSetup, Guests, Item, MAX_GUESTS, MAX_PAGES, Name, Outputs, Pairs, Setup};
use gui_num::{Colour, Rect};
use io_ports::{MemSink, MemSource, RecordFault, RecordKind};
use std::alloc::Global;
use std::process::Abort;
use std::test::Fail;

fn red(alloc: Global) -> Result<Guests, Fail> {
    let mut guests = Guests::new(alloc);
    guests.push(GuestSetup {
        colour: Colour(0xff_0000),
        name: Name::new(b"red"),
    })?;
    Ok(guests)
}

fn one_output(alloc: Global) -> Result<Outputs, Fail> {
    let mut outputs = Outputs::new(alloc);
    outputs.push(Rect {
        x: 0,
        y: 0,
        w: 8,
        h: 6,
    })?;
    Ok(outputs)
}

// A desktop of 8 by 6 pixels, borders of one pixel, and the guest `red`.
fn small_desktop(alloc: Global) -> Result<Setup, Fail> {
    let guests = red(alloc)?;
    let outputs = one_output(alloc)?;
    Ok(Setup {
        width: 8,
        height: 6,
        border: 1,
        pages: 8192,
        tiles: 4096,
        percent: 90,
        background: Colour(0),
        guests,
        outputs,
        clip: 1,
        denied: Pairs::new(alloc),
    })
}

// An item and its spelling.
fn goes(rt: &impl Abort, setup: &Setup, item: Item, len: usize, spelled: &[u8])
    requires there { item ≡ Item.Idle → ⊥ }
    requires range { FitsItem MAX_GUESTS MAX_PAGES item len }
    requires room { length (item_spelling item len) ≤ 16 }
    requires fields { HasFields spelled.now }
{
    let mut room = [0u8; 16];
    let size = spell_item(&item, len, &mut room);
    assert_eq!(rt; &room[..size], spelled);
    assert_eq!(rt; item_of(spelled, setup), Some((item, len)));
}

#[test]
fn items(rt: HostRuntime) -> Result<(), Fail> {
    let setup = small_desktop(rt.alloc())?;
    goes(
        &rt,
        &setup,
        Item::Bytes { guest: 0 },
        60,
        &[2, 0, 60, 0, 0, 0],
    );
    let store = Item::Store {
        guest: 0,
        delay: 1,
        page: 300,
        offset: 4,
    };
    goes(
        &rt,
        &setup,
        store,
        12,
        &[4, 0, 1, 0, 44, 1, 0, 0, 4, 0, 0, 0, 12, 0, 0, 0],
    );
    let key = Item::Key {
        down: true,
        code: 38,
        state: 5,
    };
    goes(&rt, &setup, key, 0, &[5, 1, 38, 5, 0]);
    let moved = Item::Move {
        x: -1,
        y: 3,
        state: 256,
    };
    goes(
        &rt,
        &setup,
        moved,
        0,
        &[6, 255, 255, 255, 255, 3, 0, 0, 0, 0, 1],
    );
    goes(&rt, &setup, Item::Next, 0, &[8, 2, 0, 0, 0, 0, 0, 0, 0, 0]);
    let size = Item::SizeTo { w: 0, h: 5 };
    goes(&rt, &setup, size, 0, &[8, 5, 0, 0, 0, 0, 5, 0, 0, 0]);
    goes(&rt, &setup, Item::End, 0, &[10]);
    assert_eq!(rt; fixed_len(1), None);
    assert_eq!(rt; fixed_len(4), Some(15));
    assert_eq!(rt;
        item_within(&[3, 1], 2, 1),
        Some((Item::Closed { guest: 1 }, 0))
    );
    // another guest; a state above the most
    assert!(rt; item_of(&[3, 1], &setup).is_none());
    assert!(rt; item_of(&[5, 0, 38, 0, 32], &setup).is_none());
    Ok(())
}

// A setup is written, and read again.
#[test]
fn setup_both_ways(rt: HostRuntime) -> Result<(), Fail> {
    let spelled: [u8; 42] = [
        81, 71, 82, 49, 1, 8, 0, 0, 0, 6, 0, 0, 0, 1, 0, 0, 0, 0, 32, 0, 0, 0, 16, 0, 0, 90, 0, 0,
        0, 0, 0, 0, 0, 1, 0, 0, 255, 0, 3, 114, 101, 100,
    ];
    let alloc = rt.alloc();
    let mut source = MemSource::new(alloc, &spelled, &[])?;
    let setup = match read_config(alloc, &mut source) {
        Ok(setup) => setup,
        Err(_) => {
            assert!(rt; false);
            return Ok(());
        }
    };
    let mut out = MemSink::new(alloc, &[])?;
    assert!(rt; put_config(&setup, &mut out).is_ok());
    assert_eq!(rt; out.bytes(), spelled.as_slice());
    assert_eq!(rt; config_len(&setup), 42);
    Ok(())
}

// A desktop of 8 by 6 pixels with the guests `red` and `b`.
const TWO_GUESTS: [u8; 48] = [
    81, 71, 82, 49, 1, 8, 0, 0, 0, 6, 0, 0, 0, 1, 0, 0, 0, 0, 32, 0, 0, 0, 16, 0, 0, 90, 0, 0, 0,
    0, 0, 0, 0, 2, 0, 0, 255, 0, 3, 114, 101, 100, 255, 0, 0, 0, 1, 98,
];

// What is read of the first 34 bytes of `TWO_GUESTS` with another number of guests.
fn read_with(rt: &HostRuntime, guests: u8) -> Result<Result<Setup, ConfigRead>, Fail> {
    let alloc = rt.alloc();
    let mut head = [0u8; 34];
    head.copy_from_slice(&TWO_GUESTS[..34]);
    head[33] = guests;
    let mut source = MemSource::new(alloc, &head, &[])?;
    Ok(read_config(alloc, &mut source))
}

#[test]
fn two_guests(rt: HostRuntime) -> Result<(), Fail> {
    let alloc = rt.alloc();
    let mut source = MemSource::new(alloc, &TWO_GUESTS, &[])?;
    let setup = match read_config(alloc, &mut source) {
        Ok(setup) => setup,
        Err(_) => {
            assert!(rt; false);
            return Ok(());
        }
    };
    let guests = setup.guests.items();
    assert_eq!(rt; guests.len(), 2);
    if guests.len() == 2 {
        assert_eq!(rt; guests[0].colour, Colour(0xff_0000));
        assert_eq!(rt; guests[0].name.bytes(), b"red".as_slice());
        assert_eq!(rt; guests[1].colour, Colour(0xff));
        assert_eq!(rt; guests[1].name.bytes(), b"b".as_slice());
    }
    let mut out = MemSink::new(alloc, &[])?;
    assert!(rt; put_config(&setup, &mut out).is_ok());
    assert_eq!(rt; out.bytes(), TWO_GUESTS.as_slice());
    assert_eq!(rt; config_len(&setup), 48);
    Ok(())
}

// The number of guests is looked at before the guests, of which there are none here.
#[test]
fn numbers_of_guests(rt: HostRuntime) -> Result<(), Fail> {
    assert!(rt; matches!(read_with(&rt, 0)?, Err(ConfigRead::Rule(1))));
    assert!(rt; matches!(read_with(&rt, 17)?, Err(ConfigRead::Rule(1))));
    assert!(rt; matches!(read_with(&rt, 16)?, Err(ConfigRead::Bad(_))));
    Ok(())
}

// A plane of 12 by 6 pixels with the guest `red`, up to the outputs.
const RED: [u8; 42] = [
    81, 71, 82, 50, 1, 12, 0, 0, 0, 6, 0, 0, 0, 1, 0, 0, 0, 0, 32, 0, 0, 0, 16, 0, 0, 90, 0, 0, 0,
    0, 0, 0, 0, 1, 0, 0, 255, 0, 3, 114, 101, 100,
];

// The same in version 3, with the one output of the whole plane, up to the clipboard.
const RED_WHOLE: [u8; 59] = [
    81, 71, 82, 51, 1, 12, 0, 0, 0, 6, 0, 0, 0, 1, 0, 0, 0, 0, 32, 0, 0, 0, 16, 0, 0, 90, 0, 0, 0,
    0, 0, 0, 0, 1, 0, 0, 255, 0, 3, 114, 101, 100, 1, 0, 0, 0, 0, 0, 0, 0, 0, 12, 0, 0, 0, 6, 0, 0,
    0,
];

// What these bytes are refused for.
fn is_refused(rt: &impl Abort, alloc: Global, bytes: &[u8], why: ConfigRead) -> Result<(), Fail> {
    let mut source = MemSource::new(alloc, bytes, &[])?;
    match read_config(alloc, &mut source) {
        Err(e) => assert_eq!(rt; e, why),
        Ok(_) => assert!(rt; false),
    }
    Ok(())
}

// What a record is refused for that begins so, and goes on so.
fn goes_wrong(
    rt: &impl Abort,
    alloc: Global,
    front: &[u8],
    later: &[u8],
    why: ConfigRead,
) -> Result<(), Fail>
    requires front { length front.now ≤ 59 }
    requires later { length later.now ≤ 33 }
{
    let mut bytes = [0u8; 92];
    let size = front.len() + later.len();
    bytes[..front.len()].copy_from_slice(front);
    bytes[front.len()..size].copy_from_slice(later);
    is_refused(rt, alloc, &bytes[..size], why)
}

const RANGE: ConfigRead = ConfigRead::Bad(RecordFault {
    offset: 4,
    kind: RecordKind::Range,
});

#[test]
fn numbers_of_outputs(rt: HostRuntime) -> Result<(), Fail> {
    let rule = ConfigRead::Rule(17);
    goes_wrong(&rt, rt.alloc(), &RED, &[0], rule)?;
    goes_wrong(&rt, rt.alloc(), &RED, &[9], rule)
}

// An output of 13 by 6, two that share a column, and the whole plane.
#[test]
fn wrong_outputs(rt: HostRuntime) -> Result<(), Fail> {
    let wide: [u8; 17] = [1, 0, 0, 0, 0, 0, 0, 0, 0, 13, 0, 0, 0, 6, 0, 0, 0];
    goes_wrong(&rt, rt.alloc(), &RED, &wide, ConfigRead::Rule(18))?;
    let shared: [u8; 33] = [
        2, 0, 0, 0, 0, 0, 0, 0, 0, 5, 0, 0, 0, 6, 0, 0, 0, 4, 0, 0, 0, 0, 0, 0, 0, 5, 0, 0, 0, 6,
        0, 0, 0,
    ];
    goes_wrong(&rt, rt.alloc(), &RED, &shared, ConfigRead::Rule(19))?;
    let whole: [u8; 17] = [1, 0, 0, 0, 0, 0, 0, 0, 0, 12, 0, 0, 0, 6, 0, 0, 0];
    goes_wrong(&rt, rt.alloc(), &RED, &whole, RANGE)
}

// The revision 3, the pair of a guest and itself, and what needs no version 3.
#[test]
fn wrong_clipboards(rt: HostRuntime) -> Result<(), Fail> {
    goes_wrong(&rt, rt.alloc(), &RED_WHOLE, &[3, 0], ConfigRead::Rule(20))?;
    let itself: [u8; 4] = [1, 1, 0, 0];
    goes_wrong(&rt, rt.alloc(), &RED_WHOLE, &itself, ConfigRead::Rule(21))?;
    goes_wrong(&rt, rt.alloc(), &RED_WHOLE, &[1, 0], RANGE)
}

// Writes what is read of these bytes: the same bytes.
fn both_ways(rt: &impl Abort, alloc: Global, bytes: &[u8]) -> Result<(), Fail> {
    let mut source = MemSource::new(alloc, bytes, &[])?;
    let setup = match read_config(alloc, &mut source) {
        Ok(setup) => setup,
        Err(_) => {
            assert!(rt; false);
            return Ok(());
        }
    };
    let mut out = MemSink::new(alloc, &[])?;
    assert!(rt; put_config(&setup, &mut out).is_ok());
    assert_eq!(rt; out.bytes(), bytes);
    assert_eq!(rt; config_len(&setup), bytes.len() as u64);
    Ok(())
}

// Two outputs of 5 by 6, at (0,0) and (7,0).
#[test]
fn two_outputs(rt: HostRuntime) -> Result<(), Fail> {
    let spelled: [u8; 75] = [
        81, 71, 82, 50, 1, 12, 0, 0, 0, 6, 0, 0, 0, 1, 0, 0, 0, 0, 32, 0, 0, 0, 16, 0, 0, 90, 0, 0,
        0, 0, 0, 0, 0, 1, 0, 0, 255, 0, 3, 114, 101, 100, 2, 0, 0, 0, 0, 0, 0, 0, 0, 5, 0, 0, 0, 6,
        0, 0, 0, 7, 0, 0, 0, 0, 0, 0, 0, 5, 0, 0, 0, 6, 0, 0, 0,
    ];
    both_ways(&rt, rt.alloc(), &spelled)
}

// `TWO_GUESTS` in version 3, with the one output of the whole plane, the revision 1 and the pairs (0,1), (1,0).
const TWO_PAIRS: [u8; 71] = [
    81, 71, 82, 51, 1, 8, 0, 0, 0, 6, 0, 0, 0, 1, 0, 0, 0, 0, 32, 0, 0, 0, 16, 0, 0, 90, 0, 0, 0,
    0, 0, 0, 0, 2, 0, 0, 255, 0, 3, 114, 101, 100, 255, 0, 0, 0, 1, 98, 1, 0, 0, 0, 0, 0, 0, 0, 0,
    8, 0, 0, 0, 6, 0, 0, 0, 1, 2, 0, 1, 1, 0,
];

#[test]
fn pairs(rt: HostRuntime) -> Result<(), Fail> {
    both_ways(&rt, rt.alloc(), &TWO_PAIRS)
}

// The same pairs in the other order.
#[test]
fn pairs_that_do_not_rise(rt: HostRuntime) -> Result<(), Fail> {
    let pairs: [u8; 6] = [1, 2, 1, 0, 0, 1];
    let mut bytes = TWO_PAIRS;
    bytes[65..].copy_from_slice(&pairs);
    is_refused(&rt, rt.alloc(), &bytes, ConfigRead::Rule(22))
}

// A reply to guest 1 of the bytes `hi`, and then a summary.
const TWO_POSTS: [u8; 41] = [
    1, 1, 2, 0, 0, 0, 104, 105, 4, 5, 0, 0, 0, 0, 0, 0, 0, 3, 0, 0, 0, 0, 0, 0, 0, 2, 0, 0, 0, 0,
    0, 0, 0, 1, 0, 0, 0, 0, 0, 0, 0,
];

#[test]
fn posts(rt: HostRuntime) -> Result<(), Fail> {
    let bytes = &TWO_POSTS;
    let reply = Post::Reply {
        guest: 1,
        bytes: b"hi",
    };
    assert_eq!(rt; post_of(bytes), Some((reply, 8)));
    let summary = Post::Summary {
        items: 5,
        messages: 3,
        glances: 2,
        painted: 1,
    };
    assert_eq!(rt; post_of(&bytes[8..]), Some((summary, 33)));
    assert!(rt; post_of(&bytes[..7]).is_none());
    assert!(rt; post_of(&bytes[8..40]).is_none());
    Ok(())
}

// The end of the record of two rounds: a report of 16 by 16 pixels from (39, 22) on by the first guest, a click, the
// last picture and the end.
const END_OF_TWO_ROUNDS: [u8; 46] = [
    2, 0, 28, 0, 0, 0, 136, 0, 0, 0, 1, 0, 0, 0, 16, 0, 0, 0, 39, 0, 0, 0, 22, 0, 0, 0, 16, 0, 0,
    0, 16, 0, 0, 0, 7, 1, 1, 0, 0, 7, 0, 1, 0, 0, 9, 10,
];

// A record is made of a number, whole, or up to the write that fails.
#[test]
fn made_from_a_number(rt: HostRuntime) -> Result<(), Fail> {
    let alloc = rt.alloc();
    let mut out = MemSink::new(alloc, &[])?;
    assert!(rt; put_made(alloc, 2, &mut out).is_ok());
    assert_eq!(rt; out.bytes().len(), 608);
    assert!(rt; out.bytes().ends_with(&END_OF_TWO_ROUNDS));
    let mut cut = MemSink::new(alloc, &[2])?;
    assert_eq!(rt; put_made(alloc, 2, &mut cut), Err(MadeFault::Failed));
    assert_eq!(rt; cut.bytes().len(), 34);
    Ok(())
}
