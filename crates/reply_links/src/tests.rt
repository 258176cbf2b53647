// The links of two guests over a wire in memory, with ample memory.
ghost use Rattle.std.specs.Prelude.{◌≡◌, [], IfOk};

use crate::{LinkState, Links};
use gui_num::NoMemory;
use io_ports::{MemWire, SendFail};
use std::alloc::Global;
use std::test::Fail;

// A wire for two guests, whose second send to guest 1 fails after two bytes.
fn failing_wire(alloc: Global) -> Result<MemWire, NoMemory>
    ensures { IfOk result (λ w. w.feed.guests ≡ 2) }
{
    let second = SendFail {
        guest: 1,
        nth: 2,
        sent: 2,
    };
    MemWire::new(alloc, 2, 8, &[], &[], None, &[], &[second])
}

#[test]
fn cut_guest_is_sent_nothing_more(rt: HostRuntime) -> Result<(), Fail> {
    let mut wire = failing_wire(rt.alloc())?;
    let mut links = Links::new(rt.alloc(), 2)?;
    links.send(&mut wire, 1, b"ab");
    links.send(&mut wire, 1, b"hello");
    assert_eq!(rt; links.first_cut(), Some(1));
    links.send(&mut wire, 1, b"c");
    links.send(&mut wire, 0, b"xyz");
    links.send(&mut wire, 7, b"nobody");
    assert_eq!(rt; wire.sent(0), b"xyz".as_slice());
    assert_eq!(rt; wire.sent(1), b"abhe".as_slice());
    Ok(())
}

#[test]
fn lost_guest_is_cut_no_longer(rt: HostRuntime) -> Result<(), Fail> {
    let mut wire = failing_wire(rt.alloc())?;
    let mut links = Links::new(rt.alloc(), 2)?;
    links.send(&mut wire, 1, b"ab");
    links.send(&mut wire, 1, b"hello");
    links.lose(1);
    assert_eq!(rt; links.first_cut(), None);
    assert_eq!(rt; links.state(1), LinkState::Lost);
    assert_eq!(rt; links.state(0), LinkState::Open);
    links.send(&mut wire, 1, b"c");
    assert_eq!(rt; wire.sent(1), b"abhe".as_slice());
    Ok(())
}
