// Messages with hand-computed causes. A page has 4096 bytes, which are 1024 pixels.
ghost use Rattle.std.specs.Prelude.{◌≡◌, ◌≤◌, ◌%◌, [], ◌∷◌, length};
ghost use Rattle.message_checks.specs.TestRows.{row_of};

use super::*;
use gui_num::Rect;
use gui_wire::Refs;

// A guest with the windows 1 and 2, whose dumps have so many references.
#[derive(Drop)]
struct Two {
    of_one: u16,
    of_two: u16,
}

impl Ids for Two {
    ghost rows = { λ s. row_of 1 s.of_one ∷ row_of 2 s.of_two ∷ [] };

    fn known(&self, window: u32) -> bool {
        window == 1 || window == 2
    }

    fn count(&self) -> u32 {
        2
    }

    fn refs_besides(&self, window: u32) -> u32 {
        match window {
            1 => u32::from(self.of_two),
            2 => u32::from(self.of_one),
            _ => u32::from(self.of_one) + u32::from(self.of_two),
        }
    }
}

// The cause of a dump with these references, as they stand in its body, for window 1 of a guest
// whose window 2 has so many references.
fn dump_cause(side: u32, bpp: u32, refs: &[u8], pages: u32, of_two: u16) -> Option<Cause>
    requires whole { length refs.now % 4 ≡ 0 }
    requires small { length refs.now ≤ 393216 }
    requires pages { pages ≤ 16384 }
    requires held { of_two ≤ pages }
{
    let msg = AgentMsg::Dump {
        kind: 0,
        width: side,
        height: side,
        bpp,
        refs: Refs::new(refs),
    };
    let header = Header {
        kind: 147,
        window: 1,
        len: 16 + refs.len() as u32,
    };
    check(&msg, header, &Limits { pages }, &Two { of_one: 3, of_two }).err()
}

#[test]
fn dumps(rt: HostRuntime) {
    let four = [0, 0, 0, 0, 1, 0, 0, 0, 2, 0, 0, 0, 3, 0, 0, 0];
    let again = [0, 0, 0, 0, 1, 0, 0, 0, 2, 0, 0, 0, 0, 0, 0, 0];
    // 64 by 64 pixels need 4 pages.
    assert_eq!(rt;
        dump_cause(64, 32, &four, 3, 0),
        Some(Cause::RefRange { a: 3, b: 3 })
    );
    assert_eq!(rt;
        dump_cause(64, 32, &again, 3, 0),
        Some(Cause::FrameBudget { a: 4, b: 3 })
    );
    assert_eq!(rt; dump_cause(64, 24, &four, 4, 0), None);
    assert_eq!(rt; dump_cause(64, 24, &four, 6, 2), None);
    assert_eq!(rt;
        dump_cause(64, 24, &four, 5, 2),
        Some(Cause::FrameBudget { a: 6, b: 5 })
    );
    // 10 by 10 pixels need one.
    assert_eq!(rt;
        dump_cause(10, 32, &[], 4, 0),
        Some(Cause::BadLength { a: 16, b: 0 })
    );
    assert_eq!(rt;
        dump_cause(10, 16, &[], 4, 0),
        Some(Cause::BadRange { a: 4, b: 16 })
    );
    assert_eq!(rt;
        dump_cause(10, 32, &[4, 0, 0, 0], 4, 0),
        Some(Cause::RefRange { a: 4, b: 4 })
    );
    assert_eq!(rt;
        dump_cause(6145, 32, &[], 4, 0),
        Some(Cause::BadRange { a: 3, b: 6145 })
    );
}

fn create(width: u32) -> AgentMsg<'static> {
    AgentMsg::Create {
        x: 40_000,
        y: 4_294_967_291,
        width,
        height: 0,
        parent: 7,
        override_redirect: 1,
    }
}

fn configure(width: u32) -> AgentMsg<'static> {
    AgentMsg::Configure {
        x: 0,
        y: 0,
        width,
        height: 10,
        override_redirect: 0,
    }
}

// The command for a window of a guest that has the windows 1 and 2.
fn checked<'a>(msg: &AgentMsg<'a>, kind: u32, window: u32) -> Result<Command<'a>, Cause> {
    let header = Header {
        kind,
        window,
        len: 24,
    };
    check(
        msg,
        header,
        &Limits { pages: 3 },
        &Two {
            of_one: 0,
            of_two: 0,
        },
    )
}

#[test]
fn places(rt: HostRuntime) {
    // A y of 4294967291 is -5.
    match checked(&create(20_000), 130, 3) {
        Ok(
            Command::Create {
                rect,
                parent,
                override_redirect,
            },
        ) => {
            assert_eq!(rt;
                rect,
                Rect {
                    x: 32_767,
                    y: -5,
                    w: 16_384,
                    h: 1
                }
            );
            assert_eq!(rt; (parent, override_redirect), (7, 1));
        }
        _ => assert!(rt; false),
    }
    match checked(&configure(20_000), 134, 1) {
        Ok(
            Command::Configure {
                rect,
                override_redirect,
            },
        ) => {
            assert_eq!(rt;
                rect,
                Rect {
                    x: 0,
                    y: 0,
                    w: 16_384,
                    h: 10
                }
            );
            assert_eq!(rt; override_redirect, 0);
        }
        _ => assert!(rt; false),
    }
}

#[test]
fn windows(rt: HostRuntime) {
    let wide = 2_147_483_648;
    let too_wide = Some(Cause::BadRange { a: 3, b: wide });
    assert_eq!(rt; checked(&create(wide), 130, 3).err(), too_wide);
    assert_eq!(rt;
        checked(&create(wide), 130, 0).err(),
        Some(Cause::BadRange { a: 0, b: 0 })
    );
    assert_eq!(rt;
        checked(&create(1), 130, 1).err(),
        Some(Cause::WindowExists { a: 1, b: 0 })
    );
    // The range comes before the window.
    assert_eq!(rt; checked(&configure(wide), 134, 9).err(), too_wide);
    assert_eq!(rt;
        checked(&configure(1), 134, 9).err(),
        Some(Cause::UnknownWindow { a: 9, b: 0 })
    );
    assert_eq!(rt; checked(&AgentMsg::Clip { bytes: &[] }, 140, 9).err(), None);
}
