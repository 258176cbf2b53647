// Spellings that were worked by hand from the tables of the protocol.
use super::*;

const CREATE: [u8; 36] = [
    0x82, 0, 0, 0, 1, 0, 0, 0, 0x18, 0, 0, 0, 2, 0, 0, 0, 2, 0, 0, 0, 2, 0, 0, 0, 2, 0, 0, 0, 0, 0,
    0, 0, 0, 0, 0, 0,
];

const MAP: [u8; 20] = [
    0x84, 0, 0, 0, 1, 0, 0, 0, 8, 0, 0, 0, 0, 0, 0, 0, 0, 0, 0, 0,
];

const XCONF: [u8; 16] = [8, 0, 0, 0, 6, 0, 0, 0, 0x18, 0, 0, 0, 1, 0, 0, 0];

const VERSION: [u8; 4] = [7, 0, 1, 0];

const CONFIGURE: [u8; 32] = [
    0x86, 0, 0, 0, 1, 0, 0, 0, 0x14, 0, 0, 0, 0xff, 0xff, 0xff, 0xff, 2, 0, 0, 0, 3, 0, 0, 0, 4, 0,
    0, 0, 1, 0, 0, 0,
];

// The headers of clipboard data: 256,000 bytes, and one byte more.
const LONGEST_DATA: [u8; 12] = [0x8c, 0, 0, 0, 1, 0, 0, 0, 0, 0xe8, 3, 0];

const LONGER_DATA: [u8; 12] = [0x8c, 0, 0, 0, 1, 0, 0, 0, 1, 0xe8, 3, 0];

#[test]
fn spells_what_an_agent_says(rt: HostRuntime) {
    let create = AgentMsg::Create {
        x: 2,
        y: 2,
        width: 2,
        height: 2,
        parent: 0,
        override_redirect: 0,
    };
    let map = AgentMsg::Map {
        transient_for: 0,
        override_redirect: 0,
    };
    let mut out = [0u8; 56];
    assert_eq!(rt; agent_len(&create), 36);
    assert_eq!(rt; spell_agent(1, &create, &mut out), 36);
    assert_eq!(rt; spell_agent(1, &map, &mut out[36..]), 20);
    assert!(rt; &out[..36] == CREATE.as_slice());
    assert!(rt; &out[36..] == MAP.as_slice());
}

#[test]
fn reads_what_an_agent_says(rt: HostRuntime) {
    let header = header_of(&CREATE);
    assert_eq!(rt;
        header,
        Header {
            kind: 130,
            window: 1,
            len: 24
        }
    );
    assert_eq!(rt; length_rule(135), LengthRule::Unknown);
    assert_eq!(rt; head_check(header), Ok(()));
    assert_eq!(rt;
        head_check(Header {
            kind: 138,
            ..header
        }),
        Err(WireFault::Kind(138))
    );
    assert_eq!(rt;
        head_check(Header { len: 23, ..header }),
        Err(WireFault::Length(23))
    );
    match body_of(&CREATE[12..], header) {
        Ok(
            AgentMsg::Create {
                x,
                y,
                width,
                height,
                parent,
                override_redirect,
            },
        ) => {
            assert_eq!(rt;
                [x, y, width, height, parent, override_redirect],
                [2, 2, 2, 2, 0, 0]
            );
        }
        _ => panic!(rt; "no CREATE"),
    }
    let refs = Refs::new(&MAP[..8]);
    assert_eq!(rt; (refs.count(), refs.at(0), refs.at(1)), (2, 132, 1));
}

#[test]
fn spells_and_reads_what_the_daemon_says(rt: HostRuntime) {
    let mut out = [0u8; 32];
    assert_eq!(rt; spell_xconf(8, 6, &mut out), 16);
    assert!(rt; &out[..16] == XCONF.as_slice());
    assert_eq!(rt; spell_word(65543, &mut out), 4);
    assert!(rt; &out[..4] == VERSION.as_slice());
    let configure = DaemonMsg::Configure {
        x: -1,
        y: 2,
        width: 3,
        height: 4,
        override_redirect: 1,
    };
    assert_eq!(rt; daemon_len(&configure), 32);
    assert_eq!(rt; spell_daemon(1, &configure, &mut out), 32);
    assert_eq!(rt; out, CONFIGURE);
    assert!(rt;
        matches!(
            read_daemon(&out),
            ReadDaemon::Whole {
                window: 1,
                msg: DaemonMsg::Configure {
                    x: -1,
                    y: 2,
                    width: 3,
                    height: 4,
                    override_redirect: 1
                },
                used: 32
            }
        )
    );
    assert!(rt; matches!(read_daemon(&out[..31]), ReadDaemon::Need { more: 1 }));
    assert!(rt; matches!(read_daemon(&MAP), ReadDaemon::Skip { used: 20 }));
    out[8] = 0x15;
    assert!(rt; matches!(read_daemon(&out), ReadDaemon::Bad { len: 21 }));
    law_spelling();
}

#[test]
fn refuses_longer_clipboard_data_by_its_header(rt: HostRuntime) {
    assert!(rt;
        matches!(
            read_daemon(&LONGEST_DATA),
            ReadDaemon::Need { more: 256_000 }
        )
    );
    assert!(rt; matches!(read_daemon(&LONGER_DATA), ReadDaemon::Bad { len: 256_001 }));
}
