//! A roster as it is read.

use crate::sessions::session_of;
use rosters::{Addr, Link, Roster, read_roster};
use std::test::Fail;

/// A session of three players.
const SESSION: &[u8] =
    b"playout 1\ngrid 12 1\nrules 1 1 0\ncharge 1 2 1\nturns 3\nplayers 3\nplayer 0 0 0\nplayer 1 9 0\nplayer 2 11 0\nend\n";

/// The roster of player 1 there.
const ROSTER: &[u8] =
    b"roster 1\nme 127.0.0.1 7001\npeer 0 10.0.0.255 65535 00112233445566778899aabbccddeeff 000102030405060708090a0b0c0d0e0f\npeer 2 0.0.0.0 1 ffffffffffffffffffffffffffffffff 00000000000000000000000000000000\nend\n";

/// The links that the roster has.
fn wanted() -> [Link; 2] {
    let rising = [0, 1, 2, 3, 4, 5, 6, 7, 8, 9, 10, 11, 12, 13, 14, 15];
    let doubled = [
        0x00, 0x11, 0x22, 0x33, 0x44, 0x55, 0x66, 0x77, 0x88, 0x99, 0xaa, 0xbb, 0xcc, 0xdd, 0xee,
        0xff,
    ];
    let first = Link {
        player: 0,
        addr: Addr {
            ip: [10, 0, 0, 255],
            port: 65535,
        },
        shows: doubled,
        wants: rising,
    };
    let second = Link {
        player: 2,
        addr: Addr {
            ip: [0, 0, 0, 0],
            port: 1,
        },
        shows: [255; 16],
        wants: [0; 16],
    };
    [first, second]
}

#[test]
fn a_roster_is_read(rt: HostRuntime) -> Result<(), Fail> {
    let session = session_of(rt.alloc(), SESSION)?;
    let roster = read_roster(rt.alloc(), ROSTER, &session, 1).map_err(|_| "refused")?;
    let me = Addr {
        ip: [127, 0, 0, 1],
        port: 7001,
    };
    assert_eq!(rt; roster.me(), me);
    assert!(rt; roster.links() == wanted().as_slice());
    let links = Vec::from_slice(rt.alloc(), wanted().as_slice())?;
    let kept = Roster::new(me, links);
    assert_eq!(rt; kept.me(), me);
    assert!(rt; kept.links() == roster.links());
    Ok(())
}
