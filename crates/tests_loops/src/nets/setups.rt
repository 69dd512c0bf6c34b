//! The scripts, the sides and the network of a session's players.

use crate::nets::links::Net;
use crate::nets::sides::{Fails, Made, Player, Room};
use definitions::PlayerId;
use grid_world::Session;
use match_sides::texts::roster_of;
use std::alloc::Global;
use std::test::Fail;

/// Eight turns at the start of player 0, and eight at that of player 1.
pub const STAY_0: &[u8] = b"0 0\n0 0\n0 0\n0 0\n0 0\n0 0\n0 0\n0 0\n";

pub const STAY_9: &[u8] = b"9 0\n9 0\n9 0\n9 0\n9 0\n9 0\n9 0\n9 0\n";

/// The side of a player, which begins.
pub fn side_of(
    alloc: Global,
    session: &Session,
    me: PlayerId,
    fails: Fails,
    most: Option<usize>,
    room: Room,
) -> Result<Player, Fail> {
    let roster = roster_of(alloc, me, session.players())?;
    let seed = 100 + u64::from(me);
    let made = Made {
        session,
        me,
        roster: &roster,
        seed,
        fails,
        most,
        room,
    };
    Player::new(alloc, &made)
}

/// The sides of a match, each of which begins.
pub fn net_of(alloc: Global, session: &Session, size: usize, room: Room) -> Result<Net, Fail> {
    let mut net = Net::new(alloc, size);
    for me in 0..session.players() {
        let side = side_of(alloc, session, me, Fails::Nothing, None, room)?;
        net.add(side)?;
    }
    Ok(net)
}

/// One side alone, which begins: what comes to it, a test brings.
pub fn alone(alloc: Global, session: &Session, me: PlayerId, room: Room) -> Result<Player, Fail> {
    side_of(alloc, session, me, Fails::Nothing, None, room)
}
