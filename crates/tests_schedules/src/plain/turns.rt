//! Whom the owner of a log waits for, and what it may do next, by the entries alone.

use crate::plain::grounds::Ground;
use crate::plain::known::{Known, chosen_for, is_caught, known_of, own_of, own_track};
use definitions::{Entry, PlayerId, Slot, Turn, TurnFrame, What};
use std::alloc::AllocError;

/// Whether the player could meet the owner in the turn, as far as the log shows.
fn could_meet(
    ground: &Ground,
    me: PlayerId,
    log: &[Entry],
    player: PlayerId,
    known: &Known,
    turn: Turn,
) -> bool {
    if known.resolved > turn {
        return false;
    }
    let own = own_track(ground, me, log, turn).at;
    let walks = turn.saturating_sub(known.resolved).saturating_add(1);
    ground.have_common((me, own), (player, known.track.at), walks)
}

/// Whether the owner's next frame has to wait for the player; behind the last one, whether a turn
/// of the player isn't resolved.
pub fn waits_for(ground: &Ground, me: PlayerId, log: &[Entry], player: PlayerId) -> bool {
    if player == me {
        return false;
    }
    let own = own_of(log);
    let seen = known_of(ground, log, player);
    match ground.slot_behind(own.commits, own.reveals) {
        None => seen.resolved < ground.turns,
        Some(slot) => match slot.what {
            What::Commit => {
                let turn = slot.turn.saturating_sub(ground.ahead);
                slot.turn >= ground.ahead && could_meet(ground, me, log, player, &seen, turn)
            }
            What::Reveal => {
                seen.held <= slot.turn && could_meet(ground, me, log, player, &seen, slot.turn)
            }
        },
    }
}

/// Whether the owner waits for anybody.
fn waits(ground: &Ground, me: PlayerId, log: &[Entry]) -> bool {
    for player in 0..ground.players {
        if waits_for(ground, me, log, player) {
            return true;
        }
    }
    false
}

/// The frame that comes next in the owner's stream, if one is left.
pub fn next_slot(ground: &Ground, log: &[Entry]) -> Option<Slot> {
    let own = own_of(log);
    ground.slot_behind(own.commits, own.reveals)
}

/// Whether the owner may choose a move.
pub fn may_choose(ground: &Ground, me: PlayerId, log: &[Entry]) -> bool {
    match next_slot(ground, log) {
        None => false,
        Some(slot) => {
            slot.what == What::Commit
                && own_of(log).chosen == slot.turn
                && !is_caught(ground, log)
                && !waits(ground, me, log)
        }
    }
}

/// The frame that the owner makes next, if it may.
pub fn next_frame(ground: &Ground, me: PlayerId, log: &[Entry]) -> Option<TurnFrame> {
    let slot = next_slot(ground, log)?;
    let (mv, nonce) = chosen_for(log, slot.turn)?;
    if is_caught(ground, log) || waits(ground, me, log) {
        return None;
    }
    Some(ground.frame_of(me, &slot, mv, nonce))
}

/// Makes each frame that the owner may make.
pub fn make_all(ground: &Ground, me: PlayerId, log: &mut Vec<Entry>) -> Result<(), AllocError> {
    for _place in 0..ground.turns.saturating_mul(2) {
        match next_frame(ground, me, log.as_slice()) {
            None => return Ok(()),
            Some(frame) => log.push(Entry::Made(frame))?,
        }
    }
    Ok(())
}
