//! How a match stands, by the entries of its logs.

use crate::plain::grounds::Ground;
use crate::plain::known::{is_caught, known_of, own_of};
use crate::plain::plain_steps::log_in;
use crate::plain::turns::{may_choose, next_slot, waits_for};
use definitions::{Entry, PlayerId};
use schedule::{Stand, Table};

/// What is asked of a player's log.
#[derive(Clone, Copy)]
enum Asked {
    Caught,
    MayChoose,
}

/// The first honest player of whose log this holds.
fn first_by(ground: &Ground, table: &Table, asked: Asked) -> Option<PlayerId> {
    for player in 0..ground.players {
        if let Some(log) = log_in(table, player) {
            let holds = match asked {
                Asked::Caught => is_caught(ground, log),
                Asked::MayChoose => may_choose(ground, player, log),
            };
            if holds {
                return Some(player);
            }
        }
    }
    None
}

/// The first frame that the owner of the log lacks and another honest player made.
fn gap_of(ground: &Ground, table: &Table, player: PlayerId, log: &[Entry]) -> Option<Stand> {
    for whose in 0..ground.players {
        if whose == player {
            continue;
        }
        if let Some(own) = log_in(table, whose) {
            let next = known_of(ground, log, whose).next();
            if next < own_of(own).made() {
                return Some(Stand::Behind(player, whose, next));
            }
        }
    }
    None
}

/// The first such frame of all players.
fn first_gap(ground: &Ground, table: &Table) -> Option<Stand> {
    for player in 0..ground.players {
        if let Some(log) = log_in(table, player) {
            if let Some(behind) = gap_of(ground, table, player, log) {
                return Some(behind);
            }
        }
    }
    None
}

/// Whether an honest player waits for this one.
fn is_waited_for(ground: &Ground, table: &Table, player: PlayerId) -> bool {
    for owner in 0..ground.players {
        if let Some(log) = log_in(table, owner) {
            if waits_for(ground, owner, log, player) {
                return true;
            }
        }
    }
    false
}

/// The first hostile player for whom an honest one waits.
fn first_holding(ground: &Ground, table: &Table) -> Option<PlayerId> {
    for player in 0..ground.players {
        if log_in(table, player).is_none() && is_waited_for(ground, table, player) {
            return Some(player);
        }
    }
    None
}

/// How the match stands by the logs of its honest players.
pub fn stand_of(ground: &Ground, table: &Table) -> Stand {
    if let Some(player) = first_by(ground, table, Asked::Caught) {
        return Stand::Caught(player);
    }
    if let Some(player) = first_by(ground, table, Asked::MayChoose) {
        return Stand::Moving(player);
    }
    if let Some(behind) = first_gap(ground, table) {
        return behind;
    }
    match first_holding(ground, table) {
        Some(player) => Stand::Held(player),
        None => Stand::Finished,
    }
}

/// Whether the owner of the log made all its frames, has no finding and all turns of the others.
fn is_done(ground: &Ground, player: PlayerId, log: &[Entry]) -> bool {
    for other in 0..ground.players {
        if other != player && known_of(ground, log, other).resolved < ground.turns {
            return false;
        }
    }
    next_slot(ground, log).is_none() && !is_caught(ground, log)
}

/// Whether all honest players are done.
pub fn are_all_done(ground: &Ground, table: &Table) -> bool {
    for player in 0..ground.players {
        if let Some(log) = log_in(table, player) {
            if !is_done(ground, player, log) {
                return false;
            }
        }
    }
    true
}
