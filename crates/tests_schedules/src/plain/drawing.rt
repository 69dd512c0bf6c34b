//! Steps of drawn matches: what honest players choose and get, and what hostile ones send.

use crate::plain::dice::{Dice, Match};
use crate::plain::grounds::Ground;
use crate::plain::known::{known_of, own_of, own_track};
use crate::plain::plain_steps::{least_keep, log_in};
use crate::plain::turns::waits_for;
use crate::plain::worlds::nonce_of;
use definitions::{Cell, Move, Nonce, PlayerId, Slot, Track, TurnFrame, What};
use schedule::{Stand, Step, Table};

/// A cell near this one, up to so many columns and rows away.
fn cell_near(dice: &mut Dice, at: Cell, away: u8) -> Cell {
    let x = dice.near(at.x, away);
    let y = dice.near(at.y, away);
    Cell { x, y }
}

/// Now and then a cell near this one.
fn any_strike(dice: &mut Dice, at: Cell, reach: u8) -> Option<Cell> {
    if dice.once_in(3) {
        Some(cell_near(dice, at, reach))
    } else {
        None
    }
}

/// A move near the player's cell, with a strike now and then; to stay, where that isn't legal.
fn any_move(ground: &Ground, dice: &mut Dice, player: PlayerId, track: &Track) -> Move {
    let seat = ground.seat(player);
    let to = cell_near(dice, track.at, seat.speed);
    let strike = any_strike(dice, to, seat.reach);
    let mv = Move { to, strike };
    if ground.is_legal(player, track, &mv) {
        mv
    } else {
        Move {
            to: track.at,
            strike: None,
        }
    }
}

/// A choice of the player's next move, which it may make or not.
fn any_choice(game: &Match, table: &Table, dice: &mut Dice, player: PlayerId) -> Option<Step> {
    let log = log_in(table, player)?;
    let turn = own_of(log).chosen;
    let track = own_track(&game.world.ground, player, log, turn);
    let mv = any_move(&game.world.ground, dice, player, &track);
    let nonce = nonce_of(player, turn);
    Some(Step::Choose { player, mv, nonce })
}

/// The next place, one near it, or one that was there before.
fn any_place(dice: &mut Dice, next: u32) -> u32 {
    if dice.once_in(5) {
        dice.below(next.max(1))
    } else if dice.once_in(4) {
        next.saturating_add(dice.below(11))
    } else {
        next
    }
}

/// A frame of an honest player comes to another, mostly the next one.
fn any_delivery(
    game: &Match,
    table: &Table,
    dice: &mut Dice,
    from: PlayerId,
    to: PlayerId,
) -> Option<Step> {
    let log = log_in(table, to)?;
    let next = known_of(&game.world.ground, log, from).next();
    let place = any_place(dice, next);
    Some(Step::Deliver { from, to, place })
}

/// The frame of a stream at the place; past the last one, two for each turn.
fn slot_at(ground: &Ground, place: u32) -> Slot {
    let mut commits = 0u32;
    let mut reveals = 0u32;
    for _place in 0..place.min(1_000) {
        match ground.slot_behind(commits, reveals) {
            None => {}
            Some(slot) => match slot.what {
                What::Commit => commits = commits.saturating_add(1),
                What::Reveal => reveals = reveals.saturating_add(1),
            },
        }
    }
    match ground.slot_behind(commits, reveals) {
        Some(slot) => slot,
        None => Slot {
            what: if place % 2 == 0 {
                What::Commit
            } else {
                What::Reveal
            },
            turn: place / 2,
        },
    }
}

/// How a hostile player's frame differs from that of its play, in which it stays at its start.
#[derive(Clone, Copy)]
struct Bend {
    forged: bool,
    other_nonce: bool,
    leaps: bool,
}

/// None of these.
const STRAIGHT: Bend = Bend {
    forged: false,
    other_nonce: false,
    leaps: false,
};

/// The frame of a hostile player's play at this place, bent or not.
fn hostile_frame(game: &Match, from: PlayerId, place: u32, bend: Bend) -> TurnFrame {
    let ground = &game.world.ground;
    let start = ground.seat(from).start;
    let slot = slot_at(ground, place);
    let to = if bend.leaps {
        Cell {
            x: start.y,
            y: start.x.wrapping_add(9),
        }
    } else {
        start
    };
    let nonce = if bend.other_nonce {
        Nonce { bytes: [255; 32] }
    } else {
        nonce_of(from, slot.turn)
    };
    let owner = if bend.forged { 0 } else { from };
    ground.frame_of(owner, &slot, Move { to, strike: None }, nonce)
}

/// Now and then something differs.
fn any_bend(dice: &mut Dice) -> Bend {
    let forged = dice.once_in(20);
    let other_nonce = dice.once_in(30);
    let leaps = dice.once_in(40);
    Bend {
        forged,
        other_nonce,
        leaps,
    }
}

/// A frame that a hostile player sends: of its play, of another move or nonce, or forged; at the
/// next place, near it or before it.
fn any_hostile(
    game: &Match,
    table: &Table,
    dice: &mut Dice,
    from: PlayerId,
    to: PlayerId,
) -> Option<Step> {
    if from >= 64 || (game.silent >> from) & 1 == 1 {
        return None;
    }
    let log = log_in(table, to)?;
    let next = known_of(&game.world.ground, log, from).next();
    let place = any_place(dice, next);
    let bend = any_bend(dice);
    let frame = hostile_frame(game, from, place, bend);
    Some(Step::Hostile { from, to, frame })
}

/// A stop of a player, which mostly keeps nearly all.
fn any_stop(table: &Table, dice: &mut Dice, player: PlayerId) -> Option<Step> {
    let log = log_in(table, player)?;
    let least = least_keep(log);
    let lost = dice.below(6) as usize;
    let keep = log.len().saturating_sub(lost).max(least);
    match u32::try_from(keep) {
        Err(_) => None,
        Ok(keep) => Some(Step::Stop { player, keep }),
    }
}

/// A step that is drawn, if there is one of the kind that was drawn.
pub fn any_step(game: &Match, table: &Table, dice: &mut Dice) -> Option<Step> {
    let players = game.world.ground.players.max(1);
    let one = dice.small(players);
    let other = dice.small(players);
    let kind = dice.below(16);
    if log_in(table, one).is_none() {
        any_hostile(game, table, dice, one, other)
    } else if kind == 0 {
        any_stop(table, dice, one)
    } else if kind < 4 {
        any_choice(game, table, dice, one)
    } else {
        any_delivery(game, table, dice, one, other)
    }
}

/// The frame for which the first honest player waits whom the hostile one holds; none of a silent
/// one.
fn frame_for_one_held(game: &Match, table: &Table, from: PlayerId) -> Option<Step> {
    if from >= 64 || (game.silent >> from) & 1 == 1 {
        return None;
    }
    let ground = &game.world.ground;
    for to in 0..ground.players {
        if let Some(log) = log_in(table, to) {
            if waits_for(ground, to, log, from) {
                let place = known_of(ground, log, from).next();
                let frame = hostile_frame(game, from, place, STRAIGHT);
                return Some(Step::Hostile { from, to, frame });
            }
        }
    }
    None
}

/// The step that the stand asks for. None at an end: where a log has a finding, a silent player is
/// waited for, or all is done.
pub fn asked_of(game: &Match, table: &Table, dice: &mut Dice) -> Option<Step> {
    match table.stand() {
        Stand::Moving(player) => any_choice(game, table, dice, player),
        Stand::Behind(to, from, place) => Some(Step::Deliver { from, to, place }),
        Stand::Held(player) => frame_for_one_held(game, table, player),
        Stand::Caught(_) | Stand::Finished => None,
    }
}
