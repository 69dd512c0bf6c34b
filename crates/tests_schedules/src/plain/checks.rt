//! What has to hold of every table, by the entries of its logs.

use crate::plain::audits::{audit, names_the_right};
use crate::plain::grounds::Ground;
use crate::plain::known::{chosen_for, own_of, own_track};
use crate::plain::plain_steps::log_in;
use crate::plain::stands::{are_all_done, stand_of};
use crate::plain::turns::{next_frame, next_slot, waits_for};
use crate::plain::worlds::{Trouble, hold};
use definitions::{Entry, Move, PlayerId, Turn, TurnFrame};
use schedule::{Stand, Table};
use std::alloc::Global;

/// Whether the owner chose the next turn, by a legal move.
fn is_next_choice(ground: &Ground, me: PlayerId, before: &[Entry], turn: Turn, mv: &Move) -> bool {
    let track = own_track(ground, me, before, turn);
    own_of(before).chosen == turn && ground.is_legal(me, &track, mv)
}

/// Whether the frame is the next one of the owner's stream, and opens or announces what was chosen.
fn is_next_frame(ground: &Ground, me: PlayerId, before: &[Entry], frame: &TurnFrame) -> bool {
    let Some(slot) = next_slot(ground, before) else {
        return false;
    };
    match chosen_for(before, slot.turn) {
        None => false,
        Some((mv, nonce)) => *frame == ground.frame_of(me, &slot, mv, nonce),
    }
}

/// Whether each frame that the next one of the owner has to wait for stands among these.
fn waits_for_nobody(ground: &Ground, me: PlayerId, before: &[Entry]) -> bool {
    for player in 0..ground.players {
        if waits_for(ground, me, before, player) {
            return false;
        }
    }
    true
}

/// Whether the frame is of the player from whom it came, another one, who made it if it is honest.
fn is_authentic(table: &Table, me: PlayerId, from: PlayerId, frame: &TurnFrame) -> bool {
    if from == me || frame.player() != from {
        return false;
    }
    match log_in(table, from) {
        None => true,
        Some(log) => log.contains(&Entry::Made(*frame)),
    }
}

/// What has to hold of an entry behind those before it.
fn check_entry(
    ground: &Ground,
    table: &Table,
    me: PlayerId,
    before: &[Entry],
    entry: &Entry,
) -> Result<(), Trouble> {
    match entry {
        Entry::Chose { turn, mv, .. } => hold(
            is_next_choice(ground, me, before, *turn, mv),
            "a log has a choice of another turn, or of no legal move",
        ),
        Entry::Made(frame) => {
            hold(
                is_next_frame(ground, me, before, frame),
                "a log has a frame made that isn't the next of what was chosen",
            )?;
            hold(
                waits_for_nobody(ground, me, before),
                "a log has a frame made before one that it waits for",
            )
        }
        Entry::Got(from, frame) => {
            hold(
                is_authentic(table, me, *from, frame),
                "a log got a frame that its player didn't make",
            )?;
            hold(!before.contains(entry), "a log got a frame twice")
        }
    }
}

/// What has to hold of a log: of each entry from this number on, and that no frame is left that
/// its owner may make.
fn check_log(
    ground: &Ground,
    table: &Table,
    me: PlayerId,
    log: &[Entry],
    first: usize,
) -> Result<(), Trouble> {
    let mut at = 0usize;
    for entry in log {
        if at >= first {
            let before = log.get(..at).unwrap_or(&[]);
            check_entry(ground, table, me, before, entry)?;
        }
        at = at.saturating_add(1);
    }
    hold(
        next_frame(ground, me, log).is_none(),
        "a frame that may be made isn't made",
    )
}

/// What has to hold of what the table tells of an honest player.
fn check_player(
    ground: &Ground,
    table: &Table,
    player: PlayerId,
    log: &[Entry],
    first: usize,
) -> Result<(), Trouble> {
    check_log(ground, table, player, log, first)?;
    if player >= table.session().players() || !table.is_honest(player) {
        return Err(Trouble::Broken("a log is there of a player that isn't honest"));
    }
    let own = own_of(log);
    hold(
        table.made_of(player) == own.made(),
        "another number of frames made is told",
    )?;
    let Some(choice) = table.choice(player) else {
        return Err(Trouble::Broken("no choice is told of an honest player"));
    };
    let track = own_track(ground, player, log, own.chosen);
    hold(
        choice.turn == own.chosen && choice.track == track,
        "another turn or track is told for the next choice",
    )
}

/// Whether the table stands so as its logs say.
pub fn check_stand(ground: &Ground, table: &Table) -> Result<(), Trouble> {
    let stand = table.stand();
    hold(
        stand == stand_of(ground, table),
        "the stand isn't the one that the logs call for",
    )?;
    hold(
        (stand == Stand::Finished) == are_all_done(ground, table),
        "the stand is finished where not all are done, or isn't where all are",
    )
}

/// How many of the player's entries are left out.
fn first_of(checked: &[usize], player: PlayerId) -> usize {
    match checked.get(usize::from(player)) {
        None => 0,
        Some(first) => *first,
    }
}

/// What has to hold of what the table tells of all honest players.
fn check_players(ground: &Ground, table: &Table, checked: &[usize]) -> Result<(), Trouble> {
    for player in 0..ground.players {
        if let Some(log) = log_in(table, player) {
            check_player(ground, table, player, log, first_of(checked, player))?;
        }
    }
    Ok(())
}

/// What has to hold of every table. Of each log the first entries are left out that were checked
/// before, by player.
pub fn check_table(
    alloc: Global,
    ground: &Ground,
    table: &Table,
    checked: &[usize],
) -> Result<(), Trouble> {
    check_players(ground, table, checked)?;
    check_stand(ground, table)?;
    let report = audit(alloc, table)?;
    names_the_right(alloc, ground, table, &report)
}
