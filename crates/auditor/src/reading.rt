//! What the logs that an index stands for show of a player's turn, with what they show before it and behind it.

ghost use Rattle.std.specs.Prelude.{◌<◌, ◌+◌, List, IfOk, OnOk};
ghost use Rattle.definitions.specs.declared.logs.Entry.{Entry};
ghost use Rattle.definitions.specs.World.{players_of};
ghost use Rattle.frame_index.specs.Frames.{IsIndex};
ghost use Rattle.frame_index.specs.Heads.{AreOpen, Stand, front_of};
ghost use Rattle.auditor.specs.Reading.{IsReadTurn};

use definitions::{PlayerId, Turn};
use frame_index::{FrameIndex, Heads, Seen, read_first, read_turn, start_heads};
use grid_world::Session;
use move_rules::Walker;
use std::alloc::{AllocError, Global};

/// A player's turn as logs show it.
#[derive(Drop)]
pub(crate) struct Reading {
    // each different frame of the turn
    pub seen: Vec<Seen>,
    // by the log's number: the player's stream up to the turn's reveal, and up to that of the turn behind it
    pub before: Heads,
    pub after: Heads,
}

/// Before the first turn.
pub(crate) fn start(
    alloc: Global,
    index: &FrameIndex,
    session: &Session,
    walker: &mut Walker,
    player: PlayerId,
) -> Result<Reading, AllocError>
    requires player { player < players_of session.now }
    ensures opens { IfOk result (λ r. AreOpen session.now r.after) }
    ensures stand { IfOk result (λ r. (logs : List (List Entry)) → IsIndex session.now logs index.now → Stand session.now player logs (front_of session.now 0) r.after) }
{
    let mut seen = Vec::new(alloc);
    let mut heads = start_heads(session, player);
    read_first(index, session, walker, player, &mut seen, &mut heads)?;
    Ok(Reading {
        seen,
        before: heads,
        after: heads,
    })
}

/// Goes on to the turn from the one before it.
pub(crate) fn read_on(
    reading: &mut Reading,
    index: &FrameIndex,
    session: &Session,
    walker: &mut Walker,
    player: PlayerId,
    turn: Turn,
) -> Result<(), AllocError>
    requires player { player < players_of session.now }
    requires turn { turn < session.now.turns }
    requires opens { AreOpen session.now reading.old.after }
    ensures before { OnOk result (AreOpen session.now reading.new.before) }
    ensures after { OnOk result (AreOpen session.now reading.new.after) }
    ensures read { OnOk result ((logs : List (List Entry)) → IsIndex session.now logs index.now → Stand session.now player logs (front_of session.now turn) reading.old.after → IsReadTurn session.now player logs turn reading.new) }
{
    reading.before = reading.after;
    index.gather(player, turn, &mut reading.seen)?;
    read_turn(
        index,
        session,
        walker,
        player,
        turn,
        &mut reading.seen,
        &mut reading.after,
    )?;
    index.gather(player, turn, &mut reading.seen)?;
    Ok(())
}
