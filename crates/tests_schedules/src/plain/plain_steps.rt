//! What a step makes of a log, and how it is answered, by the entries alone.

use crate::plain::grounds::Ground;
use crate::plain::known::{is_caught, known_of, made_at, own_of, own_track};
use crate::plain::replies::{Reply, reply_in};
use crate::plain::turns::{make_all, may_choose};
use definitions::limits::WINDOW;
use definitions::{Entry, Move, Nonce, PlayerId, Turn, TurnFrame};
use schedule::{Step, StepAnswer, Table};
use std::alloc::{AllocError, Global};

/// The log of an honest player of the table.
pub fn log_in(table: &Table, player: PlayerId) -> Option<&[Entry]> {
    if player < table.session().players() && table.is_honest(player) {
        Some(table.log_of(player))
    } else {
        None
    }
}

/// What a step is to make of the log of the player that it names last, and how it is to be
/// answered. The log is none where the player has none.
#[derive(Drop)]
pub struct Outcome {
    pub player: PlayerId,
    pub reply: Reply,
    pub log: Option<Vec<Entry>>,
}

/// A copy of the log.
fn copy_of(alloc: Global, log: &[Entry]) -> Result<Vec<Entry>, AllocError> {
    let mut copy = Vec::with_capacity(alloc, log.len().saturating_add(4))?;
    for entry in log {
        copy.push(*entry)?;
    }
    Ok(copy)
}

fn chose(turn: Turn, mv: &Move, nonce: &Nonce) -> Entry {
    Entry::Chose {
        turn,
        mv: *mv,
        nonce: *nonce,
    }
}

/// The owner chooses.
fn choose(
    ground: &Ground,
    me: PlayerId,
    log: &mut Vec<Entry>,
    mv: &Move,
    nonce: &Nonce,
) -> Result<Reply, AllocError> {
    if !may_choose(ground, me, log.as_slice()) {
        return Ok(Reply::NotNow);
    }
    let turn = own_of(log.as_slice()).chosen;
    let track = own_track(ground, me, log.as_slice(), turn);
    if !ground.is_legal(me, &track, mv) {
        return Ok(Reply::Illegal);
    }
    log.push(chose(turn, mv, nonce))?;
    make_all(ground, me, log)?;
    Ok(Reply::Chosen(turn))
}

/// Whether the place is past the window that begins at this next place, or past the last turn.
fn is_far(ground: &Ground, next: u32, place: u64) -> bool {
    place > u64::from(next).saturating_add(u64::from(WINDOW))
        || place >= u64::from(ground.turns).saturating_mul(2)
}

/// Why the frame isn't taken into the log, if it isn't.
fn refusal(
    ground: &Ground,
    me: PlayerId,
    log: &[Entry],
    from: PlayerId,
    frame: &TurnFrame,
) -> Option<Reply> {
    if is_caught(ground, log) {
        return Some(Reply::Closed);
    }
    if from == me || from >= ground.players || frame.player() != from {
        return Some(Reply::Foreign);
    }
    if is_far(
        ground,
        known_of(ground, log, from).next(),
        ground.place_of(frame),
    ) {
        return Some(Reply::Far);
    }
    if log.contains(&Entry::Got(from, *frame)) {
        return Some(Reply::Same);
    }
    None
}

/// A frame comes to the owner.
fn hear(
    ground: &Ground,
    me: PlayerId,
    log: &mut Vec<Entry>,
    from: PlayerId,
    frame: &TurnFrame,
) -> Result<Reply, AllocError> {
    if let Some(reply) = refusal(ground, me, log.as_slice(), from, frame) {
        return Ok(reply);
    }
    let next = known_of(ground, log.as_slice(), from).next();
    log.push(Entry::Got(from, *frame))?;
    if is_caught(ground, log.as_slice()) {
        return Ok(Reply::Caught);
    }
    make_all(ground, me, log)?;
    Ok(if ground.place_of(frame) == u64::from(next) {
        Reply::Taken
    } else {
        Reply::Stashed
    })
}

/// How many entries of the log a stop has to leave: up to the last frame that the owner made.
pub fn least_keep(log: &[Entry]) -> usize {
    let mut least = 0usize;
    let mut at = 0usize;
    for entry in log {
        at = at.saturating_add(1);
        if let Entry::Made(_) = entry {
            least = at;
        }
    }
    least
}

/// The owner is stopped, and goes on from its first entries.
fn stop(
    ground: &Ground,
    me: PlayerId,
    log: &mut Vec<Entry>,
    keep: u32,
) -> Result<Reply, AllocError> {
    let keep = keep as usize;
    if keep > log.len() || keep < least_keep(log.as_slice()) {
        return Ok(Reply::BadCut);
    }
    log.truncate(keep);
    make_all(ground, me, log)?;
    Ok(Reply::Stopped)
}

/// What happens at a player's log.
#[derive(Clone, Copy)]
enum Act {
    Choose(Move, Nonce),
    Hear(PlayerId, TurnFrame),
    Stop(u32),
    Nothing(Reply),
}

/// What the step brings to the log of the player that it names last.
fn act_of(table: &Table, step: &Step) -> (PlayerId, Act) {
    match *step {
        Step::Choose { player, mv, nonce } => (player, Act::Choose(mv, nonce)),
        Step::Stop { player, keep } => (player, Act::Stop(keep)),
        Step::Deliver { from, to, place } => match log_in(table, from) {
            None => (to, Act::Nothing(Reply::NotHonest)),
            Some(log) => match made_at(log, place) {
                None => (to, Act::Nothing(Reply::NoFrame)),
                Some(frame) => (to, Act::Hear(from, frame)),
            },
        },
        Step::Hostile { from, to, frame } => match log_in(table, from) {
            None => (to, Act::Hear(from, frame)),
            Some(_) => (to, Act::Nothing(Reply::NotHostile)),
        },
    }
}

/// Lets it happen at the log of the player.
fn act_at(
    ground: &Ground,
    me: PlayerId,
    log: &mut Vec<Entry>,
    act: &Act,
) -> Result<Reply, AllocError> {
    match act {
        Act::Choose(mv, nonce) => choose(ground, me, log, mv, nonce),
        Act::Hear(from, frame) => hear(ground, me, log, *from, frame),
        Act::Stop(keep) => stop(ground, me, log, *keep),
        Act::Nothing(reply) => Ok(*reply),
    }
}

/// What the step is to make of the table.
pub fn outcome_of(
    alloc: Global,
    ground: &Ground,
    table: &Table,
    step: &Step,
) -> Result<Outcome, AllocError> {
    let (player, act) = act_of(table, step);
    match log_in(table, player) {
        None => Ok(Outcome {
            player,
            reply: Reply::NotHonest,
            log: None,
        }),
        Some(log) => {
            let mut copy = copy_of(alloc, log)?;
            let reply = act_at(ground, player, &mut copy, &act)?;
            Ok(Outcome {
                player,
                reply,
                log: Some(copy),
            })
        }
    }
}

/// Whether the table answered so and has that log.
pub fn came_so(table: &Table, answer: &StepAnswer, outcome: &Outcome) -> bool {
    if reply_in(answer) != outcome.reply {
        return false;
    }
    match (log_in(table, outcome.player), &outcome.log) {
        (None, None) => true,
        (Some(log), Some(plain)) => log == plain.as_slice(),
        _ => false,
    }
}
