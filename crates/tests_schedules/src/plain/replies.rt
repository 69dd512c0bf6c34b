//! How steps are answered, without the causes, and how the answers are counted.

use definitions::{GotAnswer, OwnFault, PlayerId};
use schedule::{StepAnswer, Table, Tally};

/// How a step is answered.
#[derive(Clone, Copy, PartialEq, Eq)]
pub enum Reply {
    Chosen(u32),
    NotNow,
    Illegal,
    Taken,
    Stashed,
    Same,
    Far,
    Foreign,
    Caught,
    Closed,
    NotHonest,
    NotHostile,
    NoFrame,
    Stopped,
    BadCut,
}

/// What an answer of the table says, without the causes.
pub fn reply_in(answer: &StepAnswer) -> Reply {
    match *answer {
        StepAnswer::Chosen(turn) => Reply::Chosen(turn),
        StepAnswer::Refused(OwnFault::NotNow) => Reply::NotNow,
        StepAnswer::Refused(OwnFault::Illegal(_)) => Reply::Illegal,
        StepAnswer::Got(GotAnswer::Taken) => Reply::Taken,
        StepAnswer::Got(GotAnswer::Stashed) => Reply::Stashed,
        StepAnswer::Got(GotAnswer::Same) => Reply::Same,
        StepAnswer::Got(GotAnswer::Far) => Reply::Far,
        StepAnswer::Got(GotAnswer::Foreign) => Reply::Foreign,
        StepAnswer::Got(GotAnswer::Caught(_)) => Reply::Caught,
        StepAnswer::Got(GotAnswer::Closed) => Reply::Closed,
        StepAnswer::NotHonest => Reply::NotHonest,
        StepAnswer::NotHostile => Reply::NotHostile,
        StepAnswer::NoFrame => Reply::NoFrame,
        StepAnswer::Stopped => Reply::Stopped,
        StepAnswer::BadCut => Reply::BadCut,
    }
}

/// How often the peer of an honest player gave each answer.
pub fn tally_in(table: &Table, player: PlayerId) -> Option<Tally> {
    if player < table.session().players() && table.is_honest(player) {
        Some(table.tally(player))
    } else {
        None
    }
}

/// The tally with an answer more, where it is one to a frame.
pub fn tally_with(tally: &Tally, reply: Reply) -> Tally {
    let mut more = *tally;
    match reply {
        Reply::Taken => more.taken = more.taken.saturating_add(1),
        Reply::Stashed => more.stashed = more.stashed.saturating_add(1),
        Reply::Same => more.same = more.same.saturating_add(1),
        Reply::Far => more.far = more.far.saturating_add(1),
        Reply::Foreign => more.foreign = more.foreign.saturating_add(1),
        Reply::Caught => more.caught = more.caught.saturating_add(1),
        Reply::Closed => more.closed = more.closed.saturating_add(1),
        _ => {}
    }
    more
}
