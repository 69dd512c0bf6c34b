//! How often a peer gave each answer to frames.

ghost use Rattle.std.specs.Prelude.{◌≡◌, ◌<◌, IfOk, length, replicate};
ghost use Rattle.definitions.specs.World.{players_of};
ghost use Rattle.schedule.specs.Tallies as T;

use crate::steps::StepAnswer;
use definitions::GotAnswer;
use grid_world::Session;
use std::alloc::{AllocError, Global};

/// How many frames a peer answered so, since the table was made. Each count stays at its greatest value once there.
#[derive(Clone, Copy, Debug, PartialEq, Eq)]
pub struct Tally {
    pub taken: u32,
    pub stashed: u32,
    pub same: u32,
    pub far: u32,
    pub foreign: u32,
    pub caught: u32,
    pub closed: u32,
}

/// No frame was answered.
const NONE: Tally = Tally {
    taken: 0,
    stashed: 0,
    same: 0,
    far: 0,
    foreign: 0,
    caught: 0,
    closed: 0,
};

/// The tallies of all players before the first step.
pub(crate) fn blank_tallies(alloc: Global, session: &Session) -> Result<Vec<Tally>, AllocError>
    ensures { IfOk result (λ tallies. tallies.items ≡ replicate (players_of session.now) T.no_tally) }
{
    vec![in alloc; NONE; usize::from(session.players())]
}

/// The tally with one answer more.
pub(crate) fn counted(tally: &Tally, answer: &GotAnswer) -> Tally
    ensures { result ≡ T.counted tally.now answer.now }
{
    let mut more = *tally;
    match *answer {
        GotAnswer::Taken => more.taken = more.taken.saturating_add(1),
        GotAnswer::Stashed => more.stashed = more.stashed.saturating_add(1),
        GotAnswer::Same => more.same = more.same.saturating_add(1),
        GotAnswer::Far => more.far = more.far.saturating_add(1),
        GotAnswer::Foreign => more.foreign = more.foreign.saturating_add(1),
        GotAnswer::Caught(_) => more.caught = more.caught.saturating_add(1),
        GotAnswer::Closed => more.closed = more.closed.saturating_add(1),
    }
    more
}

/// Counts the answer to a frame in the tally at this place; another answer counts nothing.
pub(crate) fn count(tallies: &mut [Tally], at: usize, said: &StepAnswer)
    requires { at < length tallies.old }
    ensures { tallies.new ≡ T.tallied tallies.old at said.now }
{
    if let StepAnswer::Got(answer) = *said {
        tallies[at] = counted(&tallies[at], &answer);
    }
}
