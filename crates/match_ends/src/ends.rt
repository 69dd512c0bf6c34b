//! What is written at the end of a run.

ghost use Rattle.std.specs.Prelude.{◌≡◌, ◌<◌, flat_map};
ghost use Rattle.definitions.specs.World.{players_of};
ghost use Rattle.definitions.specs.Needs.{needs};
ghost use Rattle.line_io.specs.Texts.{Puts};
ghost use Rattle.run_frame.specs.Frame.{Ends};
ghost use Rattle.report_lines.specs.Lines.{need_text};
ghost use Rattle.match_ends.specs.Ends as E;

use crate::lines::{own_move_line, unsent_line};
use definitions::PlayerId;
use line_io::{SinkFault, put};
use loop_ends::{Ended, Played};
use report_lines::{
    caught_line, end_line, put_dropped, put_each_need, put_players, put_score, put_stand,
};
use run_frame::{Status, gave_up_line};
use station::Sink;

/// Writes what the end was, unless all was played.
fn put_outcome<O: Sink>(ended: &Ended, polls: u32, out: &mut O) -> Result<(), SinkFault>
    ensures { Puts (O.state out.old) (O.state out.new) (E.outcome_text polls ended.now) result }
{
    match *ended {
        Ended::Done => put(out, b""),
        Ended::Caught(finding) => put(out, caught_line(&finding).as_slice()),
        Ended::PollFault => put(out, b"poll fault\n"),
        Ended::KeepFault => put(out, b"keep fault\n"),
        Ended::OwnMove(turn, fault) => put(out, own_move_line(turn, fault).as_slice()),
        Ended::GaveUp => put(out, gave_up_line(polls).as_slice()),
    }
}

/// Writes what another player lacks.
fn put_unsent_to<L: Played, O: Sink>(
    played: &L,
    player: PlayerId,
    out: &mut O,
) -> Result<(), SinkFault>
    ensures { Puts (O.state out.old) (O.state out.new) (E.unsent_to (L.peer played.now) (L.held played.now) player) result }
{
    let held = played.held(player);
    if player == played.peer().me() || held >= played.peer().made_count() {
        return put(out, b"");
    }
    put(out, unsent_line(player, held).as_slice())
}

/// Writes what each other player lacks, by rising number.
fn put_unsents<L: Played, O: Sink>(played: &L, out: &mut O) -> Result<(), SinkFault>
    ensures { Puts (O.state out.old) (O.state out.new) (E.unsents_text (L.peer played.now) (L.held played.now) 0 (players_of (L.peer played.now).game)) result }
{
    'players: for player in 0..played.peer().session().players() {
        put_unsent_to(played, player, out)?;
    }
    Ok(())
}

/// Writes how the peer stands; where it gave up, whom it waits for, and what others lack.
fn put_stand_or_missing<L: Played, O: Sink>(
    played: &L,
    ended: &Ended,
    out: &mut O,
) -> Result<(), SinkFault>
    ensures { Puts (O.state out.old) (O.state out.new) (E.stand_by ended.now (L.peer played.now) (L.held played.now)) result }
{
    match ended {
        Ended::Done | Ended::OwnMove(..) => put_stand(played.peer(), out),
        Ended::Caught(_) | Ended::PollFault | Ended::KeepFault => put(out, b""),
        Ended::GaveUp => {
            put_each_need(played.peer().needs().as_slice(), out)?;
            put_unsents(played, out)
        }
    }
}

/// Writes all that is told at the end of a run: from which byte on an older log was dropped, what
/// the end was, how the peer stands or what is missing, what its log shows of each player, the own
/// score, and that this is the end.
#[tactic(auto, unfolding(crate::specs::Ends::match_text))]
fn put_match_text<L: Played, O: Sink>(
    played: &L,
    ended: &Ended,
    polls: u32,
    dropped: Option<u32>,
    out: &mut O,
) -> Result<(), SinkFault>
    ensures { Puts (O.state out.old) (O.state out.new) (E.match_text dropped polls ended.now (L.peer played.now) (L.held played.now)) result }
{
    put_dropped(dropped, out)?;
    put_outcome(ended, polls, out)?;
    put_stand_or_missing(played, ended, out)?;
    put_players(played.peer(), out)?;
    put_score(played.peer(), out)?;
    put(out, end_line())
}

/// How the run ends.
fn status_of(ended: &Ended) -> Status
    ensures { result ≡ E.status_of ended.now }
{
    match *ended {
        Ended::Done => Status::Done,
        Ended::Caught(_) => Status::Caught,
        Ended::PollFault => Status::PollFault,
        Ended::KeepFault => Status::KeepFault,
        Ended::OwnMove(turn, fault) => Status::OwnMove { turn, fault },
        Ended::GaveUp => Status::GaveUp,
    }
}

/// Writes the end of a run whose loop ended so, and says its status.
pub fn end<L: Played, O: Sink>(
    played: &L,
    ended: &Ended,
    polls: u32,
    dropped: Option<u32>,
    out: &mut O,
) -> Status
    ensures { Ends (O.state out.old) (O.state out.new) (E.match_answer dropped polls ended.now (L.peer played.now) (L.held played.now)) result }
{
    match put_match_text(played, ended, polls, dropped, out) {
        Ok(()) => status_of(ended),
        Err(fault) => Status::from(fault),
    }
}
