//! What came of a step, and what is written about it.

ghost use Rattle.std.specs.Prelude.{◌≡◌, ◌<◌, ◌++◌, flat_map};
ghost use Rattle.definitions.specs.World.{players_of};
ghost use Rattle.definitions.specs.Steps as D;
ghost use Rattle.line_io.specs.Texts.{Puts};
ghost use Rattle.schedule.specs.Steps.{HasPlayers, answer, mover};
ghost use Rattle.schedule.specs.Stands.{stand};
ghost use Rattle.schedule_command.specs.Lines as L;
ghost use Rattle.schedule_command.specs.Schedule as S;

use crate::lines::{
    ScheduleText, chosen_line, entry_line, got_line, player_line, refused_line, stand_line,
    tally_line,
};
use definitions::{Entry, PlayerId};
use grid_world::Session;
use line_io::{SinkFault, put, text_of};
use report_lines::end_line;
use schedule::{Stand, Step, StepAnswer, Table};
use station::Sink;

/// The player whose log may change by the step.
pub(crate) fn mover_of(step: &Step) -> PlayerId
    ensures { result ≡ mover step.now }
{
    match *step {
        Step::Choose { player, .. } | Step::Stop { player, .. } => player,
        Step::Deliver { to, .. } | Step::Hostile { to, .. } => to,
    }
}

/// The player from whom the step's frame comes, where it brings one.
fn sender_of(step: &Step) -> PlayerId
    ensures { result ≡ L.sender step.now }
{
    match *step {
        Step::Choose { player, .. } | Step::Stop { player, .. } => player,
        Step::Deliver { from, .. } | Step::Hostile { from, .. } => from,
    }
}

/// The place of the frame that the step brings, where it brings one.
fn place_shown(session: &Session, step: &Step) -> u64
    ensures { result ≡ L.shown_place session.now step.now }
{
    match *step {
        Step::Choose { .. } | Step::Stop { .. } => 0,
        Step::Deliver { place, .. } => u64::from(place),
        Step::Hostile { frame, .. } => session.place_of(&frame),
    }
}

/// The line of a step, by what came of it.
pub(crate) fn step_line(session: &Session, step: &Step, said: &StepAnswer) -> ScheduleText
    ensures { result.items ≡ L.step_line session.now step.now said.now }
{
    match said {
        StepAnswer::Chosen(turn) => chosen_line(mover_of(step), *turn),
        StepAnswer::Refused(fault) => refused_line(mover_of(step), *fault),
        StepAnswer::Got(answer) => got_line(
            sender_of(step),
            mover_of(step),
            place_shown(session, step),
            answer,
        ),
        StepAnswer::NotHonest => text_of(b"not honest\n"),
        StepAnswer::NotHostile => text_of(b"not hostile\n"),
        StepAnswer::NoFrame => text_of(b"no frame\n"),
        StepAnswer::Stopped => player_line(b"stopped ", mover_of(step)),
        StepAnswer::BadCut => text_of(b"bad cut\n"),
    }
}

/// How many of a log's entries the step leaves, by what came of it.
pub(crate) fn kept(step: &Step, said: &StepAnswer, entries: usize) -> usize
    ensures { result ≡ S.kept step.now said.now entries }
{
    match (step, said) {
        (Step::Stop { keep, .. }, StepAnswer::Stopped) => *keep as usize,
        _ => entries,
    }
}

/// How many entries a player's log has, if it is honest.
pub(crate) fn entries_of(table: &Table, player: PlayerId) -> usize
    requires { player < players_of table.now.game }
    ensures { result ≡ S.entries_of (D.log_of table.now.logs player) }
{
    if table.is_honest(player) {
        table.log_of(player).len()
    } else {
        0
    }
}

/// Writes the lines of these entries, which came into a player's log.
fn put_entries<O: Sink>(player: PlayerId, entries: &[Entry], out: &mut O) -> Result<(), SinkFault>
    ensures { Puts (O.state out.old) (O.state out.new) (flat_map (L.entry_line player) entries.now) result }
{
    'entries: for entry in entries {
        put(out, entry_line(player, entry).as_slice())?;
    }
    Ok(())
}

/// Writes the lines of the entries that a player's log has behind the first so many.
#[tactic(auto, unfolding(crate::specs::Lines::added_lines))]
fn put_added<O: Sink>(
    player: PlayerId,
    count: usize,
    log: &[Entry],
    out: &mut O,
) -> Result<(), SinkFault>
    ensures { Puts (O.state out.old) (O.state out.new) (L.added_lines player count log.now) result }
{
    if count <= log.len() {
        put_entries(player, log.split_at(count).1, out)
    } else {
        put(out, b"")
    }
}

/// Writes what a player made since its log had so many entries; nothing of a hostile player.
pub(crate) fn put_made<O: Sink>(
    table: &Table,
    player: PlayerId,
    count: usize,
    out: &mut O,
) -> Result<(), SinkFault>
    requires { player < players_of table.now.game }
    ensures { Puts (O.state out.old) (O.state out.new) (L.made_lines player count (D.log_of table.now.logs player)) result }
{
    if table.is_honest(player) {
        put_added(player, count, table.log_of(player), out)
    } else {
        put(out, b"")
    }
}

/// Writes how often a player's peer gave each answer, or that the player isn't honest.
#[tactic(auto, unfolding(crate::specs::Schedule::tally_text))]
pub(crate) fn put_tally<O: Sink>(
    table: &Table,
    player: PlayerId,
    out: &mut O,
) -> Result<(), SinkFault>
    requires { player < players_of table.now.game }
    ensures { Puts (O.state out.old) (O.state out.new) (S.tally_text table.now player) result }
{
    if table.is_honest(player) {
        put(out, tally_line(player, table.tally(player)).as_slice())
    } else {
        put(out, b"not honest\n")
    }
}

/// Writes how the match stands, and that this is the end.
#[tactic(auto, unfolding(crate::specs::Schedule::end_text))]
pub(crate) fn put_end<O: Sink>(stand: Stand, out: &mut O) -> Result<(), SinkFault>
    ensures { Puts (O.state out.old) (O.state out.new) (S.end_text stand) result }
{
    put(out, stand_line(stand).as_slice())?;
    put(out, end_line())
}
