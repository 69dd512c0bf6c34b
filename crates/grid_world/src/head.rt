//! The lines of a session text before those of the players: six in version 1, and seven in version 2.

ghost use Rattle.std.specs.Prelude.{◌≡◌};
ghost use Rattle.text_lines.specs.Lines.{ended_lines_of};
ghost use Rattle.grid_world.specs.Reading as spec;
ghost use Rattle.text_lines.specs.Answers.{Says};
ghost use Rattle.grid_world.specs.Reading.{version_at, sides_at, steps_at, charges_at, turns_at, ahead_at, players_at, head_at};
ghost use Rattle.grid_world.specs.Parts.{head_of};
ghost use Rattle.grid_world.specs.Sessions as sessions;
ghost use Rattle.grid_world.specs.declared.fault.SessionFault.TheVariants.{At};

use crate::fault::SessionFault;
use crate::parts::{Head, Sides};
use crate::rules::Rules;
use definitions::SessionRule;
use definitions::limits::{
    FARTHEST_REACH, FEWEST_PLAYERS, LAST_VERSION, MOST_AHEAD, MOST_CHARGE, MOST_PLAYERS,
    MOST_PLAYERS_AT_FIRST, MOST_SPEED, MOST_TURNS, MOST_TURNS_AT_FIRST, MOST_TURNS_OF_ALL,
    WIDEST_BLAST, WIDEST_SIDE, WIDEST_SIDE_AT_FIRST,
};
use text_lines::{is_within, one_at, three_at, two_at};

/// The fault of a line that breaks the rule.
pub(crate) fn fault(line: u32, what: SessionRule) -> SessionFault
    ensures { result ≡ At line what }
{
    SessionFault::At { line, what }
}

/// The most cells of a side of the grid, by the version.
fn widest_side(version: u8) -> u16
    ensures { result ≡ sessions.widest_side version }
{
    if version == 1 {
        WIDEST_SIDE_AT_FIRST
    } else {
        WIDEST_SIDE
    }
}

/// The most turns, by the version.
fn most_turns(version: u8) -> u32
    ensures { result ≡ sessions.most_turns version }
{
    if version == 1 {
        MOST_TURNS_AT_FIRST
    } else {
        MOST_TURNS
    }
}

/// The most players, by the version.
fn most_players(version: u8) -> u8
    ensures { result ≡ sessions.most_players version }
{
    if version == 1 {
        MOST_PLAYERS_AT_FIRST
    } else {
        MOST_PLAYERS
    }
}

/// The version, from 1 to `LAST_VERSION`.
#[tactic(auto, unfolding(crate::specs::Reading::version_at))]
fn version(text: &[u8]) -> Result<(u8, &[u8]), SessionFault>
    ensures { Says (λ x. (x.0, ended_lines_of x.1.now)) result (version_at (ended_lines_of text.now)) }
{
    let (version, rest) = one_at(fault(1, SessionRule::S1), b"playout", text)?;
    if !is_within(1, LAST_VERSION.into(), version) {
        return Err(fault(1, SessionRule::S2));
    }
    Ok((version as u8, rest))
}

/// How wide and how high the grid is.
#[tactic(auto, unfolding(crate::specs::Reading::sides_at))]
fn sides(version: u8, text: &[u8]) -> Result<(Sides, &[u8]), SessionFault>
    ensures { Says (λ x. ((x.0.width, x.0.height), ended_lines_of x.1.now)) result (sides_at version (ended_lines_of text.now)) }
{
    let ((width, height), rest) = two_at(fault(2, SessionRule::S1), b"grid", text)?;
    let widest = u32::from(widest_side(version));
    if !(is_within(1, widest, width) && is_within(1, widest, height)) {
        return Err(fault(2, SessionRule::S3));
    }
    let sides = Sides {
        width: width as u16,
        height: height as u16,
    };
    Ok((sides, rest))
}

/// Speed, reach and blast.
#[tactic(auto, unfolding(crate::specs::Reading::steps_at))]
fn steps(text: &[u8]) -> Result<((u8, u8, u8), &[u8]), SessionFault>
    ensures { Says (λ x. (x.0, ended_lines_of x.1.now)) result (steps_at (ended_lines_of text.now)) }
{
    let ((speed, reach, blast), rest) = three_at(fault(3, SessionRule::S1), b"rules", text)?;
    if !(is_within(1, MOST_SPEED.into(), speed)
        && (reach <= FARTHEST_REACH.into() && blast <= WIDEST_BLAST.into()))
    {
        return Err(fault(3, SessionRule::S4));
    }
    Ok(((speed as u8, reach as u8, blast as u8), rest))
}

/// The start charge, the cap and the cost.
#[tactic(auto, unfolding(crate::specs::Reading::charges_at))]
fn charges(text: &[u8]) -> Result<((u8, u8, u8), &[u8]), SessionFault>
    ensures { Says (λ x. (x.0, ended_lines_of x.1.now)) result (charges_at (ended_lines_of text.now)) }
{
    let ((start, cap, cost), rest) = three_at(fault(4, SessionRule::S1), b"charge", text)?;
    let most = u32::from(MOST_CHARGE);
    if !(start <= most && (cap <= most && (cost <= most && start <= cap))) {
        return Err(fault(4, SessionRule::S5));
    }
    Ok(((start as u8, cap as u8, cost as u8), rest))
}

/// How many turns are played.
#[tactic(auto, unfolding(crate::specs::Reading::turns_at))]
fn turns(version: u8, text: &[u8]) -> Result<(u32, &[u8]), SessionFault>
    ensures { Says (λ x. (x.0, ended_lines_of x.1.now)) result (turns_at version (ended_lines_of text.now)) }
{
    let (turns, rest) = one_at(fault(5, SessionRule::S1), b"turns", text)?;
    if !is_within(1, most_turns(version), turns) {
        return Err(fault(5, SessionRule::S6));
    }
    Ok((turns, rest))
}

/// How many turns ahead players commit, which version 1 has no line for.
#[tactic(auto, unfolding(crate::specs::Reading::ahead_at))]
fn ahead(version: u8, text: &[u8]) -> Result<(u32, &[u8]), SessionFault>
    ensures { Says (λ x. (x.0, ended_lines_of x.1.now)) result (ahead_at version (ended_lines_of text.now)) }
{
    if version == 1 {
        return Ok((1, text));
    }
    let (ahead, rest) = one_at(fault(6, SessionRule::S1), b"ahead", text)?;
    if !is_within(1, MOST_AHEAD, ahead) {
        return Err(fault(6, SessionRule::S10));
    }
    Ok((ahead, rest))
}

/// The number of the line that says how many players there are.
fn players_line(version: u8) -> u32
    ensures { result ≡ spec.players_line version }
{
    if version == 1 { 6 } else { 7 }
}

/// The number of the first player's line.
pub(crate) fn first_player_line(version: u8) -> u32
    ensures { result ≡ spec.first_player_line version }
{
    players_line(version) + 1
}

/// How many players there are, who don't have too many turns together.
#[tactic(auto, unfolding(crate::specs::Reading::players_at))]
fn players(version: u8, turns: u32, text: &[u8]) -> Result<(u8, &[u8]), SessionFault>
    ensures { Says (λ x. (x.0, ended_lines_of x.1.now)) result (players_at version turns (ended_lines_of text.now)) }
{
    let line = players_line(version);
    let (players, rest) = one_at(fault(line, SessionRule::S1), b"players", text)?;
    if !is_within(FEWEST_PLAYERS.into(), most_players(version).into(), players) {
        return Err(fault(line, SessionRule::S7));
    }
    if u64::from(players) * u64::from(turns) > u64::from(MOST_TURNS_OF_ALL) {
        return Err(fault(line, SessionRule::S12));
    }
    Ok((players as u8, rest))
}

/// What the lines before those of the players say, and the text behind them.
#[tactic(auto, unfolding(crate::specs::Reading::head_at))]
pub(crate) fn head(text: &[u8]) -> Result<(Head, &[u8]), SessionFault>
    ensures { Says (λ x. (head_of x.0, ended_lines_of x.1.now)) result (head_at (ended_lines_of text.now)) }
{
    let (version, rest) = version(text)?;
    let (sides, rest) = sides(version, rest)?;
    let ((speed, reach, blast), rest) = steps(rest)?;
    let ((start_charge, cap, cost), rest) = charges(rest)?;
    let (turns, rest) = turns(version, rest)?;
    let (ahead, rest) = ahead(version, rest)?;
    let (players, rest) = players(version, turns, rest)?;
    let rules = Rules {
        speed,
        reach,
        blast,
        start_charge,
        cap,
        cost,
    };
    let head = Head {
        version,
        sides,
        rules,
        turns,
        ahead,
        players,
    };
    Ok((head, rest))
}
