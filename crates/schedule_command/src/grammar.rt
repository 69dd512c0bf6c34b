//! What a line of a schedule says, behind the one that names the hostile players.

ghost use Rattle.std.specs.Prelude.{◌≡◌, ◌≤◌, ◌<◌, IfSome, length, option_map};
ghost use Rattle.definitions.specs.World.{players_of};
ghost use Rattle.schedule.specs.Steps.{HasPlayers};
ghost use Rattle.schedule_command.specs.Grammar as G;

use definitions::PlayerId;
use definitions::limits::LONGEST_LINE;
use grid_world::Session;
use schedule::Step;
use text_fields::{move_then_nonce, number_then, read_frame, read_number};

/// What a line says.
#[derive(Drop)]
pub enum ScheduleLine {
    /// Nothing: it is empty or a comment, and is passed over.
    Nothing,
    /// This step is to be taken.
    Step(Step),
    /// How often the player's peer gave each answer is to be told.
    Tally(PlayerId),
    /// It is not in the grammar.
    Bad,
}

/// The last player of the session.
fn last_player(session: &Session) -> u32
    ensures last { result ≡ G.last_player session.now }
    ensures within { result < players_of session.now }
    ensures small { result < 256 }
{
    session.facts();
    u32::from(session.players()) - 1
}

/// A player's choice.
#[tactic(auto, unfolding(crate::specs::Grammar::choice_of))]
fn read_choice(session: &Session, text: &[u8]) -> Option<Step>
    ensures value { result ≡ G.choice_of (G.last_player session.now) text.now }
    ensures players { IfSome result (HasPlayers session.now) }
{
    let (player, rest) = number_then(last_player(session), text)?;
    let (mv, nonce) = move_then_nonce(rest)?;
    Some(Step::Choose {
        player: player as u8,
        mv,
        nonce,
    })
}

/// A delivery.
#[tactic(auto, unfolding(crate::specs::Grammar::delivery_of))]
fn read_delivery(session: &Session, text: &[u8]) -> Option<Step>
    ensures value { result ≡ G.delivery_of (G.last_player session.now) text.now }
    ensures players { IfSome result (HasPlayers session.now) }
{
    let last = last_player(session);
    let (from, rest) = number_then(last, text)?;
    let (to, rest) = number_then(last, rest)?;
    let place = read_number(u32::MAX, rest)?;
    Some(Step::Deliver {
        from: from as u8,
        to: to as u8,
        place,
    })
}

/// A hostile player's frame.
#[tactic(auto, unfolding(crate::specs::Grammar::frame_in))]
fn read_hostile_frame(session: &Session, text: &[u8]) -> Option<Step>
    requires { length text.now ≤ LONGEST_LINE }
    ensures value { result ≡ G.frame_in (G.last_player session.now) text.now }
    ensures players { IfSome result (HasPlayers session.now) }
{
    let last = last_player(session);
    let (from, rest) = number_then(last, text)?;
    let (to, rest) = number_then(last, rest)?;
    let frame = read_frame(rest)?;
    Some(Step::Hostile {
        from: from as u8,
        to: to as u8,
        frame,
    })
}

/// A stop of a player's peer.
#[tactic(auto, unfolding(crate::specs::Grammar::stop_of))]
fn read_stop(session: &Session, text: &[u8]) -> Option<Step>
    ensures value { result ≡ G.stop_of (G.last_player session.now) text.now }
    ensures players { IfSome result (HasPlayers session.now) }
{
    let (player, rest) = number_then(last_player(session), text)?;
    let keep = read_number(u32::MAX, rest)?;
    Some(Step::Stop {
        player: player as u8,
        keep,
    })
}

/// The step that the line says, which has at most `LONGEST_LINE` bytes. None comes exactly where it says none.
#[tactic(auto, unfolding(crate::specs::Grammar::step_of))]
pub fn read_step(line: &[u8], session: &Session) -> Option<Step>
    requires { length line.now ≤ LONGEST_LINE }
    ensures value { result ≡ G.step_of session.now line.now }
    ensures players { IfSome result (HasPlayers session.now) }
{
    if let Some(text) = line.strip_prefix(b"choose ") {
        return read_choice(session, text);
    }
    if let Some(text) = line.strip_prefix(b"deliver ") {
        return read_delivery(session, text);
    }
    if let Some(text) = line.strip_prefix(b"frame ") {
        return read_hostile_frame(session, text);
    }
    read_stop(session, line.strip_prefix(b"stop ")?)
}

/// The player whose tally the line asks for.
#[tactic(auto, unfolding(crate::specs::Grammar::tally_of))]
fn read_tally(line: &[u8], session: &Session) -> Option<PlayerId>
    ensures value { result ≡ G.tally_of session.now line.now }
    ensures player { IfSome result (λ p. p < players_of session.now) }
{
    let player = read_number(last_player(session), line.strip_prefix(b"tally ")?)?;
    Some(player as u8)
}

/// What a line says that is neither empty nor a comment.
#[tactic(auto, unfolding(crate::specs::Grammar::request_of))]
fn read_request(line: &[u8], session: &Session) -> ScheduleLine
    requires { length line.now ≤ LONGEST_LINE }
    ensures value { result ≡ G.request_of session.now line.now }
    ensures players { G.IsOfPlayers session.now result }
{
    if let Some(step) = read_step(line, session) {
        return ScheduleLine::Step(step);
    }
    match read_tally(line, session) {
        Some(player) => ScheduleLine::Tally(player),
        None => ScheduleLine::Bad,
    }
}

/// Whether a line is empty or a comment.
pub(crate) fn is_passed_over(line: &[u8]) -> bool
    ensures { result ≡ G.is_passed_over line.now }
{
    line.is_empty() || line[0] == b'#'
}

/// What the line says, which has at most `LONGEST_LINE` bytes. All players that it names are the session's.
#[tactic(auto, unfolding(crate::specs::Grammar::line_of))]
pub fn read_line(line: &[u8], session: &Session) -> ScheduleLine
    requires { length line.now ≤ LONGEST_LINE }
    ensures value { result ≡ G.line_of session.now line.now }
    ensures players { G.IsOfPlayers session.now result }
{
    if is_passed_over(line) {
        return ScheduleLine::Nothing;
    }
    read_request(line, session)
}
