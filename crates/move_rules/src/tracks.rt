//! Tracks: where a player begins, and what a move leaves.

ghost use Rattle.std.specs.Prelude.{◌≡◌, ◌<◌, ◌≤◌, IfSome};
ghost use Rattle.definitions.specs.World.{players_of};
ghost use Rattle.definitions.specs.Moves as M;

use definitions::{Move, PlayerId, Track};
use grid_world::Session;

/// The track with which the player begins: its start cell and the start charge.
pub fn start_track(session: &Session, player: PlayerId) -> Track
    requires { player < players_of session.now }
    ensures { result ≡ M.start_track session.now player }
{
    Track {
        at: session.start(player),
        charge: session.rules().start_charge,
    }
}

/// The track after a legal move: at its target, with the charge less the cost after a strike, and one more, up to the
/// cap, without one. Whoever asks has judged the move, of which the cost of its strike is asked here.
pub fn next_track(session: &Session, track: &Track, mv: &Move) -> Track
    requires { IfSome mv.now.strike (λ c. session.now.rules.cost ≤ track.now.charge) }
    ensures { result ≡ M.next_track session.now track.now mv.now }
{
    let rules = session.rules();
    let charge = match mv.strike {
        None => track.charge.saturating_add(1).min(rules.cap),
        Some(_) => track.charge - rules.cost,
    };
    Track { at: mv.to, charge }
}
