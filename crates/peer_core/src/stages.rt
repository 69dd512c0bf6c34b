//! Which own frame comes next, and where its sender stood.

ghost use Rattle.std.specs.Prelude.{◌≡◌, ◌<◌};
ghost use Rattle.definitions.specs.World.{players_of};
ghost use Rattle.definitions.specs.Honest.{IsHonest, made_count};
ghost use Rattle.wait_rule.specs.Waiting.{IsStage};
ghost use Rattle.wait_rule.specs.Shown.{IsStageOf};
ghost use Rattle.peer_core.specs.OwnTracks.{AreOwnTracks};

use definitions::{Entry, Place, PlayerId, Track, What};
use grid_world::Session;
use wait_rule::Stage;

/// The stage that the own frames have come to, where so many are made and the owner had these tracks.
pub(crate) fn next_stage(
    session: &Session,
    _me: PlayerId,
    _entries: &[Entry],
    made: Place,
    tracks: &[Track],
) -> Stage
    requires owner { _me < players_of session.now }
    requires honest { IsHonest session.now _me _entries.now }
    requires made { made ≡ made_count _entries.now }
    requires tracks { AreOwnTracks session.now _me _entries.now tracks.now }
    ensures stage { IsStage session.now result }
    ensures here { IsStageOf session.now _me _entries.now result }
{
    session.facts();
    match session.slot_at(made) {
        None => Stage::After,
        Some(slot) => match slot.what {
            What::Commit => Stage::Commit {
                turn: slot.turn,
                last: tracks[slot.turn.saturating_sub(session.ahead()) as usize].at,
            },
            What::Reveal => Stage::Reveal {
                turn: slot.turn,
                at: tracks[slot.turn as usize].at,
            },
        },
    }
}
