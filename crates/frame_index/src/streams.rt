//! What a log shows of a player's stream.

ghost use Rattle.std.specs.Prelude.{◌≡◌, ◌<◌, List};
ghost use Rattle.definitions.specs.World.{players_of};
ghost use Rattle.definitions.specs.declared.frames.TurnFrame.{TurnFrame};
ghost use Rattle.definitions.specs.Held.{known_to};
ghost use Rattle.frame_index.specs.Streams.{stream_of};

use definitions::PlayerId;
use grid_world::{Session, Stream};
use move_rules::start_track;

/// The stream of which no place is there.
pub fn start_stream(session: &Session, q: PlayerId) -> Stream
    requires { q < players_of session.now }
    ensures { (fs : List TurnFrame) → result ≡ stream_of session.now q (known_to session.now q fs 0) }
{
    Stream {
        commits: 0,
        resolved: 0,
        track: start_track(session, q),
    }
}
