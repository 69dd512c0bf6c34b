//! What a peer brings up to date where its log grew.

ghost use Rattle.std.specs.Prelude.{◌≡◌, ◌<◌};
ghost use Rattle.definitions.specs.World.{players_of};
ghost use Rattle.definitions.specs.Logs as L;
ghost use Rattle.definitions.specs.Honest.{IsHonest, made_count};
ghost use Rattle.definitions.specs.Needs as N;
ghost use Rattle.peer_core.specs.OwnTracks.{AreOwnTracks};
ghost use Rattle.peer_core.specs.Others.{AreOthers};
ghost use Rattle.peer_core.specs.Settling.{IsCounted, IsCounting};

use crate::others::Others;
use crate::settling::{Settling, settle};
use definitions::{Entry, Opening, Place, PlayerId, Track};
use grid_world::Session;
use wait_rule::NeedList;

/// Finds for whom the owner of the log waits, and counts the turns that are settled by now.
pub(crate) fn follow(
    others: &mut Others,
    settling: &mut Settling,
    session: &Session,
    me: PlayerId,
    entries: &[Entry],
    openings: &[Opening],
    made: Place,
    tracks: &[Track],
    needs: &mut NeedList,
)
    requires owner { me < players_of session.now }
    requires honest { IsHonest session.now me entries.now }
    requires openings { openings.now ≡ L.chosen me entries.now }
    requires made { made ≡ made_count entries.now }
    requires tracks { AreOwnTracks session.now me entries.now tracks.now }
    requires others { AreOthers session.now me entries.now others.old }
    requires counting { IsCounting session.now me entries.now settling.old }
    ensures needs { needs.new ≡ N.needs session.now me entries.now }
    ensures others { AreOthers session.now me entries.now others.new }
    ensures counted { IsCounted session.now me entries.now settling.new }
{
    others.find_needs(session, me, entries, made, tracks, needs);
    let no_needs = needs.as_slice().is_empty();
    settle(
        settling, others, session, me, entries, openings, made, tracks, no_needs,
    );
}
