//! How a peer stands.

ghost use Rattle.std.specs.Prelude.{◌≡◌, ◌<◌};
ghost use Rattle.definitions.specs.World.{players_of};
ghost use Rattle.line_io.specs.Texts.{Puts};
ghost use Rattle.report_lines.specs.Report.{stand_text, viewed_text, players_text, own_score_text};

use crate::{due_line, player_line, put_needs, score_line};
use definitions::PlayerId;
use line_io::{SinkFault, put};
use peer_core::Peer;
use station::Sink;

/// Writes how the peer stands: the turn that it may choose, or the frames of others that it needs,
/// or that it is done. Where its log has a finding, writes nothing. Fails where the sink does.
#[tactic(auto, unfolding(crate::specs::Report::stand_text))]
pub fn put_stand<O: Sink>(peer: &Peer, out: &mut O) -> Result<(), SinkFault>
    ensures { Puts (O.state out.old) (O.state out.new) (stand_text peer.now.game peer.now.me peer.now.entries) result }
{
    if peer.finding().is_some() {
        return put(out, b"");
    }
    if peer.may_choose() {
        put(out, due_line(peer.choice().turn).as_slice())
    } else {
        put_needs(peer.needs().as_slice(), out)
    }
}

/// Writes what the peer's log shows of a player.
fn put_player<O: Sink>(peer: &Peer, player: PlayerId, out: &mut O) -> Result<(), SinkFault>
    requires { player < players_of peer.now.game }
    ensures { Puts (O.state out.old) (O.state out.new) (viewed_text peer.now.game peer.now.me peer.now.entries player) result }
{
    let view = peer.player(player);
    put(
        out,
        player_line(player, view.turns, view.track, view.next).as_slice(),
    )
}

/// Writes what the peer's log shows of each player, by rising number. Fails where the sink does.
pub fn put_players<O: Sink>(peer: &Peer, out: &mut O) -> Result<(), SinkFault>
    ensures { Puts (O.state out.old) (O.state out.new) (players_text peer.now.game peer.now.me peer.now.entries 0 (players_of peer.now.game)) result }
{
    'players: for player in 0..peer.session().players() {
        put_player(peer, player, out)?;
    }
    Ok(())
}

/// Writes the peer's own score: how many of its turns are settled, and the hits that it gave and
/// took in them. Fails where the sink does.
#[tactic(auto, unfolding(crate::specs::Report::own_score_text))]
pub fn put_score<O: Sink>(peer: &Peer, out: &mut O) -> Result<(), SinkFault>
    ensures { Puts (O.state out.old) (O.state out.new) (own_score_text peer.now.game peer.now.me peer.now.entries) result }
{
    let score = peer.score();
    put(
        out,
        score_line(peer.settled(), score.given, score.taken).as_slice(),
    )
}
