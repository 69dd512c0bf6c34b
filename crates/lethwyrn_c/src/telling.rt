//! What C asks of a peer.

ghost use Rattle.std.specs.Prelude.{◌≡◌, pos};
ghost use Rattle.lethwyrn_c.specs.Calls as C;

use crate::codes;
use crate::handle::{Handle, open, shut};
use crate::views::{FindingView, NeedView, ScoreView, TrackView};
use definitions::{Finding, Need};
use peer_core::Peer;
use std::alloc::Global;

/// Tells a need, if there is one.
fn tell_need(need: Option<Need>, out: &mut NeedView) -> i32
    ensures told { out.new ≡ C.need_told need out.old }
    ensures code { result ≡ pos (C.code_if need) }
{
    match need {
        None => codes::NOTHING,
        Some(need) => {
            *out = NeedView {
                turn: need.turn,
                next: need.next,
                what: codes::of_what(&need.what),
                player: need.player,
            };
            codes::OK
        }
    }
}

/// Tells a finding, if there is one.
fn tell_finding(finding: Option<Finding>, out: &mut FindingView) -> i32
    ensures told { out.new ≡ C.finding_told finding out.old }
    ensures code { result ≡ pos (C.code_if finding) }
{
    match finding {
        None => codes::NOTHING,
        Some(finding) => {
            *out = FindingView {
                turn: finding.turn,
                kind: codes::of_kind(&finding.kind),
                first: finding.first.entry,
                second: finding.second.entry,
                player: finding.player,
            };
            codes::OK
        }
    }
}

/// Tells what the log shows of a player, if the session has it.
fn tell_player(peer: &Peer, player: u8, out: &mut TrackView) -> i32
    ensures told { out.new ≡ C.track_of player peer.now out.old }
    ensures code { result ≡ pos (C.player_code player 0 peer.now.game) }
{
    if player >= peer.session().players() {
        return codes::BAD_PLAYER;
    }
    let view = peer.player(player);
    *out = TrackView {
        turns: view.turns,
        next: view.next,
        x: view.track.at.x,
        y: view.track.at.y,
        charge: view.track.charge,
    };
    codes::OK
}

/// The need with this number, from 0, by rising player.
#[unsafe(no_mangle)]
pub extern "C" fn lethwyrn_need(
    alloc: Global,
    handle: &mut Handle,
    number: usize,
    out: &mut NeedView,
) -> i32
    ensures code { result ≡ pos (C.code_or (λ s. C.code_if (C.need_at number s)) handle.old.value) }
    ensures told { out.new ≡ C.told_or (λ s. C.need_told (C.need_at number s)) handle.old.value out.old }
    ensures same { handle.new.value ≡ handle.old.value }
{
    let Some(seat) = open(alloc, handle) else {
        return codes::NO_PEER;
    };
    let code = tell_need(seat.peer().needs().as_slice().get(number).copied(), out);
    shut(handle, seat);
    code
}

/// The first finding of the log.
#[unsafe(no_mangle)]
pub extern "C" fn lethwyrn_finding(alloc: Global, handle: &mut Handle, out: &mut FindingView) -> i32
    ensures code { result ≡ pos (C.code_or (λ s. C.code_if (C.finding_at s)) handle.old.value) }
    ensures told { out.new ≡ C.told_or (λ s. C.finding_told (C.finding_at s)) handle.old.value out.old }
    ensures same { handle.new.value ≡ handle.old.value }
{
    let Some(seat) = open(alloc, handle) else {
        return codes::NO_PEER;
    };
    let code = tell_finding(seat.peer().finding(), out);
    shut(handle, seat);
    code
}

/// What the log shows of a player.
#[unsafe(no_mangle)]
pub extern "C" fn lethwyrn_player(
    alloc: Global,
    handle: &mut Handle,
    player: u8,
    out: &mut TrackView,
) -> i32
    ensures code { result ≡ pos (C.code_or (C.known_code player) handle.old.value) }
    ensures told { out.new ≡ C.told_or (C.track_told player) handle.old.value out.old }
    ensures same { handle.new.value ≡ handle.old.value }
{
    let Some(seat) = open(alloc, handle) else {
        return codes::NO_PEER;
    };
    let code = tell_player(seat.peer(), player, out);
    shut(handle, seat);
    code
}

/// The turn to be chosen next, the place of the next own frame, and the own track before the turn.
#[unsafe(no_mangle)]
pub extern "C" fn lethwyrn_next(alloc: Global, handle: &mut Handle, out: &mut TrackView) -> i32
    ensures code { result ≡ pos (C.code_or C.next_code handle.old.value) }
    ensures told { out.new ≡ C.told_or C.next_told handle.old.value out.old }
    ensures same { handle.new.value ≡ handle.old.value }
{
    let Some(seat) = open(alloc, handle) else {
        return codes::NO_PEER;
    };
    let choice = seat.peer().choice();
    *out = TrackView {
        turns: choice.turn,
        next: seat.peer().made_count(),
        x: choice.track.at.x,
        y: choice.track.at.y,
        charge: choice.track.charge,
    };
    let may = seat.peer().may_choose();
    shut(handle, seat);
    if may { codes::OK } else { codes::NOT_NOW }
}

/// How many own turns are settled, and the hits that the peer gave and took in them.
#[unsafe(no_mangle)]
pub extern "C" fn lethwyrn_score(alloc: Global, handle: &mut Handle, out: &mut ScoreView) -> i32
    ensures code { result ≡ pos (C.code_or C.peer_code handle.old.value) }
    ensures told { out.new ≡ C.told_or C.score_told handle.old.value out.old }
    ensures same { handle.new.value ≡ handle.old.value }
{
    let Some(seat) = open(alloc, handle) else {
        return codes::NO_PEER;
    };
    let score = seat.peer().score();
    *out = ScoreView {
        settled: seat.peer().settled(),
        given: score.given,
        taken: score.taken,
    };
    shut(handle, seat);
    codes::OK
}
