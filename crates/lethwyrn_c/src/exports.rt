//! What C calls to make a peer, and to free it.

ghost use Rattle.std.specs.Prelude.{◌≡◌, ◌≢◌, ◌<◌, ◌≤◌, ◌⊎◌, ℕ, List, ◌∷◌, Some, None, Ok, Err, IfOk, IfErr, IsTrue, length, pos, replicate};
ghost use Rattle.definitions.specs.World.{players_of};
ghost use Rattle.grid_world.specs.Answers.{IsReadFrom};
ghost use Rattle.grid_world.specs.Reading.{game_at};
ghost use Rattle.old_log.specs.Old.{old_fault};
ghost use Rattle.wire_frames.specs.Reading.{at_start};
ghost use Rattle.lethwyrn_c.specs.declared.link.TheConstants.{LINKS};
ghost use Rattle.lethwyrn_c.specs.Calls as C;
ghost use Rattle.lethwyrn_c.specs.Marks.{IsMarkOf};

use crate::codes;
use crate::handle::{Handle, open, shut};
use crate::mark::Mark;
use crate::seat::Seat;
use crate::views::Refusal;
use definitions::Entry;
use definitions::limits::LONGEST_LOG;
use grid_world::{Session, SessionFault, read_session};
use old_log::{OldFault, resume_from};
use peer_core::Peer;
use std::alloc::Global;

/// Reads a session's text, or says why it is refused.
pub(crate) fn read(alloc: Global, text: &[u8], why: &mut Refusal) -> Result<Session, i32>
    ensures read { IfOk result (λ s. IsReadFrom s text.now × (game_at text.now ≡ Ok s) × (why.new ≡ why.old)) }
    ensures code { IfErr result (λ code. C.IsUnread text.now why.old why.new code) }
{
    match read_session(alloc, text) {
        Ok(session) => Ok(session),
        Err(SessionFault::Memory) => Err(codes::NO_MEMORY),
        Err(SessionFault::At { line, what }) => {
            why.line = line;
            why.rule = codes::of_rule(&what);
            Err(codes::BAD_SESSION)
        }
    }
}

/// Puts a peer into a handle that has none, if there is memory for it. The mark is that of its
/// whole log.
fn seat(alloc: Global, handle: &mut Handle, peer: Peer, mark: Mark) -> i32
    requires all { mark.entries ≡ length peer.entries }
    requires stands { IsMarkOf peer mark }
    ensures made { result ≡ pos 0 → handle.new.value ≡ Some (record { peer = peer; links = replicate LINKS at_start; given = length peer.entries; stored = length peer.entries; sent = 0 }) }
    ensures refused { result ≢ pos 0 → handle.new.value ≡ handle.old.value }
    ensures code { (result ≡ pos 0) ⊎ (result ≡ pos 2) }
{
    match Box::new(alloc, Seat::new(peer, mark)) {
        Err(_) => codes::NO_MEMORY,
        Ok(seat) => {
            shut(handle, seat);
            codes::OK
        }
    }
}

/// Makes a peer of a session's text and a player. The handle has none before.
#[unsafe(no_mangle)]
pub extern "C" fn lethwyrn_make(
    alloc: Global,
    handle: &mut Handle,
    text: &[u8],
    player: u8,
    why: &mut Refusal,
) -> i32
    ensures code { C.IsDue handle.old.value (C.make_code text.now player) result }
    ensures made { result ≡ pos 0 → C.IsThere (C.IsMade text.now player) handle.new.value }
    ensures refused { result ≢ pos 0 → handle.new.value ≡ handle.old.value }
    ensures why { result ≡ pos 3 → why.new ≡ C.session_told (game_at text.now) why.old }
    ensures unsaid { result ≢ pos 3 → why.new ≡ why.old }
{
    if let Some(old) = open(alloc, handle) {
        shut(handle, old);
        return codes::IN_USE;
    }
    let session = match read(alloc, text, why) {
        Ok(session) => session,
        Err(code) => return code,
    };
    if player >= session.players() {
        return codes::BAD_PLAYER;
    }
    match Peer::new(alloc, &session, player) {
        Err(_) => codes::NO_MEMORY,
        Ok(peer) => {
            let mark = Mark::first(&peer);
            seat(alloc, handle, peer, mark)
        }
    }
}

/// How many bytes of a log are kept: up to its first fault, if it has one, and none where it has no whole entry.
fn kept_at(entries: &[Entry], dropped: Option<u32>, log: &[u8]) -> u32
    requires { length log.now ≤ LONGEST_LOG }
    ensures { result ≡ C.kept_at entries.now dropped (length log.now) }
{
    match (entries, dropped) {
        ([], _) => 0,
        (_, None) => log.len() as u32,
        (_, Some(at)) => at,
    }
}

/// Puts a peer that goes on from a log into a handle that has none, or says why it can't go on.
fn resume(
    alloc: Global,
    handle: &mut Handle,
    session: &Session,
    player: u8,
    log: &[u8],
    why: &mut Refusal,
) -> i32
    requires player { player < players_of session.now }
    ensures code { (result ≡ pos (C.log_code (old_fault session.now player log.now))) ⊎ (result ≡ pos 2) }
    ensures on { result ≡ pos 0 → C.IsThere (C.IsGoneOn session.now player log.now) handle.new.value }
    ensures refused { result ≢ pos 0 → handle.new.value ≡ handle.old.value }
    ensures why { result ≢ pos 2 → why.new ≡ C.resume_told player log.now (Ok session.now) why.old }
    ensures unsaid { result ≡ pos 2 → why.new ≡ why.old }
{
    match resume_from(alloc, session, player, log) {
        Err(OldFault::NoMemory) => codes::NO_MEMORY,
        Err(OldFault::Bad(fault)) => {
            why.at = fault.at;
            why.why = codes::of_log(&fault.why);
            codes::BAD_LOG
        }
        Ok(resumed) => {
            let writer = resumed.writer;
            let kept = kept_at(resumed.peer.entries(), resumed.dropped, log);
            let dropped = resumed.dropped.is_some();
            let mark = Mark::whole(&resumed.peer, writer, resumed.kept);
            let code = seat(alloc, handle, resumed.peer, mark);
            if code == codes::OK {
                why.at = kept;
                why.dropped = dropped;
            }
            code
        }
    }
}

/// Makes a peer that goes on from a log's bytes. The handle has none before.
#[unsafe(no_mangle)]
pub extern "C" fn lethwyrn_resume(
    alloc: Global,
    handle: &mut Handle,
    text: &[u8],
    player: u8,
    log: &[u8],
    why: &mut Refusal,
) -> i32
    ensures code { C.IsDue handle.old.value (C.resume_code text.now player log.now) result }
    ensures on { result ≡ pos 0 → C.IsThere (C.IsOn text.now player log.now) handle.new.value }
    ensures refused { result ≢ pos 0 → handle.new.value ≡ handle.old.value }
    ensures why { (result ≡ pos 0) ⊎ (result ≡ pos 3) ⊎ (result ≡ pos 5) → why.new ≡ C.resume_told player log.now (game_at text.now) why.old }
    ensures unsaid { (result ≡ pos 2) ⊎ (result ≡ pos 4) ⊎ (result ≡ pos 6) → why.new ≡ why.old }
{
    if let Some(old) = open(alloc, handle) {
        shut(handle, old);
        return codes::IN_USE;
    }
    let session = match read(alloc, text, why) {
        Ok(session) => session,
        Err(code) => return code,
    };
    if player >= session.players() {
        return codes::BAD_PLAYER;
    }
    resume(alloc, handle, &session, player, log, why)
}

/// Gives the memory of the peer back. A handle without one stays so.
#[unsafe(no_mangle)]
pub extern "C" fn lethwyrn_free(alloc: Global, handle: &mut Handle)
    ensures { handle.new.value ≡ None }
{
    drop(open(alloc, handle));
}
