//! A look at the log that a run is to go on from, before it does: what of it will be dropped, and
//! what that may cost.

use crate::usage::name_in;
use command_names::Name;
use definitions::limits::LONGEST_LOG;
use definitions::{LogWhy, PlayerId};
use file_shelf::FileShelf;
use grid_world::Session;
use machine_files::MachineFiles;
use machine_host::text_of;
use old_log::{LogFault, OldFault, resume_whole};
use run_frame::open_session;
use std::{fs, str};

/// What a run goes on from: the files of the session and of the log, and the player's number.
#[derive(Clone, Copy)]
struct Older<'a> {
    session: &'a [u8],
    player: &'a [u8],
    old: &'a [u8],
}

/// What a run of these words goes on from, if it does.
fn older_in(words: &[Vec<u8>]) -> Option<Older<'_>> {
    match (name_in(words)?, words) {
        (Name::Peer, [_, session, _, _, player, _, _, old]) => Some(Older {
            session: session.as_slice(),
            player: player.as_slice(),
            old: old.as_slice(),
        }),
        (Name::Drive, [_, session, player, old]) => Some(Older {
            session: session.as_slice(),
            player: player.as_slice(),
            old: old.as_slice(),
        }),
        _ => None,
    }
}

/// Says what it may cost to go on from less than was shown.
fn warn(rt: &HostRuntime) {
    let _unsaid = eprintln!(rt;
        "lethwyrn: frames that were shown before and aren't in it are made anew, and convict you"
    );
    let _unsaid = eprintln!(rt; "lethwyrn: if that may be, stop now, and look for a whole log");
}

/// More bytes than an entry has: a crash in the midst of one leaves fewer of it.
const MORE_THAN_AN_ENTRY: usize = 96;

/// Whether a crash may have left such an end. A length that was changed in the midst of a log reads
/// as torn too, but more bytes stand after it.
fn is_torn_end(len: usize, fault: LogFault) -> bool {
    let rest = len.saturating_sub(fault.at as usize);
    matches!(fault.why, LogWhy::Torn) && rest < MORE_THAN_AN_ENTRY
}

/// Says what becomes of a log that is used up to this fault.
fn tell_fault(rt: &HostRuntime, path: &str, len: usize, fault: LogFault) {
    let at = fault.at;
    if at <= 1 {
        let _unsaid = eprintln!(rt;
            "lethwyrn: {path} has no entry of this session: the match is begun anew"
        );
        return warn(rt);
    }
    if is_torn_end(len, fault) {
        let _unsaid = eprintln!(rt;
            "lethwyrn: {path} has a torn end, as after a crash: its bytes from {at} on are dropped"
        );
        return;
    }
    let _unsaid = eprintln!(rt;
        "lethwyrn: {path} is damaged at byte {at} of {len}: all from there on is dropped"
    );
    warn(rt);
}

/// Looks at the bytes of the log. One that is refused is told by the run.
fn look_at(rt: &HostRuntime, session: &Session, player: PlayerId, path: &str, bytes: &[u8]) {
    if bytes.is_empty() {
        let _unsaid = eprintln!(rt; "lethwyrn: {path} is empty: the match is begun anew");
        return warn(rt);
    }
    if player >= session.players() {
        return;
    }
    if let Err(OldFault::Bad(fault)) = resume_whole(rt.alloc(), session, player, bytes)
        && matches!(
            fault.why,
            LogWhy::Torn | LogWhy::BadChain | LogWhy::BadEntry
        )
    {
        tell_fault(rt, path, bytes.len(), fault);
    }
}

/// Looks at the log that the words name, if the session and the log can be read.
fn look(rt: &HostRuntime, older: &Older<'_>) -> Option<()> {
    let player = str::from_utf8(older.player).ok()?.parse::<u8>().ok()?;
    let path = text_of(older.old).ok()?;
    let mut shelf = FileShelf::new(rt.alloc(), MachineFiles::new(rt));
    let session = open_session(rt.alloc(), &mut shelf, older.session).ok()?;
    if fs::metadata(rt, path).ok()?.len() > LONGEST_LOG as u64 {
        return None;
    }
    let bytes = fs::read(rt, path).ok()?;
    look_at(rt, &session, player, path, bytes.as_slice());
    Some(())
}

/// Says on the error stream what of the log that a run is to go on from will be dropped, and what
/// that may cost.
pub(crate) fn tell_of_older(rt: &HostRuntime, words: &[Vec<u8>]) {
    if let Some(older) = older_in(words) {
        let _looked = look(rt, &older);
    }
}
