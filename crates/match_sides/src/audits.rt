//! The logs of a match, looked at side by side.

ghost use Rattle.std.specs.Prelude.{◌≡◌};
ghost use Rattle.auditor.specs.Audits.{is_of_its_sender};

use auditor::{Auditor, MOST_LOGS, Report};
use definitions::limits::LONGEST_LOG;
use definitions::{Entry, PlayerId};
use grid_world::Session;
use old_log::{Resumed, resume_from};
use peer_core::Peer;
use std::alloc::Global;
use std::test::Fail;

/// The peer of a log of which nothing was dropped.
fn whole(resumed: Resumed) -> Result<Peer, Fail> {
    match resumed.dropped {
        Some(_) => Err("a log that isn't whole".into()),
        None => Ok(resumed.peer),
    }
}

/// The peer that goes on from this log of its player, which has to be whole.
pub fn replayed(alloc: Global, session: &Session, me: PlayerId, log: &[u8]) -> Result<Peer, Fail> {
    if me >= session.players() {
        return Err("no player".into());
    }
    match resume_from(alloc, session, me, log) {
        Err(_) => Err("no log".into()),
        Ok(resumed) => whole(resumed),
    }
}

/// Whether what the entry tells of is of the player from whom it came.
fn is_its_senders(entry: &Entry) -> bool
    ensures { result ≡ is_of_its_sender entry.now }
{
    match entry {
        Entry::Chose { .. } => true,
        Entry::Made(_) => true,
        Entry::Got(player, frame) => frame.player() == *player,
    }
}

/// Takes an entry of a log that is there.
fn take(auditor: &mut Auditor, log: u32, entry: &Entry) -> Result<(), Fail> {
    if log >= MOST_LOGS || auditor.count(log) as usize >= LONGEST_LOG || !is_its_senders(entry) {
        return Err("no such entry".into());
    }
    auditor.take(log, entry)?;
    Ok(())
}

/// Takes a player's log with these bytes, which is whole.
fn take_log(
    alloc: Global,
    auditor: &mut Auditor,
    session: &Session,
    owner: PlayerId,
    bytes: &[u8],
) -> Result<(), Fail> {
    let log = u32::from(owner);
    if log >= MOST_LOGS {
        return Err("many logs".into());
    }
    auditor.owner(log, owner);
    for entry in replayed(alloc, session, owner, bytes)?.entries() {
        take(auditor, log, entry)?;
    }
    Ok(())
}

/// What the logs show together, that of player 0 first.
pub fn report_of(alloc: Global, session: &Session, logs: &[&[u8]]) -> Result<Report, Fail> {
    let mut auditor = Auditor::new(alloc, session)?;
    let mut owner = 0u8;
    for bytes in logs {
        take_log(alloc, &mut auditor, session, owner, bytes)?;
        owner = owner.saturating_add(1);
    }
    Ok(auditor.report(alloc)?)
}

/// Whether the logs have no finding, and show all of the match.
pub fn is_clean(alloc: Global, session: &Session, logs: &[&[u8]]) -> Result<bool, Fail> {
    let report = report_of(alloc, session, logs)?;
    for player in 0..session.players() {
        if report.world(player).is_none() || report.agreed(player) != session.turns() {
            return Ok(false);
        }
    }
    Ok(report.findings().is_empty())
}

/// Whether the player made the frame that another one got.
fn has_made(peer: &Peer, entry: &Entry) -> bool {
    match entry {
        Entry::Got(player, frame) => {
            *player != peer.me() || peer.entries().contains(&Entry::Made(*frame))
        }
        _ => true,
    }
}

/// Whether each frame that one got of the other was made by it.
pub fn heard_truly(hearer: &Peer, speaker: &Peer) -> bool {
    hearer
        .entries()
        .iter()
        .all(|entry| has_made(speaker, entry))
}
