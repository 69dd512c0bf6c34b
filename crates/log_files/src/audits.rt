//! Whole logs are audited.

ghost use Rattle.std.specs.Prelude.{◌≡◌, ◌<◌, ◌≤◌, ◌+◌, ℕ, None, length, IfErr, IfOk, OnOk};
ghost use Rattle.definitions.specs.Exhibits.{Shows};
ghost use Rattle.definitions.specs.Findings.{findings};
ghost use Rattle.definition_laws.specs.Members.{Has};
ghost use Rattle.auditor.specs.Audits.{StandsFor};
ghost use Rattle.auditor.specs.Exhibits.{IsExhibitOf};
ghost use Rattle.auditor.specs.Taking.{LeavesOthers};
ghost use Rattle.log_files.specs.Logs.{fault_of};
ghost use Rattle.log_files.specs.Taken.{IsTaken, IsUntaken};
ghost use Rattle.log_files.specs.Audited as A;

use crate::faults::too_long;
use crate::text::LogText;
use auditor::{Auditor, Exhibit, Finding, MOST_LOGS, Report};
use definitions::LogWhy;
use definitions::limits::LONGEST_LOG;
use grid_world::Session;
use session_log::{LogFault, LogFeed};
use std::alloc::{AllocError, Global};

/// Why there is no report.
#[derive(Clone, Copy, Debug, PartialEq, Eq)]
pub enum AuditFault {
    /// The log of this number, counted from 0, is the first that is no log of the session, from this byte on: the begin of the entry
    /// that is torn, isn't chained to those before it, or is none of the owner's log. The byte is 0 where the log has its first byte
    /// alone, or that is no player's number, and `LONGEST_LOG` where it has more bytes than that, whatever stands in them.
    BadLog { log: u32, at: u32, why: LogWhy },
    /// Memory was wanting.
    Memory,
}

impl AuditFault {
    /// The fault as one of the log of this number.
    fn of(log: u32, fault: LogFault) -> AuditFault
        ensures { result ≡ A.of_fault log fault }
    {
        AuditFault::BadLog {
            log,
            at: fault.at,
            why: fault.why,
        }
    }
}

/// The answer where the log of this number ends so.
fn ended_so(log: u32, end: Result<(), LogFault>) -> Result<(), AuditFault>
    ensures { result ≡ A.ended_by log (fault_of end) }
{
    match end {
        Ok(()) => Ok(()),
        Err(fault) => Err(AuditFault::of(log, fault)),
    }
}

/// Takes these bytes as the log of this number, of which the auditor has nothing yet.
fn take_text(
    auditor: &mut Auditor,
    session: &Session,
    log: u32,
    text: &[u8],
) -> Result<(), AuditFault>
    requires log { log < MOST_LOGS }
    requires session { auditor.old.session ≡ session.now }
    requires untaken { IsUntaken auditor.old log }
    ensures ok { OnOk result (IsTaken session.now auditor.old auditor.new log text.now) }
    ensures bad { IfErr result (A.IsFaultOf session.now log text.now) }
    ensures session { auditor.new.session ≡ auditor.old.session }
    ensures others { LeavesOthers auditor.old auditor.new log }
{
    if text.len() > LONGEST_LOG {
        return Err(AuditFault::of(log, too_long()));
    }
    let mut feed = LogFeed::new(session);
    match auditor.take_bytes(log, &mut feed, text) {
        Ok(()) => ended_so(log, feed.ending()),
        Err(_) => Err(AuditFault::Memory),
    }
}

/// Takes these logs, the first one as that of this number.
fn take_texts(
    auditor: &mut Auditor,
    session: &Session,
    number: u32,
    logs: &[LogText],
) -> Result<(), AuditFault>
    requires few { number + length logs.now ≤ MOST_LOGS }
    requires session { auditor.old.session ≡ session.now }
    requires untaken { (i : ℕ) → number ≤ i → IsUntaken auditor.old i }
    ensures ok { OnOk result (A.AreTaken session.now auditor.old auditor.new number logs.now) }
    ensures bad { IfErr result (A.IsFirstFault session.now number logs.now) }
{
    match logs {
        [] => Ok(()),
        [one, rest @ ..] => {
            take_text(auditor, session, number, one.bytes())?;
            take_texts(auditor, session, number + 1, rest)
        }
    }
}

/// An auditor that took these logs and no others.
fn auditor_of(alloc: Global, session: &Session, logs: &[LogText]) -> Result<Auditor, AuditFault>
    requires { length logs.now ≤ MOST_LOGS }
    ensures ok { IfOk result (λ a. (A.first_fault session.now 0 logs.now ≡ None) × StandsFor session.now (A.owners_of session.now logs.now) (A.logs_of session.now logs.now) a) }
    ensures bad { IfErr result (A.IsFirstFault session.now 0 logs.now) }
{
    let Ok(mut auditor) = Auditor::new(alloc, session) else {
        return Err(AuditFault::Memory);
    };
    take_texts(&mut auditor, session, 0, logs)?;
    Ok(auditor)
}

/// What the logs of the session show together: at most 64 logs, in any order, each with the bytes of one log.
///
/// BadLog comes exactly where a log is longer than `LONGEST_LOG` or isn't the log of a player of this session, and names the first
/// such log and its first fault, TooLong before any other. An empty log is one. Memory comes where `alloc` has none, perhaps before a bad
/// log was found.
pub fn audit(alloc: Global, session: &Session, logs: &[LogText]) -> Result<Report, AuditFault>
    requires { length logs.now ≤ MOST_LOGS }
    ensures report { IfOk result (A.Audits session.now logs.now) }
    ensures bad { IfErr result (A.IsFirstFault session.now 0 logs.now) }
{
    let auditor = auditor_of(alloc, session, logs)?;
    match auditor.report(alloc) {
        Ok(report) => Ok(report),
        Err(_) => Err(AuditFault::Memory),
    }
}

/// The frames by which a finding of the report on these logs is shown: whoever has the session can judge them without the logs, and the
/// judge says yes. The logs are read again for it. An error comes where `alloc` has no memory.
pub fn exhibit(
    alloc: Global,
    session: &Session,
    logs: &[LogText],
    finding: &Finding,
) -> Result<Exhibit, AllocError>
    requires few { length logs.now ≤ MOST_LOGS }
    requires sound { A.first_fault session.now 0 logs.now ≡ None }
    requires found { Has (findings session.now (A.logs_of session.now logs.now)) finding.now }
    ensures frames { IfOk result (IsExhibitOf session.now (A.logs_of session.now logs.now) finding.now) }
    ensures shows { IfOk result (λ x. Shows session.now x.player x.turn x.kind x.frames) }
{
    let Ok(auditor) = auditor_of(alloc, session, logs) else {
        return Err(AllocError);
    };
    auditor.exhibit(alloc, finding)
}
