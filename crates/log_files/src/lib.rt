//! Logs of a session as an auditor takes them: from files piece by piece, or whole from memory.
//!
//! [`take_log`] reads a file of a shelf from its front to its end, and no log is held whole. It promises that the auditor
//! stands for the file's entries exactly where the file is a log of the session, and else that the answer names the first
//! fault and its byte, as a reader of the whole bytes would; whatever the pieces in which the shelf gives them.
//! [`take_logs`] does so with several files, of which the first that is no log decides. The words of that are in
//! `specs/Logs.antt`, over the plain bytes, and `specs/Taken.antt`, `specs/Several.antt`. Both touch the shelf and the
//! buffer that they are given, and take no memory but what the auditor takes.
//!
//! [`audit`] is for a program that has the bytes of the logs: it tells what they show together, or which of them is the
//! first that is no log, and why. [`exhibit`] gives the frames by which a finding is shown without any log. Both promise
//! what an `Auditor` promises that took these logs and no others, take all memory from `alloc`, and touch nothing else.
//! Not more than [`MOST_LOGS`] logs are taken, which the caller sees to, and [`exhibit`] asks that the finding is one of
//! these logs: one of a report on them is. A tool that settles a match, once the logs of its players are there:
//!
//! ```
//! let session = read_session(alloc, text)?;
//! let mut logs = Vec::new(alloc);
//! for bytes in files {
//!     logs.push(LogText::new(bytes))?;
//! }
//! match audit(alloc, &session, &logs) {
//!     Ok(report) => {
//!         for finding in report.findings() {
//!             // what the command `judge` reads, and anybody with the session can judge without the logs
//!             let shown = exhibit(alloc, &session, &logs, finding)?;
//!             publish(print_exhibit(alloc, &shown)?);
//!         }
//!         for player in 0..session.players() {
//!             // where the player ended and what it scored, where the logs agree on all turns
//!             tell(player, report.agreed(player), report.world(player));
//!         }
//!     }
//!     // leave that log out, or cut it off at the byte, and say so in the judgement
//!     Err(AuditFault::BadLog { log, at, why }) => refuse(log, at, why),
//!     Err(AuditFault::Memory) => give_up(),
//! }
//! ```
#![tactic(auto)]

mod audits;
mod faults;
pub mod laws;
mod pieces;
mod several;
mod taking;
mod text;

pub use auditor::{Auditor, Exhibit, Finding, MOST_LOGS, PlayerId, Report, WorldLine};
pub use audits::{AuditFault, audit, exhibit};
pub use definitions::LogWhy;
pub use session_log::LogFault;
pub use several::{LogsTaken, take_logs};
pub use taking::{LogTaken, take_log};
pub use text::LogText;
