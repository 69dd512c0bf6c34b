//! The commands that read files and print: `audit`, `judge` and `upgrade`.
//!
//! What is promised of each is its law, on one page: `specs/AuditLaw.antt`, `JudgeLaw`, `SealedJudgeLaw` and `UpgradeLaw`.
//! By the law go [`run_audit`], [`run_judge`], [`run_sealed_judge`] and [`run_upgrade`], which read the files that the words
//! name and do the rest by:
//!
//! - [`put_audit`] is handed an auditor that took the logs of a session. It prints each finding, and right after it the
//!   evidence by which whoever has the session judges the finding again without the logs; then how many turns of each
//!   player the logs agree on, and where each player stands at the end. It takes memory for a report and for one exhibit at
//!   a time, after the first byte too.
//! - [`judge_exhibit`] answers `yes` exactly where the frames of an exhibit show, without any log, that a player broke the
//!   protocol. With roots it asks for a valid seal of each frame too. It takes its memory before the first byte is written.
//! - [`upgrade`] prints a session's text in version 2. A session of version 1 becomes one in which players commit one turn
//!   ahead and all walk and strike alike, with the id of its new text; one of version 2 stays as it is. What is printed is
//!   read as that session, and in both every move is judged alike and every player reaches and affects the same cells. It
//!   takes its memory before the first byte is written.
//!
//! Each has its words (`specs/AuditWords.antt`, `JudgeWords`, `UpgradeWords`), its answer and its causes (`Audit`, `Judge`,
//! `Upgrade`), and what stands behind its text in plain words (`AuditLaws`, `JudgeLaws`, `UpgradeLaws`). The crate touches
//! the sink and the shelf that it is handed.
#![tactic(auto)]

pub mod audit_laws;
mod audit_lines;
mod audit_printing;
mod audit_reading;
pub mod audit_words;
pub mod auditing;
mod audits;
mod commands;
mod exhibits;
pub mod judge_words;
pub mod judging;
mod sealed_cases;
pub mod sealed_words;
pub mod upgrade_laws;
pub mod upgrade_words;
pub mod upgrading;

pub use audit_lines::finding_line;
pub use audit_reading::read_audit_words;
pub use audit_words::AuditWords;
pub use auditing::put_audit;
pub use commands::{run_audit, run_judge, run_sealed_judge, run_upgrade};
pub use judge_words::{JudgeWords, read_judge_words};
pub use judging::judge_exhibit;
pub use sealed_cases::open_roots;
pub use sealed_words::{SealedJudgeWords, read_sealed_judge_words};
pub use upgrade_words::read_upgrade_words;
pub use upgrading::upgrade;
