//! The commands over the files that their words name: what each reads, and what it makes of that.

ghost use Rattle.run_frame.specs.Outside.{Outside, with_files};
ghost use Rattle.run_frame.specs.Runs.{Works};
ghost use Rattle.file_commands.specs.AuditLaw.{audit_law};
ghost use Rattle.file_commands.specs.AuditWords.{auditing_said};
ghost use Rattle.file_commands.specs.JudgeLaw.{judge_law};
ghost use Rattle.file_commands.specs.JudgeWords.{judging_said};
ghost use Rattle.file_commands.specs.SealedJudgeLaw.{sealed_judge_law};
ghost use Rattle.file_commands.specs.SealedWords.{sealed_judging_said};
ghost use Rattle.file_commands.specs.UpgradeLaw.{upgrade_law};

use crate::audit_words::AuditWords;
use crate::auditing::put_audit;
use crate::audits::open_audit;
use crate::exhibits::open_case;
use crate::judge_words::JudgeWords;
use crate::judging::{judge_exhibit, judge_sealed_exhibit};
use crate::sealed_cases::open_sealed_case;
use crate::sealed_words::SealedJudgeWords;
use crate::upgrading::upgrade;
use run_frame::{Status, open_session};
use station::{Shelf, Sink};
use std::alloc::Global;

/// Prints what the logs of files show in the session of another, but for the last line of a refusal.
pub fn run_audit<O: Sink, H: Shelf>(
    alloc: Global,
    words: AuditWords<'_>,
    out: &mut O,
    shelf: &mut H,
) -> Status
    ensures { (rest : Outside) → Works (audit_law (auditing_said words.entry)) (with_files rest (O.state out.old) (H.state shelf.old)) (with_files rest (O.state out.new) (H.state shelf.new)) result }
{
    match open_audit(alloc, shelf, words.session, words.logs) {
        Ok(audited) => put_audit(alloc, &audited.auditor, &audited.session, out),
        Err(status) => status,
    }
}

/// Judges the exhibit of a file in the session of another, but for the last line of a refusal.
pub fn run_judge<O: Sink, H: Shelf>(
    alloc: Global,
    words: JudgeWords<'_>,
    out: &mut O,
    shelf: &mut H,
) -> Status
    ensures { (rest : Outside) → Works (judge_law (judging_said words.entry)) (with_files rest (O.state out.old) (H.state shelf.old)) (with_files rest (O.state out.new) (H.state shelf.new)) result }
{
    match open_case(alloc, shelf, words.session, words.evidence) {
        Ok(case) => judge_exhibit(alloc, &case.session, &case.exhibit, out),
        Err(status) => status,
    }
}

/// Judges the exhibit with seals of a file in the session of another by the roots of a third, but for
/// the last line of a refusal.
pub fn run_sealed_judge<O: Sink, H: Shelf>(
    alloc: Global,
    words: SealedJudgeWords<'_>,
    out: &mut O,
    shelf: &mut H,
) -> Status
    ensures { (rest : Outside) → Works (sealed_judge_law (sealed_judging_said words.entry)) (with_files rest (O.state out.old) (H.state shelf.old)) (with_files rest (O.state out.new) (H.state shelf.new)) result }
{
    match open_sealed_case(alloc, shelf, words) {
        Ok(case) => judge_sealed_exhibit(alloc, &case, out),
        Err(status) => status,
    }
}

/// Prints the session of a file in version 2, but for the last line of a refusal.
pub fn run_upgrade<O: Sink, H: Shelf>(
    alloc: Global,
    session: &[u8],
    out: &mut O,
    shelf: &mut H,
) -> Status
    ensures { (rest : Outside) → Works (upgrade_law session.now) (with_files rest (O.state out.old) (H.state shelf.old)) (with_files rest (O.state out.new) (H.state shelf.new)) result }
{
    match open_session(alloc, shelf, session) {
        Ok(session) => upgrade(alloc, &session, out),
        Err(status) => status,
    }
}
