//! Findings, and for each of them what shows it to a judge.

ghost use Rattle.std.specs.Prelude.{◌≡◌, IfOk, filter_map};
ghost use Rattle.definition_laws.specs.Members.{Has};
ghost use Rattle.accuser.specs.SealBooks.{seal_in};
ghost use Rattle.accuser.specs.SealedReports.{IsReportOn, found_in};
ghost use Rattle.accuser.specs.SealedShows as S;

use crate::seal_book::SealBook;
use crate::taker::Taker;
use auditor::{Finding, Report};
use definitions::TurnFrame;
use evidence::laws::findings_are_shown;
use seal_keys::Seal;
use sealed_evidence::{SealList, SealedExhibit};
use std::alloc::{AllocError, Global};
use std::marker::Model;

/// What the frames of files show, with the seals by which a judge believes it.
#[derive(Drop)]
pub struct SealedReport {
    // it took the frames, and keeps a seal of each
    taker: Taker,
    report: Report,
}

impl Model for SealedReport {
    ghost use Rattle.accuser.specs.SealedReports.{SealedReported};

    ghost Value = { SealedReported };

    ghost view = { λ r. record { audit = r.taker.auditor; seals = r.taker.seals; report = r.report } };
}

/// The seals that are kept of these frames, in the order of the frames.
fn seals_of(alloc: Global, book: &SealBook, frames: &[TurnFrame]) -> Result<Vec<Seal>, AllocError>
    ensures { IfOk result (λ seals. seals.items ≡ filter_map (seal_in book.now) frames.now) }
{
    let mut seals = Vec::new(alloc);
    for frame in frames {
        if let Some(seal) = book.seal(alloc, frame)? {
            seals.push(seal)?;
        }
    }
    Ok(seals)
}

impl SealedReport {
    /// The report on what was taken. An error comes where `alloc` has no memory.
    pub(crate) fn of(alloc: Global, taker: Taker) -> Result<SealedReport, AllocError>
        ensures { IfOk result (IsReportOn taker) }
    {
        let report = taker.auditor.report(alloc)?;
        Ok(SealedReport { taker, report })
    }

    /// The findings, by player, turn and kind, each with its least pair of spots.
    pub fn findings(&self) -> &[Finding]
        ensures { result.now ≡ found_in self.now }
    {
        self.report.findings()
    }

    /// What shows a finding of the report to whoever has the session and the roots: the frames of
    /// its exhibit, each with the seal with which it stands first in the files. The judge says yes.
    ///
    /// The finding is one of those that the report lists, of any kind. The files aren't needed any
    /// more. An error comes only where `alloc` has no memory.
    pub fn sealed(&self, alloc: Global, finding: &Finding) -> Result<SealedExhibit, AllocError>
        requires { Has (found_in self.now) finding.now }
        ensures exact { IfOk result (S.IsSealedOf self.now finding.now) }
        ensures shows { IfOk result (S.IsJudgedTrue self.now) }
    {
        findings_are_shown();
        let exhibit = self.taker.auditor.exhibit(alloc, finding)?;
        let seals = seals_of(alloc, &self.taker.seals, exhibit.frames.as_slice())?;
        Ok(SealedExhibit {
            exhibit,
            seals: SealList::new(seals),
        })
    }
}
