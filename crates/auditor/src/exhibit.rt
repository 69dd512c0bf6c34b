//! The exhibit of a finding.

ghost use Rattle.std.specs.Prelude.{◌≡◌, ◌++◌, ◌<◌, ℕ, List, Option, IfOk, OnOk};
ghost use Rattle.definitions.specs.declared.logs.Entry.{Entry};
ghost use Rattle.definitions.specs.Exhibits.{Shows};
ghost use Rattle.definitions.specs.Findings as D;
ghost use Rattle.definitions.specs.Lists.{EachIs};
ghost use Rattle.definitions.specs.World.{Game, players_of};
ghost use Rattle.definition_laws.specs.Members.{Has};
ghost use Rattle.frame_index.specs.Frames.{IsIndex};
ghost use Rattle.evidence.specs.Laws.{IsLogOf};
ghost use Rattle.auditor.specs.Audits.{IsAuditOf, StandsFor};
ghost use Rattle.auditor.specs.Exhibits as X;

use crate::auditor::Auditor;
use crate::frames::{kept_at, put_both, put_commit_first};
use crate::turns::put_turns;
use definitions::{Finding, Kind, TurnFrame};
use evidence::laws::findings_are_shown;
use evidence::{Exhibit, FrameList};
use frame_index::{FrameIndex, Seen};
use grid_world::Session;
use std::alloc::{AllocError, Global};

/// Whether the kind is that of an illegal move.
fn is_illegal(kind: Kind) -> bool
    ensures { result ≡ X.is_illegal kind }
{
    match kind {
        Kind::Illegal => true,
        _ => false,
    }
}

/// Puts the frames at the finding's spots behind the others.
fn put_pair(
    index: &FrameIndex,
    finding: &Finding,
    seen: &mut Vec<Seen>,
    out: &mut Vec<TurnFrame>,
) -> Result<(), AllocError>
    ensures { OnOk result ((game : Game) (logs : List (List Entry)) → IsIndex game logs index.now → Has (D.findings game logs) finding.now → out.new.items ≡ out.old.items ++ X.pair_shown logs finding.now) }
{
    index.gather(finding.player, finding.turn, seen)?;
    let first = kept_at(seen, finding.first);
    let second = kept_at(seen, finding.second);
    if is_illegal(finding.kind) {
        put_commit_first(out, first, second)
    } else {
        put_both(out, first, second)
    }
}

/// Puts the frames behind the others by which the turns before an illegal move were resolved.
fn put_before(
    alloc: Global,
    index: &FrameIndex,
    session: &Session,
    finding: &Finding,
    seen: &mut Vec<Seen>,
    out: &mut Vec<TurnFrame>,
) -> Result<(), AllocError>
    ensures { OnOk result ((logs : List (List Entry)) → IsIndex session.now logs index.now → Has (D.findings session.now logs) finding.now → out.new.items ≡ out.old.items ++ X.before_pair (X.is_illegal finding.now.kind) session.now logs finding.now) }
{
    if !is_illegal(finding.kind) {
        return Ok(());
    }
    if finding.player >= session.players() {
        return Ok(());
    }
    put_turns(
        alloc,
        index,
        session,
        finding.player,
        finding.turn,
        finding.first.log,
        seen,
        out,
    )
}

impl Auditor {
    /// The frames by which a finding of all logs is shown for which the auditor has room, the empty ones too.
    fn exhibit_all(&self, alloc: Global, finding: &Finding) -> Result<Exhibit, AllocError>
        ensures { IfOk result (λ x. (game : Game) (logs : List (List Entry)) → IsAuditOf game logs self.now → Has (D.findings game logs) finding.now → X.IsExhibitOf game logs finding.now x) }
    {
        let mut seen = Vec::new(alloc);
        let mut frames = Vec::new(alloc);
        put_before(
            alloc,
            &self.index,
            &self.session,
            finding,
            &mut seen,
            &mut frames,
        )?;
        put_pair(&self.index, finding, &mut seen, &mut frames)?;
        Ok(Exhibit {
            player: finding.player,
            turn: finding.turn,
            kind: finding.kind,
            frames: FrameList::new(frames),
        })
    }

    /// The frames by which a finding of the logs is shown that the auditor took so far: those at its two spots, and of an illegal
    /// move before them the commitment and the reveal of each turn before, as the log of the first spot resolved it. Whoever has
    /// the session can judge them without the logs.
    ///
    /// The exhibit takes memory from `alloc`, and an error comes where there is none. Of what is no finding of these logs it may
    /// have any frames.
    pub fn exhibit(&self, alloc: Global, finding: &Finding) -> Result<Exhibit, AllocError>
        ensures frames { IfOk result (λ x. (game : Game) (owners : List (Option ℕ)) (logs : List (List Entry)) → StandsFor game owners logs self.now → Has (D.findings game logs) finding.now → X.IsExhibitOf game logs finding.now x) }
        ensures shows { IfOk result (λ x. (game : Game) (owners : List (Option ℕ)) (logs : List (List Entry)) → StandsFor game owners logs self.now → Has (D.findings game logs) finding.now → EachIs (IsLogOf game) logs → Shows game x.player x.turn x.kind x.frames) }
    {
        findings_are_shown();
        self.exhibit_all(alloc, finding)
    }
}
