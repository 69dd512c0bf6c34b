//! An exhibit is judged.

ghost use Rattle.std.specs.Prelude.{◌≡◌, Ok, false};
ghost use Rattle.run_frame.specs.Frame.{Ran};
ghost use Rattle.file_commands.specs.Judge.{judge_answer, verdict_answer};
ghost use Rattle.file_commands.specs.SealedCases.{case_held};
ghost use Rattle.file_commands.specs.SealedJudge.{sealed_answer};

use crate::sealed_cases::SealedCase;
use evidence::{Exhibit, judge};
use grid_world::Session;
use line_io::put;
use move_rules::Walker;
use run_frame::Status;
use sealed_evidence::judge_sealed;
use station::Sink;
use std::alloc::Global;

/// Tells whether the frames show what they are to show.
fn tell<O: Sink>(shown: bool, out: &mut O) -> Status
    ensures { Ran (O.state out.old) (O.state out.new) (verdict_answer shown) false ⊥ ⊥ result }
{
    let text: &[u8] = if shown { b"yes\n" } else { b"no\n" };
    match put(out, text) {
        Ok(()) => { if shown { Status::Caught } else { Status::Done } }
        Err(fault) => Status::from(fault),
    }
}

/// Judges the exhibit in the session, and tells whether its frames show what they are to show. Nothing is written where memory is wanting.
pub fn judge_exhibit<O: Sink>(
    alloc: Global,
    session: &Session,
    exhibit: &Exhibit,
    out: &mut O,
) -> Status
    ensures { Ran (O.state out.old) (O.state out.new) (judge_answer (Ok (session.now, exhibit.now))) false ⊥ ⊥ result }
{
    let Ok(mut walker) = Walker::new(alloc, session.grid()) else {
        return Status::NoMemory;
    };
    tell(judge(session, &mut walker, exhibit), out)
}

/// Judges the exhibit with seals in the session by the roots, and tells whether its frames show what
/// they are to show, and each has a valid seal. Nothing is written where memory is wanting.
pub(crate) fn judge_sealed_exhibit<O: Sink>(alloc: Global, case: &SealedCase, out: &mut O) -> Status
    ensures { Ran (O.state out.old) (O.state out.new) (sealed_answer (Ok (case_held case.now))) false ⊥ ⊥ result }
{
    let Ok(mut walker) = Walker::new(alloc, case.session.grid()) else {
        return Status::NoMemory;
    };
    let shown = judge_sealed(&case.session, &mut walker, &case.roots, &case.sealed);
    tell(shown, out)
}
