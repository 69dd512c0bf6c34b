//! Files of sealed frames accuse.

ghost use Rattle.std.specs.Prelude.{◌≡◌, ◌<◌, ◌≤◌, ◌+◌, ℕ, length, IfErr, IfOk, OnOk};
ghost use Rattle.auditor.specs.Audits.{owner_in};
ghost use Rattle.log_files.specs.Taken.{IsUntaken};
ghost use Rattle.accuser.specs.Accused as A;
ghost use Rattle.accuser.specs.Opened.{IsFileTaken};
ghost use Rattle.accuser.specs.Taking as T;

use crate::sealed_report::SealedReport;
use crate::taker::{FrontFault, Taker, take_bytes};
use auditor::MOST_LOGS;
use definitions::limits::LONGEST_LOG;
use grid_world::Session;
use log_files::LogText;
use sealed_evidence::Roots;
use std::alloc::{AllocError, Global};

/// Why there is no report.
#[derive(Clone, Copy, Debug, PartialEq, Eq)]
pub enum AccuseFault {
    /// The file of this number, counted from 0, is the first that isn't all sealed frames, and this
    /// is its first byte, counted from 0, at which none stands: `LONGEST_LOG` where the file has
    /// more bytes than that, whatever stands in them.
    BadSeal { file: u32, at: u32 },
    /// Memory was wanting.
    Memory,
}

impl From<AllocError> for AccuseFault {
    ghost use Rattle.accuser.specs.declared.accusing.AccuseFault.TheVariants.{Memory};

    ghost from_gives = { λ _ fault. fault ≡ Memory };

    fn from(_fault: AllocError) -> AccuseFault {
        AccuseFault::Memory
    }
}

/// Takes these bytes as the file of this number, unless they are too many.
#[tactic(auto, unfolding(sealed_files::specs::SealedFrames::first_bad))]
fn take_file(
    taker: &mut Taker,
    session: &Session,
    roots: &Roots,
    file: u32,
    bytes: &[u8],
) -> Result<(), AccuseFault>
    requires file { file < MOST_LOGS }
    requires of_session { T.IsOf session.now taker.old }
    requires untaken { IsUntaken taker.old.auditor file }
    ensures ok { OnOk result (IsFileTaken session.now roots.now taker.old taker.new file bytes.now) }
    ensures bad { IfErr result (A.IsFaultOf session.now roots.now file bytes.now) }
    ensures leaves { T.Leaves session.now taker.old taker.new file }
{
    if bytes.len() > LONGEST_LOG {
        return Err(AccuseFault::BadSeal {
            file,
            at: LONGEST_LOG as u32,
        });
    }
    match take_bytes(taker, session, roots, file, bytes) {
        Ok(()) => Ok(()),
        Err(FrontFault::Stuck(at)) => Err(AccuseFault::BadSeal { file, at }),
        Err(FrontFault::Memory) => Err(AccuseFault::Memory),
    }
}

/// Takes these files, the first one as that of this number.
fn take_files(
    taker: &mut Taker,
    session: &Session,
    roots: &Roots,
    number: u32,
    files: &[LogText],
) -> Result<(), AccuseFault>
    requires few { number + length files.now ≤ MOST_LOGS }
    requires of_session { T.IsOf session.now taker.old }
    requires untaken { (i : ℕ) → number ≤ i → IsUntaken taker.old.auditor i }
    ensures ok { OnOk result (T.AreTaken session.now roots.now taker.old taker.new number files.now) }
    ensures bad { IfErr result (A.IsFirstFault session.now roots.now number files.now) }
{
    match files {
        [] => Ok(()),
        [one, rest @ ..] => {
            take_file(taker, session, roots, number, one.bytes())?;
            take_files(taker, session, roots, number + 1, rest)
        }
    }
}

/// What the frames of the files show together: at most 64 files, in any order, each of sealed
/// frames of the session's players. The findings are those of logs that got just these frames, the
/// first file's as log 0, each spot counted in frames from 0. [`SealedReport::sealed`] gives for
/// each of them what shows it to a judge.
///
/// BadSeal comes exactly where some file isn't all sealed frames, or is longer than `LONGEST_LOG`,
/// and names the first such file and its first fault. Memory comes where `alloc` has none, perhaps
/// before a bad file was found.
pub fn accuse(
    alloc: Global,
    session: &Session,
    roots: &Roots,
    files: &[LogText],
) -> Result<SealedReport, AccuseFault>
    requires { length files.now ≤ MOST_LOGS }
    ensures report { IfOk result (A.Accuses session.now roots.now files.now) }
    ensures bad { IfErr result (A.IsFirstFault session.now roots.now 0 files.now) }
{
    let mut taker = Taker::new(alloc, session)?;
    take_files(&mut taker, session, roots, 0, files)?;
    Ok(SealedReport::of(alloc, taker)?)
}
