//! Sealed frames of files are taken, with their seals.

ghost use Rattle.std.specs.Prelude.{◌≡◌, ◌≤◌, ◌<◌, ◌+◌, [], ◌∷◌, length, IfErr, IfOk, OnOk};
ghost use Rattle.definitions.specs.declared.limits.TheConstants.{LONGEST_LOG};
ghost use Rattle.seal_keys.specs.Seals.{seal_len};
ghost use Rattle.auditor.specs.Audits.{count_in};
ghost use Rattle.accuser.specs.Taking as T;

use crate::seal_book::SealBook;
use auditor::{Auditor, MOST_LOGS};
use definitions::{Entry, TurnFrame};
use grid_world::Session;
use seal_keys::Seal;
use sealed_evidence::Roots;
use sealed_files::{is_whole, sealed_ahead, sealed_len};
use std::alloc::{AllocError, Global};

/// What takes sealed frames of files: an auditor, to which they are frames that were got, and of
/// each different frame its first seal.
#[derive(Drop)]
pub(crate) struct Taker {
    pub auditor: Auditor,
    pub seals: SealBook,
    // room for the seal that is being read
    pub seal: Seal,
}

/// Why bytes weren't taken.
#[derive(Clone, Copy, Debug, PartialEq, Eq)]
pub(crate) enum FrontFault {
    /// From this byte on no sealed frame stands, counted from 0.
    Stuck(u32),
    /// Memory was wanting.
    Memory,
}

impl From<AllocError> for FrontFault {
    ghost use Rattle.accuser.specs.declared.taker.FrontFault.TheVariants.{Memory};

    ghost from_gives = { λ _ fault. fault ≡ Memory };

    fn from(_fault: AllocError) -> FrontFault {
        FrontFault::Memory
    }
}

impl Taker {
    /// Has taken nothing. An error comes where memory is wanting.
    pub(crate) fn new(alloc: Global, session: &Session) -> Result<Taker, AllocError>
        ensures { IfOk result (T.IsFresh session.now) }
    {
        Ok(Taker {
            auditor: Auditor::new(alloc, session)?,
            seals: SealBook::new(alloc, session)?,
            seal: Seal::new(alloc, session)?,
        })
    }
}

/// Takes this frame with the seal that was read as the next of this file.
fn take_sealed(
    taker: &mut Taker,
    session: &Session,
    file: u32,
    frame: TurnFrame,
) -> Result<(), AllocError>
    requires file { file < MOST_LOGS }
    requires few { count_in taker.old.auditor file < LONGEST_LOG }
    requires of_session { T.IsOf session.now taker.old }
    ensures takes { OnOk result (T.TakesSealed taker.old taker.new file (record { frame = frame; seal = taker.old.seal } ∷ [])) }
    ensures leaves { T.Leaves session.now taker.old taker.new file }
{
    taker.seals.note(&frame, &taker.seal)?;
    taker.auditor.take(file, &Entry::Got(frame.player(), frame))
}

/// Whether a sealed frame is to stand at the front of the bytes, which are the last of their file
/// or not.
fn is_asked(session: &Session, last: bool, bytes: &[u8], seal: &Seal) -> bool
    requires { length seal.now ≡ seal_len session.now }
    ensures { result ≡ T.is_asked session.now last bytes.now }
{
    if last {
        !bytes.is_empty()
    } else {
        is_whole(session, bytes, seal)
    }
}

/// What became of the sealed frame at the front of bytes.
enum Next {
    /// It was taken, and has so many bytes.
    Took(usize),
    /// None is to stand there.
    Over,
    /// None stands there.
    Stuck,
    /// Memory was wanting.
    Memory,
}

/// Takes the sealed frame at the front of the bytes as the next of this file, if one is to stand
/// there.
fn take_next(
    taker: &mut Taker,
    session: &Session,
    roots: &Roots,
    file: u32,
    last: bool,
    bytes: &[u8],
) -> Next
    requires file { file < MOST_LOGS }
    requires few { count_in taker.old.auditor file < LONGEST_LOG }
    requires of_session { T.IsOf session.now taker.old }
    ensures so { T.IsNext session.now roots.now taker.old taker.new file last bytes.now result }
    ensures leaves { T.Leaves session.now taker.old taker.new file }
{
    if !is_asked(session, last, bytes, &taker.seal) {
        return Next::Over;
    }
    match sealed_ahead(session, roots, bytes, &mut taker.seal) {
        None => Next::Stuck,
        Some(frame) => match take_sealed(taker, session, file, frame) {
            Ok(()) => Next::Took(sealed_len(bytes, &taker.seal)),
            Err(_) => Next::Memory,
        },
    }
}

/// Takes the sealed frames at the front of the bytes as the next of this file, and says how many
/// bytes they have: all, if the bytes are the last of the file, else as many as make whole ones.
pub(crate) fn take_front(
    taker: &mut Taker,
    session: &Session,
    roots: &Roots,
    file: u32,
    last: bool,
    bytes: &[u8],
) -> Result<usize, FrontFault>
    requires file { file < MOST_LOGS }
    requires few { count_in taker.old.auditor file + length bytes.now ≤ LONGEST_LOG }
    requires of_session { T.IsOf session.now taker.old }
    ensures ok { IfOk result (T.IsTakenTo session.now roots.now taker.old taker.new file last bytes.now) }
    ensures bad { IfErr result (T.IsFrontFault session.now roots.now last bytes.now) }
    ensures leaves { T.Leaves session.now taker.old taker.new file }
{
    let mut at = 0;
    'frames: while at < bytes.len() {
        match take_next(taker, session, roots, file, last, &bytes[at..]) {
            Next::Took(count) => at += count,
            Next::Over => return Ok(at),
            Next::Stuck => return Err(FrontFault::Stuck(at as u32)),
            Next::Memory => return Err(FrontFault::Memory),
        }
    }
    Ok(at)
}

/// Takes these bytes as those of this file, of which nothing was taken yet.
pub(crate) fn take_bytes(
    taker: &mut Taker,
    session: &Session,
    roots: &Roots,
    file: u32,
    bytes: &[u8],
) -> Result<(), FrontFault>
    requires file { file < MOST_LOGS }
    requires few { count_in taker.old.auditor file + length bytes.now ≤ LONGEST_LOG }
    requires of_session { T.IsOf session.now taker.old }
    ensures ok { OnOk result (T.TakesBytes session.now roots.now taker.old taker.new file bytes.now) }
    ensures bad { IfErr result (T.IsBytesFault session.now roots.now bytes.now) }
    ensures leaves { T.Leaves session.now taker.old taker.new file }
{
    take_front(taker, session, roots, file, true, bytes)?;
    Ok(())
}
