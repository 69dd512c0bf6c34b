//! Files of sealed frames that a shelf has accuse.

ghost use Rattle.std.specs.Prelude.{◌≡◌, ◌<◌, ◌≤◌, ◌+◌, ℕ, length, map};
ghost use Rattle.log_files.specs.Taken.{IsUntaken};
ghost use Rattle.accuser.specs.Opened as O;
ghost use Rattle.accuser.specs.Taking.{IsOf};

use crate::feed::Feed;
use crate::pieces::{FileFault, take_piece};
use crate::sealed_report::SealedReport;
use crate::taker::Taker;
use auditor::MOST_LOGS;
use definitions::limits::LOG_FRONT;
use grid_world::Session;
use line_io::piece_buffer;
use sealed_evidence::Roots;
use station::Shelf;
use std::alloc::{AllocError, Global};

/// Why there is no report on files of a shelf.
#[derive(Clone, Copy, Debug, PartialEq, Eq)]
pub enum FilesFault {
    /// The file of this number, counted from 0, is the first that isn't all sealed frames, and this
    /// is its first byte, counted from 0, at which none stands: `LONGEST_LOG` where the file has
    /// more bytes than that, whatever stands in them.
    BadSeal { file: u32, at: u32 },
    /// The shelf failed. A name that isn't there is such a fault.
    Failed,
    /// Memory was wanting.
    Memory,
}

impl FilesFault {
    /// The fault where the file of this number wasn't taken whole.
    fn of(file: u32, fault: FileFault) -> FilesFault
        ensures { result ≡ O.stopped_by file fault }
    {
        match fault {
            FileFault::Bad(at) => FilesFault::BadSeal { file, at },
            FileFault::Failed => FilesFault::Failed,
            FileFault::Memory => FilesFault::Memory,
        }
    }
}

impl From<AllocError> for FilesFault {
    ghost use Rattle.accuser.specs.declared.opened.FilesFault.TheVariants.{Memory};

    ghost from_gives = { λ _ fault. fault ≡ Memory };

    fn from(_fault: AllocError) -> FilesFault {
        FilesFault::Memory
    }
}

/// Takes the file of this name as that of this number, of which nothing was taken yet: from its
/// front to its end, also after a byte at which no sealed frame stands, since it may be too long.
fn take_file<H: Shelf>(
    alloc: Global,
    shelf: &mut H,
    name: &[u8],
    taker: &mut Taker,
    session: &Session,
    roots: &Roots,
    file: u32,
    buf: &mut [u8],
) -> Result<(), FileFault>
    requires file { file < MOST_LOGS }
    requires room { 0 < length buf.old }
    requires of_session { IsOf session.now taker.old }
    requires untaken { IsUntaken taker.old.auditor file }
    ensures { O.TakesFile session.now roots.now (H.state shelf.old) (H.state shelf.new) name.now taker.old taker.new file result }
{
    let mut feed = Feed::new(alloc);
    let mut at = 0;
    'pieces: loop {
        let room = buf.len().min(LOG_FRONT - at);
        let part = &mut buf[..room];
        match take_piece(
            shelf, name, taker, session, roots, file, &mut feed, at, part,
        )? {
            Some(count) => at += count,
            None => {
                feed.finish(taker, session, roots, file)?;
                return Ok(());
            }
        }
    }
}

/// Takes the files of these names, the first as that of this number. The first that isn't taken
/// whole decides: none behind it is read.
fn take_files<H: Shelf>(
    alloc: Global,
    shelf: &mut H,
    names: &[Vec<u8>],
    taker: &mut Taker,
    session: &Session,
    roots: &Roots,
    number: u32,
    buf: &mut [u8],
) -> Result<(), FilesFault>
    requires few { number + length names.now ≤ MOST_LOGS }
    requires room { 0 < length buf.old }
    requires of_session { IsOf session.now taker.old }
    requires untaken { (i : ℕ) → number ≤ i → IsUntaken taker.old.auditor i }
    ensures { O.ReadsSealed session.now roots.now (H.state shelf.old) (H.state shelf.new) (map (λ w. w.items) names.now) number (O.is_shelf_failed result) (λ files. O.AreAnswered session.now roots.now taker.old taker.new number files result) }
{
    match names {
        [] => Ok(()),
        [name, rest @ ..] => {
            match take_file(
                alloc,
                shelf,
                name.as_slice(),
                taker,
                session,
                roots,
                number,
                buf,
            ) {
                Ok(()) => take_files(alloc, shelf, rest, taker, session, roots, number + 1, buf),
                Err(fault) => Err(FilesFault::of(number, fault)),
            }
        }
    }
}

/// What the frames of the files of these names show together: at most 64 files of a shelf, each of
/// sealed frames of the session's players. As [`accuse`](crate::accuse) does of bytes in memory,
/// but the files are read piece by piece, one behind the other, and none is held whole.
///
/// BadSeal comes exactly where a file that was read to its end isn't all sealed frames or is too
/// long, and names the first such file and its first fault; none behind it is read. Failed comes
/// exactly where the shelf counts a fault, and Memory where memory is wanting.
pub fn accuse_files<H: Shelf>(
    alloc: Global,
    shelf: &mut H,
    session: &Session,
    roots: &Roots,
    names: &[Vec<u8>],
) -> Result<SealedReport, FilesFault>
    requires { length names.now ≤ MOST_LOGS }
    ensures { O.ReadsSealed session.now roots.now (H.state shelf.old) (H.state shelf.new) (map (λ w. w.items) names.now) 0 (O.is_shelf_failed result) (λ files. O.IsAccusation session.now roots.now files result) }
{
    let mut taker = Taker::new(alloc, session)?;
    let mut buf = piece_buffer(alloc)?;
    take_files(
        alloc,
        shelf,
        names,
        &mut taker,
        session,
        roots,
        0,
        buf.as_mut_slice(),
    )?;
    Ok(SealedReport::of(alloc, taker)?)
}
