//! The session, the exhibit with seals and the roots of three files.

ghost use Rattle.std.specs.Prelude.{◌≡◌, Ok, false};
ghost use Rattle.definitions.specs.World.{players_of};
ghost use Rattle.roots.specs.Reading.{roots_at};
ghost use Rattle.sealed_text.specs.Reading.{sealed_at};
ghost use Rattle.run_frame.specs.Faults.{read_by};
ghost use Rattle.run_frame.specs.Opening.{IsDueFor, Opens};
ghost use Rattle.run_frame.specs.Sessions.{is_shelf_fault};
ghost use Rattle.run_frame.specs.declared.statuses.TextName.TheVariants as name_of;
ghost use Rattle.file_commands.specs.SealedCases as S;
ghost use Rattle.file_commands.specs.SealedWords.{sealed_judging_said};

use crate::sealed_words::SealedJudgeWords;
use grid_world::Session;
use line_io::read_front;
use roots::{ROOTS_FRONT, Roots, read_roots};
use run_frame::{Status, TextName, open_session, status_of_text};
use sealed_evidence::SealedExhibit;
use sealed_text::{SEALED_FRONT, read_sealed};
use station::Shelf;
use std::alloc::Global;

/// A session, an exhibit with seals that is to be judged in it, and the players' roots.
#[derive(Drop)]
pub(crate) struct SealedCase {
    pub session: Session,
    pub sealed: SealedExhibit,
    pub roots: Roots,
}

/// The exhibit of a text.
fn sealed_of(alloc: Global, session: &Session, text: &[u8]) -> Result<SealedExhibit, Status>
    ensures due { IsDueFor (read_by name_of.Evidence (sealed_at session.now text.now)) result }
    ensures calm { is_shelf_fault result ≡ false }
{
    match read_sealed(alloc, text, session) {
        Ok(sealed) => Ok(sealed),
        Err(fault) => Err(status_of_text(TextName::Evidence, fault)),
    }
}

/// The exhibit of a file.
fn open_sealed<H: Shelf>(
    alloc: Global,
    shelf: &mut H,
    session: &Session,
    name: &[u8],
) -> Result<SealedExhibit, Status>
    ensures { Opens (H.state shelf.old) (H.state shelf.new) name.now (is_shelf_fault result) (λ content. IsDueFor (S.sealed_in session.now content) result) }
{
    let text = read_front(alloc, shelf, name, SEALED_FRONT)?;
    sealed_of(alloc, session, text.as_slice())
}

/// The roots of a text.
fn roots_of(alloc: Global, session: &Session, text: &[u8]) -> Result<Roots, Status>
    ensures due { IsDueFor (read_by name_of.Roots (roots_at (players_of session.now) text.now)) result }
    ensures calm { is_shelf_fault result ≡ false }
{
    match read_roots(alloc, text, session) {
        Ok(roots) => Ok(roots),
        Err(fault) => Err(status_of_text(TextName::Roots, fault)),
    }
}

/// The roots of a file.
pub fn open_roots<H: Shelf>(
    alloc: Global,
    shelf: &mut H,
    session: &Session,
    name: &[u8],
) -> Result<Roots, Status>
    ensures { Opens (H.state shelf.old) (H.state shelf.new) name.now (is_shelf_fault result) (λ content. IsDueFor (S.roots_in session.now content) result) }
{
    let text = read_front(alloc, shelf, name, ROOTS_FRONT)?;
    roots_of(alloc, session, text.as_slice())
}

/// The exhibit and the roots of two files, after the session's.
fn open_after_session<H: Shelf>(
    alloc: Global,
    shelf: &mut H,
    session: Session,
    words: SealedJudgeWords<'_>,
) -> Result<SealedCase, Status>
    ensures { S.ReadsAfterSession (sealed_judging_said words.entry) session (H.state shelf.old) (H.state shelf.new) (S.case_read result) }
{
    let sealed = open_sealed(alloc, shelf, &session, words.evidence)?;
    let roots = open_roots(alloc, shelf, &session, words.roots)?;
    Ok(SealedCase {
        session,
        sealed,
        roots,
    })
}

/// The session, the exhibit and the roots of three files. No file is read after one that is refused.
pub(crate) fn open_sealed_case<H: Shelf>(
    alloc: Global,
    shelf: &mut H,
    words: SealedJudgeWords<'_>,
) -> Result<SealedCase, Status>
    ensures { S.OpensSealedCase (sealed_judging_said words.entry) (H.state shelf.old) (H.state shelf.new) (S.case_read result) }
{
    let session = open_session(alloc, shelf, words.session)?;
    open_after_session(alloc, shelf, session, words)
}
