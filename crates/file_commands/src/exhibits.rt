//! The session and the exhibit of two files.

ghost use Rattle.std.specs.Prelude.{◌≡◌, false};
ghost use Rattle.definitions.specs.World.{Game};
ghost use Rattle.evidence.specs.declared.exhibit.Exhibit.{Exhibit};
ghost use Rattle.evidence.specs.Reading.{exhibit_at};
ghost use Rattle.file_commands.specs.Cases.{case_seen};
ghost use Rattle.file_commands.specs.Exhibits.{IsExhibitDue, exhibit_by};
ghost use Rattle.file_commands.specs.CaseFiles.{OpensCase, OpensExhibit};
ghost use Rattle.run_frame.specs.Sessions.{is_shelf_fault};

use definitions::limits::EVIDENCE_FRONT;
use evidence::{Exhibit, read_exhibit};
use grid_world::Session;
use line_io::read_front;
use run_frame::{Status, TextName, open_session, status_of_text};
use station::Shelf;
use std::alloc::Global;

/// A session, and an exhibit that is to be judged in it.
#[derive(Drop)]
pub(crate) struct Case {
    pub session: Session,
    pub exhibit: Exhibit,
}

/// The exhibit of a text.
fn exhibit_of(alloc: Global, text: &[u8]) -> Result<Exhibit, Status>
    ensures due { IsExhibitDue (exhibit_by (exhibit_at text.now)) result }
    ensures calm { is_shelf_fault result ≡ false }
{
    match read_exhibit(alloc, text) {
        Ok(exhibit) => Ok(exhibit),
        Err(fault) => Err(status_of_text(TextName::Evidence, fault)),
    }
}

/// The exhibit of a file.
#[tactic(auto, unfolding(crate::specs::Exhibits::evidence_front_of))]
fn open_exhibit<H: Shelf>(alloc: Global, shelf: &mut H, name: &[u8]) -> Result<Exhibit, Status>
    ensures { OpensExhibit (H.state shelf.old) (H.state shelf.new) name.now result }
{
    let text = read_front(alloc, shelf, name, EVIDENCE_FRONT)?;
    exhibit_of(alloc, text.as_slice())
}

/// The session of a file, and the exhibit of another. The second file is left alone where the first has no
/// session.
pub(crate) fn open_case<H: Shelf>(
    alloc: Global,
    shelf: &mut H,
    session: &[u8],
    evidence: &[u8],
) -> Result<Case, Status>
    ensures { OpensCase (H.state shelf.old) (H.state shelf.new) session.now evidence.now (case_seen result) }
{
    let session = open_session(alloc, shelf, session)?;
    let exhibit = open_exhibit(alloc, shelf, evidence)?;
    Ok(Case { session, exhibit })
}
