//! Accusations: what files of sealed frames show together, to a judge who trusts no log.
//!
//! [`accuse`] takes the bytes of up to 64 files of sealed frames and tells what their frames show,
//! as an auditor that got them; or it names the first file, and in it the first byte, at which no
//! sealed frame stands. So a frame counts only with a seal of the player whom it names. The report
//! lists the findings alone, since files have no owners. Of each of them [`SealedReport::sealed`]
//! gives an exhibit with its seals, to which `sealed_evidence::judge_sealed` says yes.
//!
//! [`accuse_files`] does the same of files on a shelf. It reads them piece by piece, one behind the
//! other and none behind one that has a fault, and holds no more of a file than a piece and a
//! sealed frame. What it promises is in `specs/Opened.antt`, over whatever contents give what the
//! shelf answered.
//!
//! A report keeps each different frame of the files with the first of its seals, and no file. All
//! memory comes from the allocator that is given, and nothing outside is touched but the shelf.
#![tactic(auto)]

mod accusing;
mod feed;
mod frame_key;
mod opened;
mod pieces;
mod seal_book;
mod sealed_report;
mod taker;

pub use accusing::{AccuseFault, accuse};
pub use auditor::{Finding, MOST_LOGS};
pub use log_files::LogText;
pub use opened::{FilesFault, accuse_files};
pub use sealed_evidence::SealedExhibit;
pub use sealed_report::SealedReport;
