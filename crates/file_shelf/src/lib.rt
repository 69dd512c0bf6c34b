//! The files of any host as a shelf.
//!
//! [`FileHost`] is three raw calls: to open a file, to move its next read to a place, and to read.
//! Each adds one entry to the host's history, of what it was asked and what it answered. What a
//! call of [`FileShelf`] asks, and what becomes of the answer, is proved, for any host:
//! `specs/Reading.antt` says it. So what is read are bytes of a file that was opened by the name
//! that was asked for, from the place on that was asked for; it answers the end only where that
//! file gave no bytes, and fails exactly where the host did. The file that was read last stays
//! open, so that calls that read it from its front to its end read one file, whatever becomes of
//! its name meanwhile. A host whose answers come from elsewhere notes each of them in
//! [`FileNotes`], which only proofs read; `machine_files` is the machine's own. It takes memory for
//! the name of the file that is open, and goes on without it where that is wanting.
#![tactic(auto)]

pub mod hosts;
pub mod notes;
mod reading;
pub mod shelf;

pub use hosts::{FileHost, Numbered};
pub use notes::FileNotes;
pub use shelf::FileShelf;
