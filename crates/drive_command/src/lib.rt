//! The command that drives a peer by a script: what its words say, what it answers to each line, and how its run ends.
//!
//! What is written, and the log that the peer keeps, are those of the definitions in `specs/Drive.antt`: a line outside the
//! grammar ends the run after the answers to the lines before it, and each frame that is made is told by a line.
//!
//! All that is promised of the command is on one page, `specs/DriveLaw.antt`: by that goes [`run_drive`], which reads the
//! session and the older log from files, and then does what [`drive`] does, which takes no memory. Its parts are the words
//! (`specs/Words.antt`), the answer and what is behind it (`Begin`), why it ends as it does (`Causes`), and laws (`laws`).
//! The crate touches the source, the sink and the shelf that it is handed.
//!
//! What a line of a script says (`grammar`) is exactly what `specs/Grammar.antt` has, over the fields of `text_fields`; any
//! other line is answered as one of no grammar. The laws of `line_laws` are that each line which is spelled from parts
//! within their limits, as `specs/Spelling.antt` has it, is read as these parts, and that a line is read as nothing but
//! what it spells.
#![tactic(auto)]

mod answering;
mod command;
mod driver;
pub mod grammar;
pub mod laws;
pub mod line_laws;
mod logging;
mod outcomes;
pub mod playing;
mod printing;
mod readers;
pub mod words;

pub use command::run_drive;
pub use grammar::{DriveLine, read_line};
pub use playing::{drive, play};
pub use words::{DriveWords, read_drive_words};
