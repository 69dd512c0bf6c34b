//! The command `accuse`, by which files of sealed frames accuse.
//!
//! What is promised of it is its law, on one page: `specs/AccuseLaw.antt`. By the law goes
//! [`run_accuse`], which reads the files that the words name, one after the other, and none after
//! one that is refused (`specs/Opened.antt`): a session, the players' roots, and files of frames,
//! each with a seal. It prints each finding that the frames show, as `audit` does, and right after
//! it the text of an exhibit with seals, to which `judge` says yes by the session and the roots
//! alone. No such text stands after a finding whose exhibit has more frames than a text may say.
//!
//! No log is asked for, and none is trusted: a frame counts only with a seal of the player whom it
//! names. Memory is taken for the frames of all files, and for one exhibit at a time, after the
//! first byte too. The crate touches the sink and the shelf that it is handed.
#![tactic(auto)]

mod accusing;
mod commands;
mod opening;
mod printing;
mod reading;
pub mod words;

pub use commands::run_accuse;
pub use reading::read_accuse_words;
pub use words::AccuseWords;
