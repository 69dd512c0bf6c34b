//! The command `watch`, by which a live logger takes the logs of all players of a session.
//!
//! What is promised of it is its law, on one page: `specs/WatchLaw.antt`. By the law goes
//! [`run_watch`], which reads the files of the session and of the roster that the words name
//! (`specs/Opened.antt`), listens, and takes what comes until every turn of every player is agreed, or
//! as many polls were made as are granted (`specs/Watches.antt`). Then it prints what `audit` prints of
//! what came, as if the audit began afresh. It is a preview: a log that comes later may contradict, and
//! the audit of the kept files is the verdict. The crate touches the shelf, the station and the sink
//! that it is handed; memory is taken for what comes, and for the evidence after the first byte too.
#![tactic(auto)]

mod command;
mod ending;
mod opening;
mod reading;
mod watching;
mod words;

pub use command::run_watch;
pub use reading::read_watch_words;
pub use words::WatchWords;
