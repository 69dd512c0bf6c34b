//! A live logger: a service takes the logs of all players of a session over sockets while they
//! play, and tells at any moment what they show together.
//!
//! A [`Watch`] listens, answers each player that shows its pass by one WANT from the first byte of
//! its log that it lacks, and feeds what comes to [`log_books::Books`]. It promises that what its
//! station tells of its calls is a history by the rules of `watch_rules`, whatever the station
//! answers, that it waits only where a poll is licensed, and that its report at any moment is the
//! report on the lists that the history gives, as if the audit began afresh. Whether all turns are
//! agreed is kept up entry by entry, and a round makes no report. [`Watch::progress`] tells how far
//! each log came. A logger takes memory when it is made, what its auditor keeps, and for reports; it
//! touches nothing but the station that it is given.
#![tactic(auto)]

mod asking;
mod beginning;
mod board;
mod hearing;
mod lines;
mod polling;
mod progress;
mod reading;
mod shutting;
mod watch;
mod writing;

pub use auditor::{Auditor, Exhibit, Report};
pub use polling::WatchRound;
pub use progress::Progress;
pub use rosters::Roster;
pub use watch::Watch;
