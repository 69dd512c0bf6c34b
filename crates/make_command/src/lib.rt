//! The command that makes a match: its words, the match that bots play, its audit, and what is printed of it.
//!
//! [`make_session`] draws a session of 8 players, as `specs/Making.antt` says, the same for the same number: by a Pcg32 that
//! is seeded by the number. [`make_match`] draws the session of a number, lets a bot choose for all of its 8 players, and brings their frames to each other with losses and
//! repeats, all by generators of the number, so that the same number makes the same match; at the end it audits the logs of all players
//! together. What it does is defined in `specs/Matches.antt`, `Audits` and `Summaries`, by the steps of a table of `schedule`. The law of
//! [`laws`] is that every match comes to its end, whatever is lost, and that its logs accuse nobody. All that is promised of the command is
//! on one page, `specs/MakeLaw.antt`, by which [`run_make`] goes; its words are those of `specs/Words.antt`, its answer that of `Make`. It
//! touches the sink that it is handed, and takes all memory before the first byte is written.
#![tactic(auto)]

mod auditing;
mod command;
pub mod counts;
pub mod laws;
mod lines;
mod making;
pub mod playing;
mod sessions;
mod sizes;
pub mod summary;
mod words;

pub use command::run_make;
pub use counts::Counts;
pub use making::make;
pub use playing::MOST_STEPS;
pub use sessions::make_session;
pub use summary::{PlayerLines, Summary, make_match};
pub use words::read_make_words;
