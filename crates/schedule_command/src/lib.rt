//! The command that steps the honest peers of a match by the lines of its input: what its words say, what it answers to each line, and
//! how its run ends.
//!
//! The first line that isn't passed over names the hostile players; each line behind it is a step of a table of `schedule`, or asks for
//! how often a player's peer gave each answer. What is written is the text of the definitions in `specs/Schedule.antt`: a line outside the
//! grammar ends the run after the answers to the lines before it, and at the end stands how the match goes on. All that is
//! promised of the command is on one page, `specs/ScheduleLaw.antt`, by which [`run_schedule`] goes; its words are those of `specs/Words.antt`,
//! its answer that of `Schedule`, and what it makes of its input that of `Played`. It touches the source, the sink and the shelf that it is
//! handed, and takes all memory before the first byte is written.
#![tactic(auto)]

mod answering;
mod command;
mod grammar;
mod hostile;
mod lines;
mod opening;
pub mod playing;
mod telling;
pub mod words;

pub use command::run_schedule;
pub use grammar::{ScheduleLine, read_line, read_step};
pub use hostile::read_hostile;
pub use playing::play_schedule;
pub use words::read_schedule_words;
