//! The program as one call: its words, split by clap, as a command, and what `peer_runs` does for that.
//!
//! [`run`] carries the promises of the whole, which are those of the law of the command that the words say (`peer_runs/specs/Commands.antt`,
//! `run_frame/specs/Runs.antt` and `Law.antt`, and a page for each command). Words that are no command are told so before clap is asked, which
//! takes memory. [`exit_status`] is the same for `main`, and answers the number of the status. The crate touches the objects that it is handed and
//! nothing else.
#![tactic(auto)]

mod memory;
mod program;
mod words;

pub use memory::run_in_memory;
pub use program::{exit_status, run};
