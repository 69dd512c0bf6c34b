//! The command that plays a match over datagrams: what its words say, the loop from its beginning to its end, and what is written then.
//!
//! A run begins a log, binds the own address, and plays by the moves of a pilot until it is over or as many polls as its words grant
//! were made. Then it writes how it ended: what its end was, whom it waits for, what others lack, what its log shows of each player,
//! and its own score. It begins anew: no older log is named, so a player whose run was stopped doesn't go on over datagrams.
//!
//! All that is promised of the command is its law, `specs/PostLaw.antt`, with the part of it that `seat_files` has
//! (`specs/SeatLaw.antt` there): by that goes [`run_post`], which reads the session, the roster and the moves from files, and then
//! does what [`play_post`] does. Its words and what its files give are those of `seat_files`, its text and its status by how the loop
//! ended those of `match_ends`. What it makes of the post and the generator stands in `Plays`, and which failed calls stand behind
//! its end in `Faults`. The crate touches the shelf, the post, the pilot, the generator and the sink that it is handed, and takes all
//! memory before the first call of the post.
#![tactic(auto)]

mod command;
mod playing;

pub use command::run_post;
pub use playing::play_post;
pub use seat_files::{PostWords, read_post_words};
