//! The command that plays a match over sockets: what its words say, the loop from its beginning to its end, and what is written then.
//!
//! A run begins the log, plays by the moves of a pilot until it is over or as many polls as its words grant were made, and writes how it ended: what
//! its end was, whom it waits for, what others lack, what its log shows of each player, and its own score.
//!
//! All that is promised of the command is its law, `specs/PeerLaw.antt`, with the part of it that `seat_files` has
//! (`specs/SeatLaw.antt` there): by that goes [`run_peer`], which reads the session, the roster, the moves and the older log from files,
//! and then does what [`play_peer`] does. Its words and what its files give are those of `seat_files`, its text and its status by how
//! the loop ended those of `match_ends`, and what it makes of the station and the generator stands in `Plays`. The crate touches the
//! shelf, the station, the pilot, the generator and the sink that it is handed, and takes all memory before the first call of the
//! station.
//!
//! Its laws are of crashes: a peer that is stopped at any moment, within a call too, goes on from whatever a crash leaves
//! of its log, and has each own frame of which a byte was given, with the nonce that it drew. What a crash may leave is a
//! definition of `loop_rules` (`specs/Images.antt`): the bytes kept up to the last sync, and then any bytes. Of these a
//! lucky tail alone is taken to be impossible: bytes that were never handed to `keep` and that carry the digest of an
//! entry all the same.
#![tactic(auto)]

mod command;
mod crashes;
mod playing;

pub use command::run_peer;
pub use crashes::{crashes_are_survived, nothing_is_given_unsynced};
pub use playing::play_peer;
pub use seat_files::{PeerWords, read_peer_words};
