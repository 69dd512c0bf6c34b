//! What a player plays by: the words that name its files, and what these hold.
//!
//! The words name the files of the session, the roster and the moves, the player, the polls granted,
//! the log that is begun, and perhaps a log to go on from ([`read_peer_words`] and
//! [`read_post_words`], `specs/Words.antt`). [`open_seat`] reads the files one after the other and answers the peer and
//! what it plays by, or the status by which the run is refused (`specs/Seats.antt`). No file is read
//! after one that is refused. It touches the shelf that it is given, and takes memory for what it
//! opens.
//!
//! A command by which a player plays goes by the law that is made of its words in `specs/SeatLaw.antt`,
//! whatever carries its frames: which files it reads and when, what it tells where there is nothing to
//! play by, why, and how it ends where all is good.
#![tactic(auto)]

mod seats;
mod words;

pub use seats::{Seat, open_seat};
pub use words::{PeerWords, PostWords, read_peer_words, read_post_words};
