//! The commands of a player's keys: `root`, which tells their root, and `seal`, which seals what
//! the player made.
//!
//! What is promised of each is its law, on one page: `specs/RootLaw.antt` and `SealLaw`. By the law
//! go [`run_root`] and [`run_seal`], which read the files that the words name, one after the other,
//! and none after one that is refused (`specs/Opened.antt`):
//!
//! - `root SESSION PLAYER SEED` prints the line of the root of the keys that come from the seed.
//! - `seal SESSION PLAYER SEED LOG` writes each frame that the player made by its log, with its seal
//!   after it, as bytes: a file of sealed frames.
//!
//! Both take all their memory before the first byte is written. A seed is for one player of one
//! session: a secret hashes neither, so a second use discloses both values of bits of a place, and
//! whoever has them can seal in the player's name. The crate touches the sink and the shelf that it
//! is handed.
#![tactic(auto)]

mod commands;
mod opening;
mod rooting;
mod sealing;
mod seeds;
mod words;

pub use commands::{run_root, run_seal};
pub use seeds::SEED_FRONT;
pub use words::{KeyWords, SealWords, read_root_words, read_seal_words};
