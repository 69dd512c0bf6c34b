//! Rosters: where a player listens, where the other players are, and the passes by which each two of
//! them know each other.
//!
//! A roster is a text that each player has of its own. [`read_roster`] reads it for the player `me`
//! of a session and gives a [`Roster`], which contracts see as the own address and a list of links.
//! The crate promises that what is read has exactly one link to each other player of the session,
//! rising; that each text of such a roster is read as that roster, unless memory runs out; and that
//! any other text is refused with its first line at fault, as `specs/Reading.antt` says line by line.
//!
//! Of two further texts it promises the same: the roster of a live logger, which has a link to each
//! player ([`read_watch_roster`], `specs/WatchText.antt`), and the one by which a player knows its
//! live logger ([`read_logger`], `specs/LoggerText.antt`). Memory is taken for the links alone, from
//! the allocator that is given, and nothing else is touched.
#![tactic(auto)]

mod addr;
mod fields;
pub mod laws;
mod limits;
mod logger;
mod reading;
mod roster;
mod watching;

pub use addr::Addr;
pub use definitions::PlayerId;
pub use limits::ROSTER_FRONT;
pub use logger::{Logger, read_logger};
pub use reading::read_roster;
pub use roster::{Link, Roster};
pub use text_fields::TextFault;
pub use watching::read_watch_roster;
