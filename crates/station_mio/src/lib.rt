//! The sockets and the log file of any host as a station.
//!
//! What each call asks the host, and what becomes of its answer, is proved, for any host:
//! `specs/Nets.antt` has the calls of sockets and `specs/Stations.antt` those of the log. So what is
//! read, written and closed is the socket of the number that was asked for; a poll waits at most a
//! tenth of a second, and lists what the host said is ready; and what is said to be kept or synced
//! the host has appended and synced. An address is dialled at most ten times a second for each
//! player, so a station whose neighbours are silent, or not there, burns no processor. [`sockets`]
//! stands open for callers who want the host's answers on any socket number, open or not, and no
//! notes of them. `mio_host` has the machine's own host. It takes memory for its tables alone, when
//! it is made.
#![tactic(auto)]

mod accepting;
mod backlog;
mod dialling;
mod ending;
mod listing;
mod moving;
mod pace;
mod rows;
pub mod sockets;
pub mod station;
mod streams;

pub use station::MioStation;
