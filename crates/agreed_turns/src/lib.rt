//! The turns on which the players' own logs agree, kept up as the logs grow.
//!
//! [`AgreedTurns`] follow, of each player, how far each log shows its stream, and of each turn whether the logs that resolve it do so by
//! one move. They keep no frame: what a log holds is looked up in an index of frames that somebody else keeps, and the entries that
//! come are told to them after the index took them. The crate promises that the numbers of agreed turns are those of the definitions,
//! for the logs as they are then. An entry that takes no stream on costs one comparison of numbers or digests, however many frames of
//! its turn there are, so that no log can be made for which heeding it takes long. Memory is taken when they are made, and never
//! after. Nothing outside is touched.
#![tactic(auto)]

mod accords;
mod agreed;
mod heads;
mod turns;

pub use agreed::AgreedTurns;
