//! The logs of all players of a session as they come in pieces, and what they show together.
//!
//! [`Books`] have a page for each player, whose log is fed to it piece by piece, in any
//! interleaving of the players, and one auditor that takes the entries as they end. Contracts see
//! them as the streams of `log_streams`, the pieces that came. The crate promises that what they
//! report at any moment is the report on the lists that these streams give, as if the audit began
//! afresh. How many turns are agreed is kept up entry by entry, and costs no report. They keep no
//! log. They keep the allocator that they are made with, and take from it what the auditor keeps.
//! Nothing outside is touched.
#![tactic(auto)]

mod agreed;
mod books;
mod pages;

pub use books::Books;
