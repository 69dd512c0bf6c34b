//! What tests of whole matches have in common: sessions, scripts and rosters as texts, a loop that
//! begins and plays rounds over any station, and what the logs of a match show together.
//!
//! Only tests call it, so its failures are those of tests.
#![tactic(auto)]

pub mod audits;
pub mod rounds;
pub mod texts;
