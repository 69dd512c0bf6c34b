//! A player deposits its log with a live logger.
//!
//! A [`Deposit`] dials the logger, shows its pass, and gives the log of a file from the byte on that
//! the logger wants. It promises that what its station tells of its calls is a history by the rules
//! of `deposit_rules` for the log of any content that gives what the shelf answered; that it polls
//! only where a poll is licensed; and why it ended: `specs/Sending.antt`. So what it gives on a
//! socket in all is a front of its HELLO and of the log from the place wanted on, by the law of
//! `deposit_rules`. It keeps no part of the log, takes no memory, and touches nothing but the
//! station and the one file of the shelf that it is handed.
#![tactic(auto)]

mod deposit;
mod reading;
mod sending;
mod settling;
mod writing;

pub use deposit::{Deposit, Deposited};
pub use rosters::Logger;
