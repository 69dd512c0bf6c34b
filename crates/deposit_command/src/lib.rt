//! The command `deposit`, by which a player gives its log to a live logger.
//!
//! What is promised of it is its law, on one page: `specs/DepositLaw.antt`. By the law goes
//! [`run_deposit`], which reads the files of the session and of the roster that the words name
//! (`specs/Opened.antt`), and then gives the log of a third with the polls that are granted
//! (`specs/Deposits.antt`). It prints `sent`, or `gave up POLLS`. The log's file is read piece by piece
//! from the place on from which the logger wants it, so that no part of it is held; at which places
//! it is asked for is no promise. The crate touches the shelf, the station and the sink that it is
//! handed, and takes all its memory before the first call of the station.
#![tactic(auto)]

mod command;
mod depositing;
mod opening;
mod words;

pub use command::run_deposit;
pub use words::{DepositWords, read_deposit_words};
