//! The names of the program's commands: how each is written, and how many words stand after it.
//!
//! They stand in one list ([`ALL`]), and each has one line that says its form ([`Name::form`]). So
//! a further command is one line of the enum, of the list, and of the form. The crate takes no
//! memory and touches nothing.
#![tactic(auto)]

mod names;

pub use names::{ALL, Form, Name};
