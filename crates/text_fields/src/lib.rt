//! The fields that lines of text have in common: numbers, cells, and hexadecimal text, each parted from the next by one space.
//!
//! A number stands in its one form, with no 0 in front; a cell is two numbers; nonces, frames and bytes are lower-case digits
//! up to the end of the line, and so is a choice, which is a move and its nonce. This crate promises that a field is read exactly where one stands, as the definitions in
//! `specs/` have it, and by the laws of `laws` that a field which is spelled is read as what it spells, and that what is read
//! was spelled so. What a line is made of is for the grammar that reads it. Besides, the crate names the kinds of findings, and
//! has the fault of a text that is read line by line. It takes no memory and touches nothing outside.
#![tactic(auto)]

mod cells;
mod choices;
mod fault;
mod hexes;
mod kinds;
pub mod laws;
mod numbers;
pub mod pieces;

pub use cells::cell_then;
pub use choices::move_then_nonce;
pub use fault::TextFault;
pub use hexes::{read_frame, read_nonce, read_piece};
pub use kinds::name_of_kind;
pub use numbers::{number_then, read_number};
pub use pieces::Piece;
