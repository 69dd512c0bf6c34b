//! Fields of byte formats at their places, and the canonical numbers of texts.
//!
//! A field of a format is one byte, a number of two or four bytes with the high byte first, or a run of bytes. This crate
//! promises that a field is read exactly where all its bytes stand, whatever the place, that a field is written where it
//! fits with every other byte left as it was, and that a decimal number is read exactly where one stands in its one
//! form. It takes no memory and touches nothing outside.
#![tactic(auto)]

mod fields;
mod numbers;

pub use fields::{array_at, put_slice, put_u16, put_u32, take_array, take_u8, take_u16, take_u32};
pub use numbers::{Number, read_number, take_number};
