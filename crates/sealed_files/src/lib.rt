//! Files of sealed frames: the spellings of frames, each with its seal behind it.
//!
//! [`sealed_ahead`] reads the sealed frame at the front of bytes exactly where one stands there:
//! the one spelling of a frame, and behind it a seal that is valid for it under the root of its
//! player. [`first_bad`] names the first byte of a file at which none stands. Laws say that what is
//! spelled is read, and that what is read was spelled so. A file has no owner and no order: its
//! frames may be of any players. The crate takes no memory, since it writes the seal to where its
//! reader wants it, and touches nothing outside.
#![tactic(auto)]

pub mod laws;
mod reading;

pub use reading::{first_bad, is_whole, sealed_ahead, sealed_len};
