//! Lines from a source, texts to a sink, and the front of a file.
//!
//! A function that reads, writes or fetches says so by one record over the states of the object before and after: `ReadsLine`, `Puts`
//! and `ReadsFront` (`specs/Readings.antt`, `Texts`, `Fronts`). Each has its faults in it: a fault is answered exactly where it is
//! counted, and is never passed over. Lines and texts go through buffers of a fixed size, and only `read_front` takes memory. What is
//! read of a source has its words in `specs/Inputs.antt`, so that what is written can be said of what was read by then. The crate
//! knows no command, and not how a run ends: that is `run_frame`'s.
#![tactic(auto)]

pub mod bytes;
pub mod fronts;
pub mod lines;
pub mod texts;

pub use bytes::{ByteReader, NextByte};
pub use fronts::{FrontFault, piece_buffer, read_front};
pub use lines::{LineReader, NextLine};
pub use texts::{SinkFault, put, text_of};
