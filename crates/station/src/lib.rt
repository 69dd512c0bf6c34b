//! The outside of the program as three traits: a source gives bytes, a sink takes bytes, and a shelf holds files by name.
//!
//! Each object is seen as a state: what its calls answered so far, and how many of them failed. Each call makes one answer more of
//! it. So code over these traits tells exactly what was read and written, can't blame the outside for a fault that never came, and
//! can't hide one. The objects in memory show besides all that they have, and fail at the calls that they are told to; the sure ones
//! never fail. The adapters over std's readers and writers note what these answered. Beside them stand the words
//! that the machine gives a program: [`words_of`] asks for them, [`are_words`] says which a program may be given (each
//! is UTF-8, and none begins with `-`), and [`read_texts`] gives them as texts. Nothing here takes memory but those
//! words and texts, and the room of a `MemorySink`.
#![tactic(auto)]

mod calls;
mod copies;
pub mod files;
pub mod memory_shelf;
pub mod memory_sink;
pub mod memory_source;
pub mod notes;
pub mod program;
pub mod shelves;
pub mod sinks;
pub mod sources;
pub mod std_ends;
pub mod sure;
mod texts;
mod words;

pub use files::ShelfFile;
pub use memory_shelf::MemoryShelf;
pub use memory_sink::MemorySink;
pub use memory_source::MemorySource;
pub use notes::{ByteNotes, PieceNotes};
pub use program::words_of;
pub use shelves::Shelf;
pub use sinks::{Push, Sink};
pub use sources::{Pull, Source};
pub use std_ends::{StdSink, StdSource};
pub use sure::{SureShelf, SureSink, SureSource};
pub use texts::{are_words, read_texts};
pub use words::only_word;
