//! What a datagram says.
//!
//! A letter is a greeting, followed by nothing or by one commitment or reveal of the player who
//! greets. `read_letter` reads one exactly where the bytes of a datagram spell one and nothing
//! follows, and `put_letter` writes its one spelling. It touches nothing, and takes no memory.
#![tactic(auto)]

pub mod laws;
pub mod letter;
pub mod reading;
pub mod writing;

pub use letter::Letter;
pub use reading::read_letter;
pub use writing::put_letter;
