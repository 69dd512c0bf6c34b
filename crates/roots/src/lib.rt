//! Roots: for each player the root of its keys, by which its seals are judged, and their text.
//!
//! [`Roots`] has one root for each player, and contracts see it as the list of these.
//! [`print_roots`] writes the one text that the roots have, and [`put_root`] one line of it, for a
//! player that makes its own root known. [`read_roots`] reads the text for a session: each text of
//! roots of all its players is read as these, unless memory runs out. Any other text is refused
//! with its first line at fault, as `specs/Reading.antt` says line by line. No text can show whose
//! the roots are: each line is to come from its own player. The crate takes memory for the list and
//! the text, from the allocator that it is given, and touches nothing else.
#![tactic(auto)]

pub mod laws;
mod limits;
mod printing;
mod reading;
mod roots;

pub use definitions::PlayerId;
pub use limits::ROOTS_FRONT;
pub use printing::{print_roots, put_root};
pub use reading::read_roots;
pub use roots::Roots;
pub use text_fields::TextFault;
