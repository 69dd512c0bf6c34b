//! Sealed texts: exhibits whose frames carry seals, as texts, both ways.
//!
//! A [`SealedExhibit`] of 1 to [`MOST_SEALED_FRAMES`] frames, with a seal for each, has one text,
//! `evidence 2`, with each frame's seal on the line after it. [`print_sealed`] writes it.
//! [`read_sealed`] reads the text for a session: each text of such an exhibit, with seals as long
//! as those of the session, is read as it, unless memory runs out. Any other text is refused with
//! its first line at fault, as `specs/Reading.antt` says line by line. By a law of `laws` that is
//! the first line with which no text of such an exhibit begins. Whether the frames show anything,
//! and whether the seals are valid, is not asked here, but by `judge_sealed`. The crate takes memory
//! for texts, frames and seals, from the allocator that it is given, and touches nothing else.
#![tactic(auto)]

pub mod laws;
mod limits;
mod printing;
mod reading;

pub use evidence::{Exhibit, FrameList, Kind, PlayerId, Turn, TurnFrame};
pub use limits::{MOST_SEALED_FRAMES, SEALED_FRONT};
pub use printing::print_sealed;
pub use reading::read_sealed;
pub use seal_keys::Seal;
pub use sealed_evidence::{SealList, SealedExhibit};
pub use text_fields::TextFault;
