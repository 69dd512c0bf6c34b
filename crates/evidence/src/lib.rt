//! Evidence: frames that show, without any log, that a player broke the protocol; their text, and who is convicted by them.
//!
//! An [`Exhibit`] names a player, a turn and a kind of finding, and has the frames that are to show it. [`judge`] says yes exactly
//! where they do, as the crate `definitions` has it, so whoever has the session can judge again. An exhibit has one text, which
//! [`print_exhibit`] writes; [`read_exhibit`] reads each such text as that exhibit unless memory runs out, and refuses any other
//! with its first line at fault. The laws of `laws` tie exhibits to logs: each finding in logs of a session is shown by frames
//! that these logs got, and frames that show something convict their player where logs got them, for an illegal move with what
//! comes before them. They say too which frames show an illegal move, that what shows something is read back from its text, and that
//! the line at fault is the first with which no exhibit's text begins. Nothing here tells whether a frame is of the player that it
//! names: that is for those who took it from that player. The crate takes memory from the allocator that it is given, `judge` takes
//! none, and it touches nothing else.
#![tactic(auto)]

mod exhibit;
mod head;
mod judging;
pub mod laws;
mod printing;
mod reading;

pub use definitions::{Kind, PlayerId, Turn, TurnFrame};
pub use exhibit::{Exhibit, FrameList};
pub use head::Head;
pub use judging::judge;
pub use printing::{print_exhibit, put_frame, put_head};
pub use reading::{frame_of, read_exhibit, read_head};
pub use text_fields::TextFault;
