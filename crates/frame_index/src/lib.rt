//! The auditor's index: each different received frame once, with its first spot in each log, and what all logs show together.
//!
//! Frames are taken in any interleaving of the logs, those of one log in the order of its entries. The crate promises that what
//! is kept stands for the logs so far: of each player's turn, each different frame with the first spot that it has in each log
//! that got it; no frame is kept twice, and none with two spots in one log. From this alone [`findings`] lists every finding of the
//! logs with its least pair of spots, in the words of the definitions, whatever the number of turns that players commit ahead. What a
//! log shows of a player's stream is read place by place, all logs at once, and never kept: [`start_heads`], [`read_first`] and
//! [`read_turn`] read it for whoever wants more than the findings. A player of whom all that is kept is one legal play is judged once
//! for all logs, and [`common_moves`] gives its moves. Whoever follows the logs as they grow asks what one log shows of one turn, by
//! [`FrameIndex::commit_in`] and [`FrameIndex::opening_in`], which take no memory.
//!
//! The frames of a turn stand in a row, at the place of their player. There a frame is found among few others by comparing them, and
//! among many by its digest in an ordered map, so that no log can be made for which the look-ups take long. An index keeps the
//! allocator that it was made with, and takes from it the memory for what it keeps; all other calls say in their parameters where
//! memory comes from. A want of memory changes nothing that the index promises. Nothing outside is touched.
//!
//! What looks through the frames that are kept of a turn stands open in [`least`], [`pairs`] and [`judged`], for callers who keep
//! such frames themselves.
#![tactic(auto)]

mod clashes;
mod common;
mod frames;
mod heads;
mod illegal;
mod in_log;
pub mod judged;
mod kept;
pub mod least;
mod limits;
mod listing;
mod of_log;
pub mod pairs;
mod plain;
mod rows;
mod seen;
mod short_spot;
mod spot_list;
mod spots;
mod streams;

pub use common::{Chosen, common_moves};
pub use definitions::{Digest, Finding, Kind, Spot, TurnFrame};
pub use frames::{FrameIndex, own_entries_change_nothing};
pub use heads::{Heads, read_first, read_turn, start_heads};
pub use limits::MOST_LOGS;
pub use listing::findings;
pub use seen::Seen;
