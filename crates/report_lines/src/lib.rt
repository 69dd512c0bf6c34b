//! The lines that several commands print: of a choice, of frames that come or are made, of findings, of needs, of a score, of
//! the players, and of where they stand when all turns are over.
//!
//! A line is made in a buffer of its own, byte for byte the text of its definition in `specs/Lines.antt`, and `put_added`,
//! `put_dropped`, `put_found` and `put_needs` write the lines that tell of a log's new entries, of what of it is dropped, of its finding, and
//! of what is needed. Of a peer as it stands `put_stand`, `put_players` and `put_score` write whether it may choose, waits or
//! is done, what its log shows of each player, and its own score (`specs/Report.antt`). The crate touches the sink that it
//! is handed, and takes no memory.
#![tactic(auto)]

pub mod lines;
pub mod printing;
pub mod standing;

pub use lines::{
    ReportLine, bad_byte_line, caught_line, choice_line, dropped_line, due_line, end_line,
    entry_line, got_line, hello_line, name_of_fault, name_of_what, need_line, player_line,
    score_line, want_line, world_line,
};
pub use printing::{put_added, put_dropped, put_each_need, put_found, put_needs};
pub use standing::{put_players, put_score, put_stand};
