//! Lines of texts: where one ends, the numbers that a line of a name says, and what a reader answers that goes line by line.
//!
//! Session texts, exhibits, rosters and the like are texts of lines that end in LF, each a name and canonical numbers behind one space
//! each. The crate promises that [`take_line`] parts a text's first line from the rest, that a line is read as numbers exactly where it
//! has that form, as the definitions in `specs/Lines.antt` say, and that [`put_line`] writes it so. A reader of a whole text has its
//! own grammar and its own type of faults: for it are [`one_at`] and its like, which answer the fault that they are handed where the next
//! line is missing or has another form, the words of `specs/Reading.antt` in which the reader says what a text says, and those of
//! `specs/Answers.antt` for what it answers; `proofs/` has the lemmas about them. The laws of `laws` are that a text is its lines one
//! behind the other, that a line which is spelled from a name and numbers is read as these, and that what is read was spelled so. Only
//! `put_line` takes memory, from the allocator that it is given, and nothing else is touched.
#![tactic(auto)]

pub mod laws;
pub mod lines;
mod printing;
mod reading;

pub use lines::{
    Numbers, is_last_line, is_within, one_of, one_within, take_line, three_of, three_or_five_of,
    two_of,
};
pub use printing::put_line;
pub use reading::{one_at, one_within_at, three_at, three_or_five_at, two_at};
