//! The frame that every command of the program shares: the law by which it is promised, the session of its file, how a run ends, by
//! which line it tells so, and what it has written then.
//!
//! `specs/Law.antt` is the record in which each command says what is promised of it, and
//! `specs/Runs.antt` what that means for a run, by the outside before it and after it
//! (`specs/Outside.antt`). A command says what it wrote by one record: `Ends` where it only writes,
//! `Turns` and `Plays` where it reads lines too, and `Finished` with the line of its status
//! (`specs/Frame.antt`, `Turns`, `Ends`). The lemmas by which it shows that it keeps to the frame
//! stand in `proofs/Frames.antt`, `Finish`, `Working` and `Alone`. [`open_session`] reads the session
//! of a file (`specs/Sessions.antt`; `Opening` has the words for files that are read one after the
//! other). Which status tells of a fault of what lies below is said by `From` and by
//! [`status_of_text`] (`specs/Faults.antt`), so that `?` ends a run by it. [`read_polls`] and
//! [`gave_up_line`] are for the commands that are granted polls. The crate touches the sink
//! that [`refuse`] is handed and the shelf that [`open_session`] is handed, which takes memory for
//! the front of the file and for the session.
#![tactic(auto)]

pub mod faults;
pub mod polls;
pub mod refusals;
pub mod sessions;
pub mod statuses;

pub use faults::status_of_text;
pub use polls::{MOST_POLLS, gave_up_line, read_polls};
pub use refusals::refuse;
pub use sessions::open_session;
pub use statuses::{Status, TextName};
