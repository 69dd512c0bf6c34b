//! A log as a file of any host: begun once, appended to, and synced.
//!
//! What each call asks the host, and what becomes of its answer, is proved, for any host:
//! `specs/Files.antt` has the calls of the file and `specs/Logs.antt` those of the log. So what is
//! said to be kept stands in the file, all of it and in its order, and what is said to be synced
//! stays after a crash of the machine: the bytes, and that there is such a file
//! (`specs/Telling.antt`). The file is a new one, for its owner alone. Where an append or a sync
//! fails, nothing is appended or synced any more, since nobody knows what stands in the file then.
//! It touches nothing but the host that each call is given, and takes no memory.
#![tactic(auto)]

pub mod log_file;
pub mod logs;

pub use log_file::{LOG_MODE, LogFile};
pub use logs::HostLog;
