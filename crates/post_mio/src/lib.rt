//! Datagrams and the log file of any host as a post.
//!
//! What each call asks the host, and what becomes of its answer, is proved, for any host:
//! `specs/Mails.antt` has the calls of datagrams and `specs/Posts.antt` those of the log. So a
//! datagram is given to the address that was asked for, whole or not at all, and one that is taken
//! is what the host took, cut at the buffer's end; and what is said to be kept or synced the host
//! has appended and synced. A poll waits at most a tenth of a second: for datagrams first, and then
//! for a short rest in which others may come. So a flood of datagrams wakes it at most 200 times a
//! second, and two loops that only greet each other don't chase each other. At every moment the
//! post's history tells what the host answered (`specs/Telling.antt`). `mio_host` has the machine's
//! own host. It takes no memory.
#![tactic(auto)]

mod mails;
mod pace;
pub mod post;

pub use post::MioPost;
