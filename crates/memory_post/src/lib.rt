//! A post in memory, which tells its whole history.
//!
//! A harness brings it datagrams and tells it which calls are to fail. Each call's answer is given
//! exactly, by what was brought and told before (`specs`). A call fails exactly where its number
//! was named, where the room doesn't suffice for what it would tell, and after the first call that
//! found it so. A second log on one post fails too. It touches memory alone, and takes all of it
//! in `new`.
#![tactic(auto)]

mod ledger;
mod mails;
pub mod memory;
mod unread;

pub use memory::MemoryPost;
