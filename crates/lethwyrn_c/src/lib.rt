//! A peer for C: one handle, behind which a peer, a reader for each link, and how far its log was
//! handed out and stored stand. A handle of seals is another kind: behind it stand a session and
//! perhaps a player's keys, by which its calls seal the player's frames and judge anybody's seals.
//!
//! Each call takes the handle by its address, and answers with a code that `lethwyrn.h` names. A
//! handle of zeros is one with nothing behind it, and each call but those that make something
//! refuses it. What else C hands in is tested when the call runs, but for pointers.
//! The crate promises what a call answers by the definitions of the peer and of `seal_keys`, that
//! each entry of the log is handed out once and in its order, and that an own frame is handed out
//! only where its entry was named as stored. Memory is taken where a handle gets what stands behind
//! it, and given back by `lethwyrn_free` and `lethwyrn_seals_free`; nothing else outside is touched.
#![tactic(auto)]

mod codes;
mod exports;
mod handing;
mod handle;
pub mod laws;
mod link;
mod loose;
mod mark;
mod playing;
mod sealer;
mod sealing;
mod seals_handle;
mod seat;
mod showing;
mod telling;
#[cfg(test)]
mod tests;
mod views;
