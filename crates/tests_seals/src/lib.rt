//! Keys, seals and files of sealed frames, as tests: beside an independent program, which has the
//! roots and the seals, and where there is ample memory.
//!
//! What can fail here while the proofs hold: that a definition says what was meant, the order of
//! bits, values, children and bytes above all; that a seal of which one byte was changed is valid;
//! and that a call says that memory is wanting where there is enough.
#![tactic(auto)]

#[cfg(test)]
mod accusations;
#[cfg(test)]
mod frames;
#[cfg(test)]
mod seals;
