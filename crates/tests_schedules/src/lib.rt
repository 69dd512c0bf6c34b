//! Tables of peers as tests: against rules that were rendered once more, over all interleavings of
//! small matches and drawn ones of larger matches, and whole matches to their end.
//!
//! What may fail here while the proofs hold is a definition that says something else than was
//! meant, and a match that comes to no end. `plain` has the rules once more.
#![tactic(auto)]

#[cfg(test)]
mod drawn;
#[cfg(test)]
mod explored;
#[cfg(test)]
mod plain;
#[cfg(test)]
mod whole_matches;
