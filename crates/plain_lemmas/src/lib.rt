//! Lemmas over plain lists, options, tests and bits, which proofs of several crates cite.
//!
//! There is no code here and no definition that a contract cites: what stands in `proofs/` says nothing of the protocol. A
//! lemma that speaks of the protocol's words stands in the lowest crate that can state it.
#![tactic(auto)]
