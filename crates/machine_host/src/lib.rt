//! The machine as a trait of raw calls, and the record of what each was asked and answered.
//!
//! Each call of [`Host`] is one of the machine's and nothing else: it neither chooses nor tries
//! again. A host is seen as its history, one entry for each call, in order. So what stands on this
//! trait is proved over any machine, and what is left to be trusted is that a host makes the call
//! that it notes: for the machine itself those are the few lines of `mio_host`. A host whose
//! answers come from elsewhere notes each of them in [`HostNotes`], which only proofs read.
//! Nothing here takes memory.
#![tactic(auto)]

pub mod faults;
pub mod forms;
pub mod hosts;
pub mod notes;

pub use faults::{Answer, HostFault, fault_of};
pub use forms::{Socket, millis_of, socket_addr, text_of};
pub use hosts::{Host, LISTENER, MAILBOX, MOST_EVENTS, Numbered, Tokens};
pub use notes::HostNotes;
