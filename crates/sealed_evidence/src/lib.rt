//! Sealed evidence: exhibits whose frames carry seals, for judges who have the players' roots.
//!
//! A [`SealedExhibit`] is an exhibit with a seal for each frame. [`judge_sealed`] says yes exactly
//! where the frames show what the exhibit says, and each seal is valid under the root of its
//! frame's player: whoever has the session and the roots can judge, and needs to trust no log.
//! [`blame`] is the answer of a player that plays fair: it names the first frame that the player
//! didn't make, and shows a secret that the player's seals never disclosed, or two byte strings
//! with one SHA-256 digest. A law says that each exhibit with a yes holds such an answer for
//! whoever has the keys ([`laws::judged_evidence_is_transferable`]). That the roots are the
//! players' own is the caller's to see to. The crate takes no memory and touches nothing outside.
#![tactic(auto)]

mod blaming;
mod judging;
pub mod laws;
mod sealed;

pub use blaming::blame;
pub use evidence::{Exhibit, FrameList, Kind, TurnFrame};
pub use judging::{is_sealed, judge_sealed};
pub use roots::Roots;
pub use seal_blame::{Blame, How};
pub use seal_keys::{Seal, SealKeys};
pub use sealed::{SealList, SealedExhibit};
