//! A frame that a log got, and which frames are looked for.

use definitions::{Digest, Spot, TurnFrame};

/// A frame that a log got, where it stands first in this log, and its digest: the one that it carries, or that of its opening.
#[derive(Clone, Copy, Debug, PartialEq, Eq)]
pub struct Seen {
    pub spot: Spot,
    pub frame: TurnFrame,
    pub digest: Digest,
}

/// Which frames of a turn are looked for.
#[derive(Clone, Copy)]
pub(crate) enum Wanted {
    /// Any frame.
    Any,
    /// A commitment.
    Commit,
    /// A reveal.
    Reveal,
    /// A frame with another digest.
    Unlike(Digest),
    /// A commitment with another digest.
    CommitUnlike(Digest),
    /// A reveal with another digest.
    RevealUnlike(Digest),
    /// A reveal with this digest that is another frame.
    Rival(Digest, TurnFrame),
}
