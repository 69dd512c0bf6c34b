//! The other players of a loop over datagrams.

use definitions::Place;
use rosters::Link;

/// Another player, and what is known of it.
#[derive(Clone, Copy, Debug, PartialEq, Eq)]
pub struct Partner {
    /// Where it is, and the passes between it and the own player.
    pub link: Link,
    /// The greatest place of the own stream that it told as the one it wants next, counted from 0.
    pub told: Place,
}
