//! Datagrams that a loop drops, and why.

/// Why a datagram is dropped. The first of these that holds of it is its cause.
#[derive(Clone, Copy, Debug, PartialEq, Eq)]
pub enum Cause {
    /// It spells no letter, of whatever length it is.
    Spelling,
    /// Its letter has the id of another session.
    Session,
    /// Its letter is of a player that is none of the other players of the roster.
    Player,
    /// Its letter has another pass than the one that is wanted of its player.
    Pass,
}

/// How many datagrams were dropped for each cause, since the loop was made. Each count stops at
/// `u64::MAX`.
#[derive(Clone, Copy, Debug, PartialEq, Eq)]
pub struct Drops {
    /// Those that spell no letter, of whatever length.
    pub spelling: u64,
    /// Those with the id of another session.
    pub session: u64,
    /// Those of a player that is none of the other players of the roster.
    pub player: u64,
    /// Those with another pass than the one that is wanted of their player.
    pub pass: u64,
}
