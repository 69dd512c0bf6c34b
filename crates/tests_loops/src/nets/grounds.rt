//! The sessions of the matches.

/// Two players nine cells apart, who can't meet before five turns are missed.
pub const FAR: &[u8] =
    b"playout 1\ngrid 12 1\nrules 1 1 0\ncharge 1 2 1\nturns 8\nplayers 2\nplayer 0 0 0\nplayer 1 9 0\nend\n";

/// Two players four cells apart, who can meet at once.
pub const NEAR: &[u8] =
    b"playout 1\ngrid 12 1\nrules 1 1 0\ncharge 1 2 1\nturns 8\nplayers 2\nplayer 0 0 0\nplayer 1 4 0\nend\n";

/// The same for three turns.
pub const SHORT: &[u8] =
    b"playout 1\ngrid 12 1\nrules 1 1 0\ncharge 1 2 1\nturns 3\nplayers 2\nplayer 0 0 0\nplayer 1 4 0\nend\n";

/// Three players in the corners of a small grid with a wall.
pub const THREE: &[u8] =
    b"playout 1\ngrid 9 9\nrules 2 2 1\ncharge 1 4 2\nturns 12\nplayers 3\nplayer 0 1 1\nplayer 1 7 1\nplayer 2 4 7\nwall 4 3\nwall 4 4\nend\n";

/// Four players on a grid of 32 by 32, for 50 turns.
pub const FOUR: &[u8] =
    b"playout 1\ngrid 32 32\nrules 2 3 1\ncharge 1 4 2\nturns 50\nplayers 4\nplayer 0 10 10\nplayer 1 21 10\nplayer 2 10 21\nplayer 3 21 21\nwall 15 14\nwall 15 15\nwall 15 16\nend\n";
