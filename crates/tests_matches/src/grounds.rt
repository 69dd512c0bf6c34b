//! The match of three that the machines play, and who finds whom where.

use definitions::PlayerId;

/// Three players on a ground with three walls, for 6 turns.
pub(crate) const SESSION: &[u8] =
    b"playout 1\ngrid 12 6\nrules 1 2 0\ncharge 1 3 2\nturns 6\nplayers 3\nplayer 0 1 2\nplayer 1 10 1\nplayer 2 5 5\nwall 5 0\nwall 5 1\nwall 8 3\nend\n";

/// Player 2 is too far from the two others to meet them.
pub(crate) const FAR: &[u8] =
    b"playout 1\ngrid 24 6\nrules 1 2 0\ncharge 1 3 2\nturns 6\nplayers 3\nplayer 0 2 2\nplayer 1 6 3\nplayer 2 21 3\nend\n";

/// Two strikes hit player 1 in the fourth turn, and its own hits player 0 in the last.
pub(crate) const MOVES: [&[u8]; 3] = [
    b"2 2\n3 2\n4 3\n4 3 6 3\n4 2\n5 2\n",
    b"9 1\n8 2\n7 3\n6 3\n6 3\n7 2 5 2\n",
    b"5 4\n6 4\n7 4\n7 4 6 3\n6 4\n5 4\n",
];

/// A player that stays, and what a liar tells the one and the other.
pub(crate) const STAY: &[u8] = b"6 3\n6 3\n6 3\n6 3\n6 3\n6 3\n";

pub(crate) const UP: &[u8] = b"20 3\n19 3\n19 2\n19 1\n19 1\n20 1\n";

pub(crate) const DOWN: &[u8] = b"20 3\n19 3\n19 4\n19 5\n19 5\n20 5\n";

/// The two other players, each on the machine of its number.
pub(crate) fn others(me: PlayerId) -> [(PlayerId, u8); 2] {
    match me {
        0 => [(1, 1), (2, 2)],
        1 => [(0, 0), (2, 2)],
        _ => [(0, 0), (1, 1)],
    }
}
