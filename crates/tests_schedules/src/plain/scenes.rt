//! The small matches that are walked, and how many states they have.
//!
//! All are played on corridors, where two players meet whose columns are at most four apart, once
//! all their turns before are known. The counts are those of a second program too, in another
//! language, which keeps plain lists of entries and knows no peer.

use crate::plain::explorer::Counts;
use crate::plain::worlds::{Pace, Scene, Tale, Wish};

/// A scene that is walked, up to so many steps from its beginning, and the counts that come of it.
pub struct Walk {
    pub name: &'static str,
    pub scene: Scene,
    pub most: u32,
    pub counts: Counts,
}

/// The steps of a walk to all ends.
const TO_THE_END: u32 = u32::MAX;

/// To stay.
const STAYS: Wish = Wish {
    turn: None,
    pace: Pace::Stay,
    strikes: false,
};

/// To go on, and to strike in front.
const STRIKES: Wish = Wish {
    turn: None,
    pace: Pace::On,
    strikes: true,
};

/// To part in the first turn, to come together again in the second, and then to stay or strike.
const PARTS: [Wish; 4] = [
    Wish {
        turn: Some(0),
        pace: Pace::Back,
        strikes: false,
    },
    Wish {
        turn: Some(1),
        pace: Pace::On,
        strikes: false,
    },
    Wish {
        turn: Some(2),
        pace: Pace::Stay,
        strikes: false,
    },
    Wish {
        turn: Some(2),
        pace: Pace::On,
        strikes: true,
    },
];

/// A play of two turns, and besides: another move in the first turn, one that isn't legal in the
/// second, a move of the other player, and one of a turn that isn't played.
const LIES: [Tale; 6] = [
    Tale {
        from: 1,
        to: 0,
        of: 1,
        turn: 0,
        column: 6,
    },
    Tale {
        from: 1,
        to: 0,
        of: 1,
        turn: 1,
        column: 6,
    },
    Tale {
        from: 1,
        to: 0,
        of: 1,
        turn: 0,
        column: 5,
    },
    Tale {
        from: 1,
        to: 0,
        of: 1,
        turn: 1,
        column: 9,
    },
    Tale {
        from: 1,
        to: 0,
        of: 0,
        turn: 0,
        column: 2,
    },
    Tale {
        from: 1,
        to: 0,
        of: 1,
        turn: 9,
        column: 6,
    },
];

/// A move for each of two players, not the same.
const TWO_FACES: [Tale; 2] = [
    Tale {
        from: 2,
        to: 0,
        of: 2,
        turn: 0,
        column: 4,
    },
    Tale {
        from: 2,
        to: 1,
        of: 2,
        turn: 0,
        column: 3,
    },
];

/// A move for each of two players, not the same, and for one of them both.
const GOSSIP: [Tale; 3] = [
    Tale {
        from: 2,
        to: 0,
        of: 2,
        turn: 0,
        column: 4,
    },
    Tale {
        from: 2,
        to: 1,
        of: 2,
        turn: 0,
        column: 3,
    },
    Tale {
        from: 2,
        to: 0,
        of: 2,
        turn: 0,
        column: 3,
    },
];

/// Two honest players.
pub static PAIRS: [Walk; 5] = [
    Walk {
        name: "two players meet for two turns",
        scene: Scene {
            session: b"playout 1\ngrid 12 1\nrules 1 1 0\ncharge 1 2 1\nturns 2\nplayers 2\nplayer 0 2 0\nplayer 1 6 0\nend\n",
            hostile: 0,
            wishes: &[STAYS, STRIKES],
            tales: &[],
        },
        most: TO_THE_END,
        counts: Counts {
            states: 3020,
            steps: 42_126,
            changes: 5772,
            ends: 621,
        },
    },
    Walk {
        name: "the same in version 2",
        scene: Scene {
            session: b"playout 2\ngrid 12 1\nrules 1 1 0\ncharge 1 2 1\nturns 2\nahead 1\nplayers 2\nplayer 0 2 0\nplayer 1 6 0\nend\n",
            hostile: 0,
            wishes: &[STAYS, STRIKES],
            tales: &[],
        },
        most: TO_THE_END,
        counts: Counts {
            states: 3020,
            steps: 42_126,
            changes: 5772,
            ends: 621,
        },
    },
    Walk {
        name: "two players meet for three turns",
        scene: Scene {
            session: b"playout 1\ngrid 12 1\nrules 1 1 0\ncharge 1 2 1\nturns 3\nplayers 2\nplayer 0 2 0\nplayer 1 6 0\nend\n",
            hostile: 0,
            wishes: &[STAYS],
            tales: &[],
        },
        most: TO_THE_END,
        counts: Counts {
            states: 3752,
            steps: 58_392,
            changes: 7260,
            ends: 683,
        },
    },
    Walk {
        name: "two players meet, part and meet again",
        scene: Scene {
            session: b"playout 2\ngrid 14 1\nrules 1 1 0\ncharge 1 2 1\nturns 3\nahead 1\nplayers 2\nplayer 0 4 0\nplayer 1 8 0\nend\n",
            hostile: 0,
            wishes: &PARTS,
            tales: &[],
        },
        most: 12,
        counts: Counts {
            states: 18_461,
            steps: 80_492,
            changes: 33_570,
            ends: 0,
        },
    },
    Walk {
        name: "two players commit two turns ahead",
        scene: Scene {
            session: b"playout 2\ngrid 12 1\nrules 1 1 0\ncharge 1 2 1\nturns 2\nahead 2\nplayers 2\nplayer 0 2 0\nplayer 1 6 0\nend\n",
            hostile: 0,
            wishes: &[STAYS],
            tales: &[],
        },
        most: TO_THE_END,
        counts: Counts {
            states: 11_448,
            steps: 150_636,
            changes: 32_364,
            ends: 2384,
        },
    },
];

/// Three honest players.
pub static TRIOS: [Walk; 2] = [
    Walk {
        name: "three players meet",
        scene: Scene {
            session: b"playout 1\ngrid 12 1\nrules 1 1 0\ncharge 1 2 1\nturns 2\nplayers 3\nplayer 0 2 0\nplayer 1 4 0\nplayer 2 6 0\nend\n",
            hostile: 0,
            wishes: &[STAYS],
            tales: &[],
        },
        most: 10,
        counts: Counts {
            states: 14_829,
            steps: 107_190,
            changes: 34_923,
            ends: 0,
        },
    },
    Walk {
        name: "three players in a row, of whom the first and the last never meet",
        scene: Scene {
            session: b"playout 2\ngrid 12 1\nrules 1 1 0\ncharge 1 2 1\nturns 2\nahead 1\nplayers 3\nplayer 0 0 0\nplayer 1 4 0\nplayer 2 8 0\nend\n",
            hostile: 0,
            wishes: &[STAYS],
            tales: &[],
        },
        most: 8,
        counts: Counts {
            states: 5808,
            steps: 32_046,
            changes: 12_827,
            ends: 0,
        },
    },
];

/// A hostile player among two or three.
pub static HOSTILE: [Walk; 5] = [
    Walk {
        name: "a hostile player of two is silent",
        scene: Scene {
            session: b"playout 1\ngrid 12 1\nrules 1 1 0\ncharge 1 2 1\nturns 2\nplayers 2\nplayer 0 2 0\nplayer 1 6 0\nend\n",
            hostile: 2,
            wishes: &[STAYS, STRIKES],
            tales: &[],
        },
        most: TO_THE_END,
        counts: Counts {
            states: 3,
            steps: 9,
            changes: 2,
            ends: 2,
        },
    },
    Walk {
        name: "a hostile player of three is silent",
        scene: Scene {
            session: b"playout 2\ngrid 12 1\nrules 1 1 0\ncharge 1 2 1\nturns 2\nahead 1\nplayers 3\nplayer 0 2 0\nplayer 1 4 0\nplayer 2 6 0\nend\n",
            hostile: 4,
            wishes: &[STAYS, STRIKES],
            tales: &[],
        },
        most: TO_THE_END,
        counts: Counts {
            states: 41,
            steps: 346,
            changes: 76,
            ends: 12,
        },
    },
    Walk {
        name: "a hostile player of two lies",
        scene: Scene {
            session: b"playout 1\ngrid 12 1\nrules 1 1 0\ncharge 1 2 1\nturns 2\nplayers 2\nplayer 0 2 0\nplayer 1 6 0\nend\n",
            hostile: 2,
            wishes: &[STAYS, STRIKES],
            tales: &LIES,
        },
        most: TO_THE_END,
        counts: Counts {
            states: 18_271,
            steps: 299_885,
            changes: 44_090,
            ends: 14_720,
        },
    },
    Walk {
        name: "a hostile player of three has two faces",
        scene: Scene {
            session: b"playout 2\ngrid 12 1\nrules 1 1 0\ncharge 1 2 1\nturns 2\nahead 1\nplayers 3\nplayer 0 2 0\nplayer 1 4 0\nplayer 2 6 0\nend\n",
            hostile: 4,
            wishes: &[STAYS],
            tales: &TWO_FACES,
        },
        most: TO_THE_END,
        counts: Counts {
            states: 3037,
            steps: 40_350,
            changes: 11_950,
            ends: 677,
        },
    },
    Walk {
        name: "a hostile player's two faces are told of",
        scene: Scene {
            session: b"playout 1\ngrid 12 1\nrules 1 1 0\ncharge 1 2 1\nturns 2\nplayers 3\nplayer 0 2 0\nplayer 1 4 0\nplayer 2 6 0\nend\n",
            hostile: 4,
            wishes: &[STAYS],
            tales: &GOSSIP,
        },
        most: 8,
        counts: Counts {
            states: 8893,
            steps: 84_063,
            changes: 27_738,
            ends: 984,
        },
    },
];
