//! What the entries of a log show of a player's stream, by scans from the front.

use crate::plain::grounds::Ground;
use definitions::{Digest, Entry, Move, Nonce, PlayerId, Slot, Track, Turn, TurnFrame, What};
use std::alloc::{AllocError, Global};

/// How many commitments of another player are held, how many of its turns are resolved, its track
/// after them, and the move of the last one.
#[derive(Clone, Copy)]
pub struct Known {
    pub held: u32,
    pub resolved: u32,
    pub track: Track,
    last: Option<Move>,
}

/// The digest of the first commitment to the turn that came from the player.
fn first_commitment(log: &[Entry], player: PlayerId, turn: Turn) -> Option<Digest> {
    for entry in log {
        if let Entry::Got(from, frame) = entry {
            if let TurnFrame::Commit {
                turn: of,
                digest,
                ..
            } = frame
            {
                if *from == player && *of == turn {
                    return Some(*digest);
                }
            }
        }
    }
    None
}

/// The move of a reveal of this turn that opens the digest, legal after the track or not.
fn opened_by(
    ground: &Ground,
    entry: &Entry,
    player: PlayerId,
    turn: Turn,
    digest: &Digest,
) -> Option<Move> {
    match entry {
        Entry::Got(from, frame) => match frame {
            TurnFrame::Reveal { turn: of, mv, .. }
                if *from == player && *of == turn && ground.digest_in(frame) == *digest => {
                Some(*mv)
            }
            _ => None,
        },
        _ => None,
    }
}

/// The first move that opens the digest and is legal after the track, or where `legal` is false,
/// isn't.
fn first_opening(
    ground: &Ground,
    log: &[Entry],
    player: PlayerId,
    slot: &Slot,
    digest: &Digest,
    track: &Track,
    legal: bool,
) -> Option<Move> {
    for entry in log {
        if let Some(mv) = opened_by(ground, entry, player, slot.turn, digest) {
            if ground.is_legal(player, track, &mv) == legal {
                return Some(mv);
            }
        }
    }
    None
}

impl Known {
    /// The next place of the player's stream.
    pub fn next(&self) -> u32 {
        self.held.saturating_add(self.resolved)
    }

    /// The same with the next place of the stream, if that is there.
    fn further(&self, ground: &Ground, log: &[Entry], player: PlayerId) -> Option<Known> {
        let slot = ground.slot_behind(self.held, self.resolved)?;
        let digest = first_commitment(log, player, slot.turn)?;
        let mut more = *self;
        match slot.what {
            What::Commit => more.held = self.held.saturating_add(1),
            What::Reveal => {
                let mv = first_opening(ground, log, player, &slot, &digest, &self.track, true)?;
                more.resolved = self.resolved.saturating_add(1);
                more.track = ground.track_after(&self.track, &mv);
                more.last = Some(mv);
            }
        }
        Some(more)
    }

    /// Whether the log has a reveal of the first turn that isn't resolved which opens what is
    /// held, and whose move isn't legal.
    fn is_illegal(&self, ground: &Ground, log: &[Entry], player: PlayerId) -> bool {
        let slot = Slot {
            what: What::Reveal,
            turn: self.resolved,
        };
        match first_commitment(log, player, slot.turn) {
            Some(digest) if self.resolved < ground.turns => {
                first_opening(ground, log, player, &slot, &digest, &self.track, false).is_some()
            }
            _ => false,
        }
    }
}

/// What is known of a player of whom nothing came.
fn nothing_known(ground: &Ground, player: PlayerId) -> Known {
    let track = ground.first_track(player);
    Known {
        held: 0,
        resolved: 0,
        track,
        last: None,
    }
}

/// What the log shows of the player.
pub fn known_of(ground: &Ground, log: &[Entry], player: PlayerId) -> Known {
    let mut known = nothing_known(ground, player);
    for _place in 0..ground.turns.saturating_mul(2) {
        match known.further(ground, log, player) {
            None => return known,
            Some(more) => known = more,
        }
    }
    known
}

/// The moves by which the log resolves the player's turns.
pub fn moves_of(
    alloc: Global,
    ground: &Ground,
    log: &[Entry],
    player: PlayerId,
) -> Result<Vec<Move>, AllocError> {
    let mut moves = Vec::new(alloc);
    let mut known = nothing_known(ground, player);
    for _place in 0..ground.turns.saturating_mul(2) {
        let Some(more) = known.further(ground, log, player) else {
            break;
        };
        if let Some(mv) = more.last {
            if more.resolved > known.resolved {
                moves.push(mv)?;
            }
        }
        known = more;
    }
    Ok(moves)
}

/// Whether two frames of one player and turn have different digests.
fn contradict(ground: &Ground, one: &Entry, other: &Entry) -> bool {
    match (one, other) {
        (Entry::Got(from, frame), Entry::Got(of, second)) => {
            *from == *of
                && frame.turn() == second.turn()
                && *frame != *second
                && ground.digest_in(frame) != ground.digest_in(second)
        }
        _ => false,
    }
}

/// Whether an entry contradicts one of these.
fn contradicts_one(ground: &Ground, log: &[Entry], one: &Entry) -> bool {
    for other in log {
        if contradict(ground, one, other) {
            return true;
        }
    }
    false
}

/// Whether the log shows that a player broke the protocol.
pub fn is_caught(ground: &Ground, log: &[Entry]) -> bool {
    for entry in log {
        if contradicts_one(ground, log, entry) {
            return true;
        }
    }
    for player in 0..ground.players {
        if known_of(ground, log, player).is_illegal(ground, log, player) {
            return true;
        }
    }
    false
}

/// How many moves the owner chose, and how many commitments and reveals it made.
#[derive(Clone, Copy)]
pub struct Own {
    pub chosen: u32,
    pub commits: u32,
    pub reveals: u32,
}

impl Own {
    /// How many frames were made.
    pub fn made(&self) -> u32 {
        self.commits.saturating_add(self.reveals)
    }
}

/// What the owner chose and made.
pub fn own_of(log: &[Entry]) -> Own {
    let mut own = Own {
        chosen: 0,
        commits: 0,
        reveals: 0,
    };
    for entry in log {
        match entry {
            Entry::Chose { .. } => own.chosen = own.chosen.saturating_add(1),
            Entry::Made(TurnFrame::Commit { .. }) => own.commits = own.commits.saturating_add(1),
            Entry::Made(TurnFrame::Reveal { .. }) => own.reveals = own.reveals.saturating_add(1),
            Entry::Got(..) => {}
        }
    }
    own
}

/// What the owner chose for the turn.
pub fn chosen_for(log: &[Entry], turn: Turn) -> Option<(Move, Nonce)> {
    for entry in log {
        if let Entry::Chose {
            turn: of,
            mv,
            nonce,
        } = entry
        {
            if *of == turn {
                return Some((*mv, *nonce));
            }
        }
    }
    None
}

/// The owner's track before the turn, by the moves that it chose.
pub fn own_track(ground: &Ground, me: PlayerId, log: &[Entry], turn: Turn) -> Track {
    let mut track = ground.first_track(me);
    for entry in log {
        if let Entry::Chose { turn: of, mv, .. } = entry {
            if *of < turn {
                track = ground.track_after(&track, mv);
            }
        }
    }
    track
}

/// The frame that the owner made at the place.
pub fn made_at(log: &[Entry], place: u32) -> Option<TurnFrame> {
    let mut left = place;
    for entry in log {
        if let Entry::Made(frame) = entry {
            if left == 0 {
                return Some(*frame);
            }
            left = left.saturating_sub(1);
        }
    }
    None
}
