//! A session without walls as plain numbers, and the rules that go by them alone.

use commitment::digest_of;
use definitions::{
    Cell, Digest, Move, Nonce, Opening, PlayerId, Seat, Slot, Track, Turn, TurnFrame, What,
};
use grid_world::Session;
use indexmap::IndexMap;
use std::alloc::{AllocError, Global};
use std::cell::RefCell;

/// The numbers of a session without walls, where a walk is as long as the square distance.
#[derive(Drop)]
pub struct Ground {
    pub id: [u8; 32],
    pub turns: u32,
    pub ahead: u32,
    pub players: u8,
    width: u16,
    height: u16,
    blast: u8,
    first_charge: u8,
    cap: u8,
    cost: u8,
    seats: Vec<Seat>,
    // of reveals that were asked for before
    digests: RefCell<IndexMap<TurnFrame, Digest>>,
}

/// The seat of a player that isn't there.
const NO_SEAT: Seat = Seat {
    start: Cell { x: 0, y: 0 },
    speed: 0,
    reach: 0,
};

/// How far two numbers are apart.
fn between(a: u16, b: u16) -> u32 {
    u32::from(a.max(b).wrapping_sub(a.min(b)))
}

/// The square distance of two cells.
fn distance(a: Cell, b: Cell) -> u32 {
    between(a.x, b.x).max(between(a.y, b.y))
}

impl Ground {
    /// The numbers of the session.
    pub fn new(alloc: Global, session: &Session) -> Result<Ground, AllocError> {
        session.facts();
        let rules = session.rules();
        let width = session.grid().width();
        let height = session.grid().height();
        let digests = RefCell::new(IndexMap::new(alloc));
        let mut seats = Vec::new(alloc);
        for player in 0..session.players() {
            let start = session.start(player);
            let speed = session.speed(player);
            let reach = session.reach(player);
            seats.push(Seat {
                start,
                speed,
                reach,
            })?;
        }
        let id = *session.id();
        let turns = session.turns();
        let ahead = session.ahead();
        let players = session.players();
        Ok(Ground {
            id,
            turns,
            ahead,
            players,
            width,
            height,
            blast: rules.blast,
            first_charge: rules.start_charge,
            cap: rules.cap,
            cost: rules.cost,
            seats,
            digests,
        })
    }

    /// Where the player begins, and how far it walks and strikes.
    pub fn seat(&self, player: PlayerId) -> Seat {
        match self.seats.get(usize::from(player)) {
            None => NO_SEAT,
            Some(seat) => *seat,
        }
    }

    /// Where the player stands before the first turn, and its charge.
    pub fn first_track(&self, player: PlayerId) -> Track {
        let at = self.seat(player).start;
        Track {
            at,
            charge: self.first_charge,
        }
    }

    fn is_inside(&self, cell: Cell) -> bool {
        cell.x < self.width && cell.y < self.height
    }

    /// Whether the move is legal for the player from this track.
    pub fn is_legal(&self, player: PlayerId, track: &Track, mv: &Move) -> bool {
        let seat = self.seat(player);
        if !self.is_inside(mv.to) || distance(track.at, mv.to) > u32::from(seat.speed) {
            return false;
        }
        match mv.strike {
            None => true,
            Some(cell) => {
                self.is_inside(cell)
                    && distance(mv.to, cell) <= u32::from(seat.reach)
                    && track.charge >= self.cost
            }
        }
    }

    /// The track behind a legal move.
    pub fn track_after(&self, track: &Track, mv: &Move) -> Track {
        let charge = match mv.strike {
            None => track.charge.saturating_add(1).min(self.cap),
            Some(_) => track.charge.saturating_sub(self.cost),
        };
        Track { at: mv.to, charge }
    }

    /// How far a player affects cells that is somewhere in its walks of so many turns.
    fn span(&self, player: PlayerId, turns: u32) -> u32 {
        let seat = self.seat(player);
        u32::from(seat.speed)
            .saturating_mul(turns)
            .saturating_add(u32::from(seat.reach))
            .saturating_add(u32::from(self.blast))
    }

    /// Whether the spheres of two players have a cell in common: the first walks one turn from its
    /// cell, and the second so many.
    pub fn have_common(&self, one: (PlayerId, Cell), other: (PlayerId, Cell), turns: u32) -> bool {
        let spans = self
            .span(one.0, 1)
            .saturating_add(self.span(other.0, turns));
        distance(one.1, other.1) <= spans
    }

    /// The frame that comes behind so many commitments and reveals of a stream, if any does.
    pub fn slot_behind(&self, commits: u32, reveals: u32) -> Option<Slot> {
        if commits < reveals.saturating_add(self.ahead).min(self.turns) {
            Some(Slot {
                what: What::Commit,
                turn: commits,
            })
        } else if reveals < self.turns {
            Some(Slot {
                what: What::Reveal,
                turn: reveals,
            })
        } else {
            None
        }
    }

    /// The place of a frame in its player's stream, also of one whose turn isn't played.
    pub fn place_of(&self, frame: &TurnFrame) -> u64 {
        let turn = u64::from(frame.turn());
        let turns = u64::from(self.turns);
        let ahead = u64::from(self.ahead);
        match frame {
            TurnFrame::Commit { .. } if turn >= turns => turn.saturating_mul(2),
            TurnFrame::Reveal { .. } if turn >= turns => turn.saturating_mul(2).saturating_add(1),
            TurnFrame::Commit { .. } => {
                turn.saturating_add(turn.saturating_add(1).saturating_sub(ahead))
            }
            TurnFrame::Reveal { .. } => turn.saturating_add(turn.saturating_add(ahead).min(turns)),
        }
    }

    /// The digest of what a reveal opens, as it was asked for before, or worked out now.
    fn digest_opened(&self, reveal: &TurnFrame, opening: &Opening) -> Digest {
        match self.digests.try_borrow_mut() {
            Err(_) => digest_of(&self.id, opening),
            Ok(mut digests) => {
                if let Some(digest) = digests.get(reveal) {
                    return *digest;
                }
                let digest = digest_of(&self.id, opening);
                // where memory is refused it is worked out again
                let _ = digests.insert(*reveal, digest);
                digest
            }
        }
    }

    /// The digest that a commitment carries, or that of what a reveal opens.
    pub fn digest_in(&self, frame: &TurnFrame) -> Digest {
        match *frame {
            TurnFrame::Commit { digest, .. } => digest,
            TurnFrame::Reveal {
                player,
                turn,
                mv,
                nonce,
            } => {
                let opening = Opening {
                    player,
                    turn,
                    mv,
                    nonce,
                };
                self.digest_opened(frame, &opening)
            }
        }
    }

    /// The frame of a player's turn, where it chose this.
    pub fn frame_of(&self, player: PlayerId, slot: &Slot, mv: Move, nonce: Nonce) -> TurnFrame {
        let turn: Turn = slot.turn;
        let reveal = TurnFrame::Reveal {
            player,
            turn,
            mv,
            nonce,
        };
        match slot.what {
            What::Reveal => reveal,
            What::Commit => {
                let digest = self.digest_in(&reveal);
                TurnFrame::Commit {
                    player,
                    turn,
                    digest,
                }
            }
        }
    }
}
