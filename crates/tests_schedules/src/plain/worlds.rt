//! Small matches: a session, who is hostile, which moves are tried, and which frames the hostile
//! players have.

use crate::plain::grounds::Ground;
use definitions::{Cell, Move, Nonce, PlayerId, Slot, Track, Turn, What};
use grid_world::{Session, SessionFault, read_session};
use schedule::Step;
use std::alloc::{AllocError, AllocFailed, Global};

/// Why a match isn't walked to its end.
#[derive(Clone, Copy, Debug, PartialEq, Eq)]
pub enum Trouble {
    /// Memory was refused.
    Memory,
    /// The session's text is none.
    Session,
    /// This doesn't hold.
    Broken(&'static str),
}

impl From<AllocError> for Trouble {
    fn from(_error: AllocError) -> Trouble {
        Trouble::Memory
    }
}

impl<T: Drop> From<AllocFailed<T>> for Trouble {
    fn from(_error: AllocFailed<T>) -> Trouble {
        Trouble::Memory
    }
}

impl From<SessionFault> for Trouble {
    fn from(_error: SessionFault) -> Trouble {
        Trouble::Session
    }
}

/// An error where this doesn't hold.
pub fn hold(holds: bool, rule: &'static str) -> Result<(), Trouble> {
    if holds {
        Ok(())
    } else {
        Err(Trouble::Broken(rule))
    }
}

/// Where a player goes in a turn: even players go on to the right, and odd ones to the left.
#[derive(Clone, Copy)]
pub enum Pace {
    Back,
    Stay,
    On,
}

/// A move that players try, in one turn or in each: where to, and whether they strike at the cell
/// in front of it.
#[derive(Clone, Copy)]
pub struct Wish {
    pub turn: Option<Turn>,
    pub pace: Pace,
    pub strikes: bool,
}

/// Whether the wish is one of this turn.
pub fn is_of_turn(wish: &Wish, turn: Turn) -> bool {
    match wish.turn {
        None => true,
        Some(of) => of == turn,
    }
}

/// A move that a hostile player has for an honest one: its commitment and its reveal are offered,
/// each at any time.
#[derive(Clone, Copy)]
pub struct Tale {
    pub from: PlayerId,
    pub to: PlayerId,
    /// Whose move it is; it is forged where that isn't the sender.
    pub of: PlayerId,
    pub turn: Turn,
    /// The column to which the player goes in that turn, by this tale.
    pub column: u16,
}

/// A small match on a corridor.
pub struct Scene {
    pub session: &'static [u8],
    /// A bit for each hostile player.
    pub hostile: u64,
    pub wishes: &'static [Wish],
    pub tales: &'static [Tale],
}

/// A scene that is set up: its session, the same as plain numbers, and the steps that bring the
/// hostile players' frames.
#[derive(Drop)]
pub struct World {
    pub session: Session,
    pub ground: Ground,
    pub hostile: u64,
    pub wishes: &'static [Wish],
    pub offers: Vec<Step>,
}

/// The column beside this one.
fn column_beside(x: u16, right: bool) -> u16 {
    if right {
        x.wrapping_add(1)
    } else {
        x.wrapping_sub(1)
    }
}

/// The move that a player tries from its track.
pub fn move_for(player: PlayerId, track: &Track, wish: &Wish) -> Move {
    let right = player % 2 == 0;
    let x = match wish.pace {
        Pace::Stay => track.at.x,
        Pace::On => column_beside(track.at.x, right),
        Pace::Back => column_beside(track.at.x, !right),
    };
    let y = track.at.y;
    let strike = if wish.strikes {
        Some(Cell {
            x: column_beside(x, right),
            y,
        })
    } else {
        None
    };
    Move {
        to: Cell { x, y },
        strike,
    }
}

/// The nonce of a player's turn.
pub fn nonce_of(player: PlayerId, turn: Turn) -> Nonce {
    let byte = player.wrapping_mul(16).wrapping_add((turn % 16) as u8);
    Nonce { bytes: [byte; 32] }
}

/// The step that brings a frame of a tale.
fn offer_of(ground: &Ground, tale: &Tale, what: What) -> Step {
    let slot = Slot {
        what,
        turn: tale.turn,
    };
    let to = Cell {
        x: tale.column,
        y: 0,
    };
    let nonce = nonce_of(tale.of, tale.turn);
    let frame = ground.frame_of(tale.of, &slot, Move { to, strike: None }, nonce);
    Step::Hostile {
        from: tale.from,
        to: tale.to,
        frame,
    }
}

/// The steps that bring the frames of the tales.
fn offers_of(alloc: Global, ground: &Ground, tales: &[Tale]) -> Result<Vec<Step>, Trouble> {
    let mut offers = Vec::new(alloc);
    for tale in tales {
        let commit = offer_of(ground, tale, What::Commit);
        offers.push(commit)?;
        let reveal = offer_of(ground, tale, What::Reveal);
        offers.push(reveal)?;
    }
    Ok(offers)
}

/// Sets a scene up.
pub fn world_of(alloc: Global, scene: &Scene) -> Result<World, Trouble> {
    let session = read_session(alloc, scene.session)?;
    let ground = Ground::new(alloc, &session)?;
    let offers = offers_of(alloc, &ground, scene.tales)?;
    Ok(World {
        session,
        ground,
        hostile: scene.hostile,
        wishes: scene.wishes,
        offers,
    })
}
