//! What the players of this example choose.

use definitions::{Cell, Move, PlayerId};
use peer_core::Choice;

/// A number one less, the same, or one more.
fn beside(at: u16, step: u32) -> u16 {
    at.saturating_add((step % 3) as u16).saturating_sub(1)
}

/// A step to one of the cells around, by the turn and the player, and now and then a strike beside
/// it. It may lead against a wall, which isn't legal.
pub fn next_move(choice: &Choice, player: PlayerId) -> Move {
    let dice = choice
        .turn
        .wrapping_mul(2_654_435_761)
        .wrapping_add(u32::from(player).wrapping_mul(1_779_033_703));
    let x = beside(choice.track.at.x, dice >> 16);
    let y = beside(choice.track.at.y, dice >> 24);
    let to = Cell { x, y };
    let aside = beside(x, dice >> 20);
    let strike = if choice.track.charge >= 3 {
        Some(Cell { x: aside, y })
    } else {
        None
    };
    Move { to, strike }
}

/// The move of a player that stays where it is, which is legal everywhere.
pub fn staying(choice: &Choice) -> Move {
    Move {
        to: choice.track.at,
        strike: None,
    }
}
