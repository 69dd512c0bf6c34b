//! Steps as the lines of a script of `schedule`, and stands as the line that is printed of them.

use crate::plain::texts::{put_line, put_numbers};
use crate::plain::worlds::{Trouble, World};
use commitment::put_turn;
use definitions::{Cell, Move, Nonce, PlayerId, TurnFrame};
use hex::encode;
use schedule::{Stand, Step};
use std::alloc::{AllocError, Global};

/// Adds the line that names the hostile players.
fn put_hostile(text: &mut String, world: &World) -> Result<(), AllocError> {
    text.push_str("hostile")?;
    for player in 0..world.ground.players {
        if player < 64 && (world.hostile >> player) & 1 == 1 {
            put_numbers(text, &[u32::from(player)])?;
        }
    }
    text.push_str("\n")
}

/// Adds a blank, the hexadecimal digits of these bytes and the end of the line.
fn put_digits(text: &mut String, alloc: Global, bytes: &[u8]) -> Result<(), AllocError> {
    let digits = encode(alloc, bytes)?;
    text.push_str(" ")?;
    text.push_str(digits.as_str())?;
    text.push_str("\n")
}

/// Adds a cell.
fn put_cell(text: &mut String, cell: Cell) -> Result<(), AllocError> {
    put_numbers(text, &[u32::from(cell.x), u32::from(cell.y)])
}

/// Adds the line of a choice.
fn put_choice(
    text: &mut String,
    alloc: Global,
    player: PlayerId,
    mv: &Move,
    nonce: &Nonce,
) -> Result<(), AllocError> {
    text.push_str("choose")?;
    put_numbers(text, &[u32::from(player)])?;
    put_cell(text, mv.to)?;
    if let Some(cell) = mv.strike {
        put_cell(text, cell)?;
    }
    put_digits(text, alloc, nonce.bytes.as_slice())
}

/// Adds the line of a hostile player's frame.
fn put_frame(
    text: &mut String,
    alloc: Global,
    from: PlayerId,
    to: PlayerId,
    frame: &TurnFrame,
) -> Result<(), AllocError> {
    let mut out = [0; 64];
    let count = put_turn(frame, &mut out);
    text.push_str("frame")?;
    put_numbers(text, &[u32::from(from), u32::from(to)])?;
    put_digits(text, alloc, out.get(..count).unwrap_or(&[]))
}

/// Adds the line of a step.
fn put_step(text: &mut String, alloc: Global, step: &Step) -> Result<(), AllocError> {
    match step {
        Step::Choose { player, mv, nonce } => put_choice(text, alloc, *player, mv, nonce),
        Step::Deliver { from, to, place } => {
            put_line(text, "deliver", &[u32::from(*from), u32::from(*to), *place])
        }
        Step::Hostile { from, to, frame } => put_frame(text, alloc, *from, *to, frame),
        Step::Stop { player, keep } => put_line(text, "stop", &[u32::from(*player), *keep]),
    }
}

/// The script of the steps.
pub fn script_of(alloc: Global, world: &World, steps: &[Step]) -> Result<String, AllocError> {
    let mut script = String::new(alloc);
    put_hostile(&mut script, world)?;
    for step in steps {
        put_step(&mut script, alloc, step)?;
    }
    Ok(script)
}

/// Adds the line that tells how a match stands.
fn put_stand(text: &mut String, stand: Stand) -> Result<(), AllocError> {
    match stand {
        Stand::Caught(player) => put_line(text, "stand caught", &[u32::from(player)]),
        Stand::Moving(player) => put_line(text, "stand moving", &[u32::from(player)]),
        Stand::Behind(player, whose, place) => {
            let numbers = [u32::from(player), u32::from(whose), place];
            put_line(text, "stand behind", &numbers)
        }
        Stand::Held(player) => put_line(text, "stand held", &[u32::from(player)]),
        Stand::Finished => put_line(text, "stand finished", &[]),
    }
}

/// The line that tells how a match stands.
pub fn stand_line(alloc: Global, stand: Stand) -> Result<String, AllocError> {
    let mut line = String::new(alloc);
    put_stand(&mut line, stand)?;
    Ok(line)
}

/// What doesn't hold, and the script that shows it.
pub fn told(
    alloc: Global,
    world: &World,
    steps: &[Step],
    came: &Result<(), Trouble>,
) -> Result<String, AllocError> {
    let script = script_of(alloc, world, steps)?;
    match came {
        Ok(()) => Ok(script),
        Err(Trouble::Memory) => String::from_str(alloc, "memory was refused"),
        Err(Trouble::Session) => String::from_str(alloc, "the session is none"),
        Err(Trouble::Broken(rule)) => format!(in alloc; "{rule}\n{script}"),
    }
}
