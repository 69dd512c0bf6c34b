//! A pilot that goes by a text.

ghost use Rattle.std.specs.Prelude.{◌≡◌, Some, IfOk};
ghost use Rattle.text_lines.specs.Answers.{Faults, Gives, IsRead};
ghost use Rattle.text_fields.specs.declared.fault.TextFault.TheVariants.{Memory};
ghost use Rattle.text_fields.specs.Faults.{is_memory};
ghost use Rattle.definitions.specs.declared.world.Move.{Move as SpecMove};
ghost use Rattle.std.specs.Prelude.{List};
ghost use Rattle.pilots.specs.Scripts.{IsReadFrom, script_at, script_fault, scripted};

use crate::moves::moves_of;
use crate::pilot::Pilot;
use definitions::{Move, Track, Turn};
use grid_world::Session;
use std::alloc::Global;
use std::marker::Model;
use text_fields::TextFault;

/// Goes by a list of moves, one for each turn.
#[derive(Drop)]
pub struct ScriptPilot {
    moves: Vec<Move>,
}

impl Model for ScriptPilot {
    ghost use Rattle.std.specs.Prelude.{List};
    ghost use Rattle.definitions.specs.declared.world.Move.{Move};

    ghost Value = { List Move };

    ghost view = { λ p. p.moves.items };
}

/// The script of a text, or the first line at fault.
fn script_of(alloc: Global, text: &[u8], session: &Session) -> Result<ScriptPilot, TextFault>
    ensures { Gives is_memory (λ p. p) result (script_at session.now.turns text.now) }
{
    let moves = moves_of(alloc, session.turns(), text)?;
    Ok(ScriptPilot { moves })
}

impl ScriptPilot {
    /// Reads a moves text: a line for each turn of the session, with the column and the row of the target and, where the move strikes,
    /// those of the cell struck.
    ///
    /// `At` names the first line that is not in this grammar: one of another form, a number above 65535, a line that is missing, or one
    /// too many. `Memory` comes only where memory runs out. Whether a move is legal is not asked.
    pub fn read(alloc: Global, text: &[u8], session: &Session) -> Result<ScriptPilot, TextFault>
        // What is read has this text and no other.
        ensures found { IfOk result (λ moves. IsReadFrom session.now.turns moves text.now) }
        // Each moves text of the session is read as those moves, unless memory runs out.
        ensures only { (moves : List SpecMove) → IsReadFrom session.now.turns moves text.now → IsRead Memory moves result }
        // Which line is at fault.
        ensures exact { Faults is_memory result (script_fault session.now.turns text.now) }
        // All of it once more, as the text is read line by line.
        ensures said { Gives is_memory (λ p. p) result (script_at session.now.turns text.now) }
    {
        script_of(alloc, text, session)
    }

    /// The moves in the order of their turns.
    pub fn moves(&self) -> &[Move]
        ensures { result.now ≡ self.now }
    {
        &self.moves
    }
}

impl Pilot for ScriptPilot {
    ghost plan = { λ moves. Some (scripted moves) };

    /// The move of the turn, and past the last one to stay.
    fn choose(&mut self, track: &Track, turn: Turn) -> Move
        ensures chosen { result ≡ scripted self.old track.now turn }
        ensures same { self.new ≡ self.old }
    {
        match self.moves.get(turn as usize) {
            Some(mv) => *mv,
            None => Move {
                to: track.at,
                strike: None,
            },
        }
    }
}
