//! The roster of a live logger, which has a link to each player.

ghost use Rattle.std.specs.Prelude.{ℕ, List, IfOk};
ghost use Rattle.definitions.specs.World.{players_of};
ghost use Rattle.text_lines.specs.Answers.{Faults, Gives, IsRead};
ghost use Rattle.text_fields.specs.declared.fault.TextFault.TheVariants.{Memory};
ghost use Rattle.text_fields.specs.Faults.{is_memory};
ghost use Rattle.rosters.specs.Rosters.{Neighbours};
ghost use Rattle.rosters.specs.WatchText.{IsWatchFrom, watch_fault, watch_roster_at};

use crate::reading::read_roster;
use crate::roster::Roster;
use definitions::PlayerId;
use grid_world::Session;
use std::alloc::Global;
use text_fields::TextFault;

/// A number that no player has: of whom it is, all players are others.
pub(crate) const NOBODY: PlayerId = 255;

/// Reads the roster of a live logger of the session from its text: as that of a player, but with a
/// line for each player of the session, rising. `At` names the first line that is not in this
/// grammar, as [`read_roster`] does; the line of player `q` is line `q + 3`. `Memory` comes only
/// where memory runs out.
pub fn read_watch_roster(alloc: Global, text: &[u8], session: &Session) -> Result<Roster, TextFault>
    // What is read has this text and no other, and a link to each player, rising.
    ensures found { IfOk result (λ r. IsWatchFrom (players_of session.now) r text.now) }
    // Each text of such a roster is read as that roster, unless memory runs out.
    ensures only { (r : Neighbours) → IsWatchFrom (players_of session.now) r text.now → IsRead Memory r result }
    // Which line is at fault.
    ensures exact { Faults is_memory result (watch_fault (players_of session.now) text.now) }
    // All of it once more, as the text is read line by line.
    ensures said { Gives is_memory (λ r. r) result (watch_roster_at (players_of session.now) text.now) }
{
    session.facts();
    read_roster(alloc, text, session, NOBODY)
}
