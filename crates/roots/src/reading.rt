//! Roots are read from their text.

ghost use Rattle.std.specs.Prelude.{◌≡◌, ◌≤◌, ℕ, List, [], IfOk};
ghost use Rattle.definitions.specs.World.{players_of};
ghost use Rattle.text_lines.specs.Lines.{ended_lines_of};
ghost use Rattle.text_lines.specs.Answers.{Faults, Gives, IsRead, Says};
ghost use Rattle.text_fields.specs.declared.fault.TextFault.TheVariants.{Memory};
ghost use Rattle.text_fields.specs.Faults.{is_memory};
ghost use Rattle.roots.specs.Text.{IsReadFrom};
ghost use Rattle.roots.specs.Reading as R;
ghost use Rattle.roots.specs.Reading.{end_at, root_at, root_ended, root_said, roots_at, roots_fault, with_root};

use crate::roots::Roots;
use definitions::PlayerId;
use definitions::limits::GREATEST_PLAYER;
use grid_world::Session;
use std::alloc::Global;
use text_fields::{TextFault, number_then, read_nonce};
use text_lines::{is_last_line, one_within_at, take_line};

/// The root whose digits are the rest of a line, up to its LF.
fn read_ended(text: &[u8]) -> Option<[u8; 32]>
    ensures { result ≡ root_ended text.now }
{
    let spelled = read_nonce(text.strip_suffix(b"\n")?)?;
    Some(spelled.bytes)
}

/// The root that a line says of this player.
#[tactic(auto, unfolding(crate::specs::Reading::root_said))]
fn read_root(player: PlayerId, line: &[u8]) -> Option<[u8; 32]>
    ensures { result ≡ root_said player line.now }
{
    let (number, rest) = number_then(GREATEST_PLAYER.into(), line.strip_prefix(b"root ")?)?;
    if number == u32::from(player) {
        read_ended(rest)
    } else {
        None
    }
}

/// The number of the line of this player's root, and of `end` where there are so many players.
fn line_number(player: PlayerId) -> u32
    ensures { result ≡ R.line_number player }
{
    u32::from(player) + 2
}

/// The root of this player, which the next line says, and the text that follows the line.
fn next_root(player: PlayerId, text: &[u8]) -> Result<([u8; 32], &[u8]), TextFault>
    ensures { Says (λ x. (x.0, ended_lines_of x.1.now)) result (root_at player (ended_lines_of text.now)) }
{
    let (line, rest) = take_line(text);
    match read_root(player, line) {
        None => Err(TextFault::At(line_number(player))),
        Some(root) => Ok((root, rest)),
    }
}

/// Adds this player's root, which the next line says, and gives the text that follows the line.
#[tactic(auto, unfolding(crate::specs::Reading::with_root))]
fn add_root<'a>(
    roots: &mut Vec<[u8; 32]>,
    player: PlayerId,
    text: &'a [u8],
) -> Result<&'a [u8], TextFault>
    ensures { Gives is_memory (λ rest. (roots.new.items, ended_lines_of rest.now)) result (with_root player roots.old.items (ended_lines_of text.now)) }
{
    let (root, rest) = next_root(player, text)?;
    roots.push(root)?;
    Ok(rest)
}

/// The roots of so many players, and the text that follows their lines.
fn first_roots(alloc: Global, players: u8, text: &[u8]) -> Result<(Vec<[u8; 32]>, &[u8]), TextFault>
    ensures { Gives is_memory (λ x. (x.0.items, ended_lines_of x.1.now)) result (R.first_roots players (ended_lines_of text.now)) }
{
    let mut roots = Vec::new(alloc);
    let mut rest = text;
    for player in 0..players {
        rest = add_root(&mut roots, player, rest)?;
    }
    Ok((roots, rest))
}

/// Asks for the last line, which is line `n`.
fn read_end(n: u32, text: &[u8]) -> Result<(), TextFault>
    requires { n ≤ 300 }
    ensures { Says (λ _. []) result (end_at n (ended_lines_of text.now)) }
{
    let (line, rest) = take_line(text);
    if !is_last_line(line) {
        return Err(TextFault::At(n));
    }
    if !rest.is_empty() {
        return Err(TextFault::At(n + 1));
    }
    Ok(())
}

/// The roots of so many players that a text says, or the first line at fault.
#[tactic(auto, unfolding(crate::specs::Reading::said_by))]
fn roots_of(alloc: Global, players: u8, text: &[u8]) -> Result<Roots, TextFault>
    ensures { Gives is_memory (λ r. r) result (roots_at players text.now) }
{
    let (_version, rest) = one_within_at(TextFault::At(1), b"roots", 1, 1, text)?;
    let (roots, rest) = first_roots(alloc, players, rest)?;
    read_end(line_number(players), rest)?;
    Ok(Roots::new(roots))
}

/// Reads the roots of the session's players from their text: `roots 1`, a line `root Q HEX` for
/// each player, that of player 0 first, and `end`.
///
/// `At` names the first line, counted from 1, that is not in this grammar: one of another form, a
/// player other than the next one, a player's number that isn't canonical, a root of other than 64
/// lower-case digits, a line that is missing or follows `end`. A missing line has the number that
/// it would have. `Memory` comes only where memory runs out.
pub fn read_roots(alloc: Global, text: &[u8], session: &Session) -> Result<Roots, TextFault>
    // What is read has this text and no other, and one root for each player.
    ensures found { IfOk result (λ r. IsReadFrom (players_of session.now) r text.now) }
    // Each text of such roots is read as these roots, unless memory runs out.
    ensures only { (r : List (List ℕ)) → IsReadFrom (players_of session.now) r text.now → IsRead Memory r result }
    // Which line is at fault.
    ensures exact { Faults is_memory result (roots_fault (players_of session.now) text.now) }
    // All of it once more, as the text is read line by line.
    ensures said { Gives is_memory (λ r. r) result (roots_at (players_of session.now) text.now) }
{
    let players = session.players();
    roots_of(alloc, players, text)
}
