//! A roster is read from its text.

ghost use Rattle.std.specs.Prelude.{◌≡◌, ◌≤◌, [], IfOk};
ghost use Rattle.definitions.specs.World.{players_of};
ghost use Rattle.text_lines.specs.Lines.{ended_lines_of};
ghost use Rattle.text_lines.specs.Reading.{line_at};
ghost use Rattle.text_lines.specs.Answers.{Faults, Gives, IsRead, Says};
ghost use Rattle.text_fields.specs.declared.fault.TextFault.TheVariants.{At, Memory};
ghost use Rattle.text_fields.specs.Faults.{is_memory};
ghost use Rattle.rosters.specs.Rosters.{Neighbours};
ghost use Rattle.rosters.specs.Text.{IsReadFrom};
ghost use Rattle.rosters.specs.Reading as R;
ghost use Rattle.rosters.specs.Reading.{end_at, link_behind, link_said, links_at, me_said, roster_at, roster_fault, with_link};

use crate::addr::Addr;
use crate::fields::{addr_then, number_then, pass_then};
use crate::roster::{Link, Roster};
use definitions::PlayerId;
use grid_world::Session;
use std::alloc::Global;
use text_fields::TextFault;
use text_lines::{is_last_line, one_within_at, take_line};

/// The address that the line of the own address says.
#[tactic(auto, unfolding(crate::specs::Reading::me_said))]
fn read_me(line: &[u8]) -> Option<Addr>
    ensures { result ≡ me_said line.now }
{
    let (addr, rest) = addr_then(b'\n', line.strip_prefix(b"me ")?)?;
    if rest.is_empty() { Some(addr) } else { None }
}

/// The link to this player that stands behind its number.
#[tactic(auto, unfolding(crate::specs::Reading::link_behind))]
fn read_behind(player: PlayerId, text: &[u8]) -> Option<Link>
    ensures { result ≡ link_behind player text.now }
{
    let (addr, rest) = addr_then(b' ', text)?;
    let (shows, rest) = pass_then(b' ', rest)?;
    let (wants, rest) = pass_then(b'\n', rest)?;
    if !rest.is_empty() {
        return None;
    }
    Some(Link {
        player,
        addr,
        shows,
        wants,
    })
}

/// The link that a line says.
#[tactic(auto, unfolding(crate::specs::Reading::link_said))]
fn read_link(line: &[u8]) -> Option<Link>
    ensures { result ≡ link_said line.now }
{
    let (player, rest) = number_then(b' ', 255, line.strip_prefix(b"peer ")?)?;
    read_behind(player as u8, rest)
}

/// The own address, which line 2 says, and the text behind the line.
pub(crate) fn me_at(text: &[u8]) -> Result<(Addr, &[u8]), TextFault>
    ensures { Says (λ x. (x.0, ended_lines_of x.1.now)) result (line_at (At 2) me_said (ended_lines_of text.now)) }
{
    let (line, rest) = take_line(text);
    match read_me(line) {
        None => Err(TextFault::At(2)),
        Some(addr) => Ok((addr, rest)),
    }
}

/// The number of the line of this player's link.
fn line_number(me: PlayerId, player: PlayerId) -> u32
    ensures { result ≡ R.line_number me player }
{
    if me < player {
        u32::from(player) + 2
    } else {
        u32::from(player) + 3
    }
}

/// The link that line `n` says, and the text behind the line.
fn next_link(n: u32, text: &[u8]) -> Result<(Link, &[u8]), TextFault>
    ensures { Says (λ x. (x.0, ended_lines_of x.1.now)) result (line_at (At n) link_said (ended_lines_of text.now)) }
{
    let (line, rest) = take_line(text);
    match read_link(line) {
        None => Err(TextFault::At(n)),
        Some(link) => Ok((link, rest)),
    }
}

/// The link to this player, which the next line says, and the text behind the line.
#[tactic(auto, unfolding(crate::specs::Reading::link_at))]
fn link_at(me: PlayerId, player: PlayerId, text: &[u8]) -> Result<(Link, &[u8]), TextFault>
    ensures { Says (λ x. (x.0, ended_lines_of x.1.now)) result (R.link_at me player (ended_lines_of text.now)) }
{
    let n = line_number(me, player);
    let (link, rest) = next_link(n, text)?;
    if link.player != player {
        return Err(TextFault::At(n));
    }
    Ok((link, rest))
}

/// Adds this player's link, unless it is me, and gives the text behind it.
#[tactic(auto, unfolding(crate::specs::Reading::with_link))]
fn put_link<'a>(
    links: &mut Vec<Link>,
    me: PlayerId,
    player: PlayerId,
    text: &'a [u8],
) -> Result<&'a [u8], TextFault>
    ensures { Gives is_memory (λ rest. (links.new.items, ended_lines_of rest.now)) result (with_link me player links.old.items (ended_lines_of text.now)) }
{
    if player == me {
        return Ok(text);
    }
    let (link, rest) = link_at(me, player, text)?;
    links.push(link)?;
    Ok(rest)
}

/// The links to the other players, rising, and the text behind their lines.
fn links_of<'a>(
    alloc: Global,
    me: PlayerId,
    players: u8,
    text: &'a [u8],
) -> Result<(Vec<Link>, &'a [u8]), TextFault>
    ensures { Gives is_memory (λ x. (x.0.items, ended_lines_of x.1.now)) result (links_at me players (ended_lines_of text.now)) }
{
    let mut links = Vec::new(alloc);
    let mut rest = text;
    for player in 0..players {
        rest = put_link(&mut links, me, player, rest)?;
    }
    Ok((links, rest))
}

/// Asks for the last line, which is line `n`.
pub(crate) fn read_end(n: u32, text: &[u8]) -> Result<(), TextFault>
    requires { n ≤ 300 }
    ensures { Says (λ _. []) result (end_at n (ended_lines_of text.now)) }
{
    let (line, rest) = take_line(text);
    if !is_last_line(line) {
        return Err(TextFault::At(n));
    }
    if !rest.is_empty() {
        return Err(TextFault::At(n + 1));
    }
    Ok(())
}

/// The roster of a text, or the first line at fault.
#[tactic(auto, unfolding(crate::specs::Reading::said_by))]
fn roster_of(alloc: Global, text: &[u8], players: u8, me: PlayerId) -> Result<Roster, TextFault>
    ensures { Gives is_memory (λ r. r) result (roster_at me players text.now) }
{
    let (_version, rest) = one_within_at(TextFault::At(1), b"roster", 1, 1, text)?;
    let (own, rest) = me_at(rest)?;
    let (links, rest) = links_of(alloc, me, players, rest)?;
    read_end(line_number(me, players), rest)?;
    Ok(Roster::new(own, links))
}

/// Reads the roster of the session's player `me` from its text: `roster 1`, the own address, a line for each other player, rising, and
/// `end`. Of a number that is no player's all players are others.
///
/// `At` names the first line that is not in this grammar: one of another form, a number of an address above 255, a port that is 0 or
/// above 65535, a pass of other than 32 lower-case digits, a link to another player than the next one, a line that is missing or stands
/// behind `end`. `Memory` comes only where memory runs out.
pub fn read_roster(
    alloc: Global,
    text: &[u8],
    session: &Session,
    me: PlayerId,
) -> Result<Roster, TextFault>
    // What is read has this text and no other, and a link to each other player, rising.
    ensures found { IfOk result (λ r. IsReadFrom me (players_of session.now) r text.now) }
    // Each text of such a roster is read as that roster, unless memory runs out.
    ensures only { (r : Neighbours) → IsReadFrom me (players_of session.now) r text.now → IsRead Memory r result }
    // Which line is at fault.
    ensures exact { Faults is_memory result (roster_fault me (players_of session.now) text.now) }
    // All of it once more, as the text is read line by line.
    ensures said { Gives is_memory (λ r. r) result (roster_at me (players_of session.now) text.now) }
{
    let players = session.players();
    roster_of(alloc, text, players, me)
}
