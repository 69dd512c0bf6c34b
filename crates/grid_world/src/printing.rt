//! The text of a session.

ghost use Rattle.std.specs.Prelude.{◌≡◌, ◌++◌, map, IfOk, OnOk};
ghost use Rattle.text_lines.specs.Lines.{joined, line_of};
ghost use Rattle.grid_world.specs.Sessions.{rules_of};
ghost use Rattle.grid_world.specs.Text.{ahead_lines, head_lines, player_line, player_lines, wall_line, session_text};

use crate::grid::Grid;
use crate::rules::Rules;
use crate::session::Session;
use definitions::{PlayerId, Seat};
use std::alloc::{AllocError, Global};
use text_lines::put_line;

/// Writes the line that says how many turns ahead players commit, which no text of version 1 has.
fn put_ahead(alloc: Global, out: &mut Vec<u8>, session: &Session) -> Result<(), AllocError>
    ensures { OnOk result (out.new.items ≡ out.old.items ++ joined (ahead_lines session.now)) }
{
    if session.version() == 1 {
        return Ok(());
    }
    put_line(alloc, out, b"ahead", &[session.ahead()])
}

/// Writes the lines before those of the players.
fn put_head(alloc: Global, out: &mut Vec<u8>, session: &Session) -> Result<(), AllocError>
    ensures { OnOk result (out.new.items ≡ out.old.items ++ joined (head_lines session.now)) }
{
    let grid = session.grid();
    let rules = session.rules();
    put_line(alloc, out, b"playout", &[u32::from(session.version())])?;
    let sides = [u32::from(grid.width()), u32::from(grid.height())];
    put_line(alloc, out, b"grid", &sides)?;
    let steps = [
        u32::from(rules.speed),
        u32::from(rules.reach),
        u32::from(rules.blast),
    ];
    put_line(alloc, out, b"rules", &steps)?;
    let charges = [
        u32::from(rules.start_charge),
        u32::from(rules.cap),
        u32::from(rules.cost),
    ];
    put_line(alloc, out, b"charge", &charges)?;
    put_line(alloc, out, b"turns", &[session.turns()])?;
    put_ahead(alloc, out, session)?;
    put_line(alloc, out, b"players", &[u32::from(session.players())])?;
    Ok(())
}

/// Writes the player's line, which has the player's speed and reach where they aren't those of the rules.
fn put_player(
    alloc: Global,
    out: &mut Vec<u8>,
    rules: Rules,
    player: PlayerId,
    seat: Seat,
) -> Result<(), AllocError>
    ensures { OnOk result (out.new.items ≡ out.old.items ++ player_line (rules_of rules) seat player) }
{
    let q = u32::from(player);
    let x = u32::from(seat.start.x);
    let y = u32::from(seat.start.y);
    if seat.speed == rules.speed && seat.reach == rules.reach {
        return put_line(alloc, out, b"player", &[q, x, y]);
    }
    let speed = u32::from(seat.speed);
    let reach = u32::from(seat.reach);
    put_line(alloc, out, b"player", &[q, x, y, speed, reach])
}

/// Writes the players' lines.
fn put_players(alloc: Global, out: &mut Vec<u8>, session: &Session) -> Result<(), AllocError>
    ensures { OnOk result (out.new.items ≡ out.old.items ++ joined (player_lines session.now.rules session.now.seats 0)) }
{
    let rules = session.rules();
    for player in 0..session.players() {
        put_player(alloc, out, rules, player, session.seat(player))?;
    }
    Ok(())
}

/// Writes the walls' lines.
fn put_walls(alloc: Global, out: &mut Vec<u8>, grid: &Grid) -> Result<(), AllocError>
    ensures { OnOk result (out.new.items ≡ out.old.items ++ joined (map wall_line grid.now.walls)) }
{
    for wall in grid.walls() {
        put_line(alloc, out, b"wall", &[u32::from(wall.x), u32::from(wall.y)])?;
    }
    Ok(())
}

/// The one text that reads as the session. A player's line has its speed and reach exactly where they aren't those of the
/// rules.
pub fn print_session(alloc: Global, session: &Session) -> Result<Vec<u8>, AllocError>
    ensures { IfOk result (λ text. text.items ≡ session_text session.now) }
{
    let mut out = Vec::new(alloc);
    put_head(alloc, &mut out, session)?;
    put_players(alloc, &mut out, session)?;
    put_walls(alloc, &mut out, session.grid())?;
    put_line(alloc, &mut out, b"end", &[])?;
    Ok(out)
}
