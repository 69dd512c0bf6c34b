//! Lines of sockets in a list, whoever keeps it: what one call makes of all of them.

ghost use Rattle.std.specs.Prelude.{◌≡◌, ◌≤◌, ◌<◌, ◌∷◌, [], ◌++◌, ◌==◌, if◌then◌else◌, filter, map, vec_capacity, vec_len};
ghost use Rattle.socket_lines.specs.Lines.{woken};
ghost use Rattle.loop_rules.specs.Tables.{in_lines};
ghost use Rattle.loop_rules.specs.Hearing.{ousted};

use definitions::PlayerId;
use socket_lines::Line;
use socket_station::SocketId;

/// Adds the line at the end, for which there is room.
pub fn add(list: &mut Vec<Line>, line: Line)
    requires { vec_len list.old < vec_capacity list.old }
    ensures items { list.new.items ≡ list.old.items ++ line ∷ [] }
    ensures capacity { vec_capacity list.old ≤ vec_capacity list.new }
{
    list.push(line).unwrap();
}

/// A socket that was listed may be read and written again.
fn wake(line: &mut Line, socket: SocketId)
    ensures { line.new ≡ (if line.old.socket == socket then woken line.old else line.old) }
{
    if line.socket == socket {
        line.wake();
    }
}

/// The same of all lines.
pub fn wake_all(lines: &mut [Line], socket: SocketId)
    ensures { lines.new ≡ in_lines socket woken lines.old }
{
    for line in lines.iter_mut() {
        wake(line, socket);
    }
}

/// Closed sockets go.
pub fn drop_closed(lines: &mut Vec<Line>)
    ensures items { lines.new.items ≡ filter (λ l. l.is_open) lines.old.items }
    ensures capacity { vec_capacity lines.new ≡ vec_capacity lines.old }
{
    let mut at = 0;
    while at < lines.len() {
        if lines[at].is_open {
            at += 1;
        } else {
            lines.remove(at);
        }
    }
}

/// The socket is to be shut, if it has the player's name.
fn oust(line: &mut Line, player: PlayerId)
    ensures { line.new ≡ ousted player line.old }
{
    if line.is_named(player) {
        line.doom();
    }
}

/// Those that have the player's name are to be shut.
pub fn oust_all(lines: &mut [Line], player: PlayerId)
    ensures { lines.new ≡ map (ousted player) lines.old }
{
    for line in lines.iter_mut() {
        oust(line, player);
    }
}
