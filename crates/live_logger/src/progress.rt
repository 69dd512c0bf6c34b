//! How far the logs came, for whoever shows it while a match runs.

ghost use Rattle.std.specs.Prelude.{◌≡◌, ◌<◌, false};
ghost use Rattle.std.specs.List.{list_any};
ghost use Rattle.definitions.specs.World.{players_of};
ghost use Rattle.live_logger.specs.Progress.{IsProgressOf, has_name};

use crate::watch::Watch;
use definitions::PlayerId;
use socket_lines::Line;

/// How far the log of one player came.
#[derive(Clone, Copy, Debug, PartialEq, Eq)]
pub struct Progress {
    /// Whether a socket that has the player's name is open.
    pub is_linked: bool,
    /// How many bytes of its log came.
    pub bytes: u32,
    /// How many whole entries stand in them, before the log's first fault.
    pub entries: u32,
    /// How many turns of the player are agreed by the logs of all.
    pub agreed: u32,
    /// Where its log was closed, if it was: the byte, counted from 0, where the entry begins that
    /// can't be used; 0 where the first byte is another player's; or the number of bytes of a log
    /// that has as many as a log may have.
    pub closed: Option<u32>,
}

/// Whether one of the sockets is open and has the player's name.
fn is_linked(lines: &[Line], player: PlayerId) -> bool
    ensures { result ≡ list_any (has_name player) lines.now }
{
    lines
        .iter()
        .any(|line| line.is_open && line.name == Some(player))
}

impl Watch {
    /// How far the player's log came. The numbers are kept up as bytes come: the call takes no
    /// memory, and time by the number of sockets alone.
    pub fn progress(&self, player: PlayerId) -> Progress
        requires player { player < players_of self.now.view.setting.game }
        requires whole { self.now.is_out_of_memory ≡ false }
        ensures { IsProgressOf self.now.view player result }
    {
        let books = &self.board.books;
        Progress {
            is_linked: is_linked(self.board.sockets.lines(), player),
            bytes: books.count(player),
            entries: books.entries(player),
            agreed: books.agreed(player),
            closed: books.closed(player),
        }
    }
}
