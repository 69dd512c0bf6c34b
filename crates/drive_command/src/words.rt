//! The words of the command.

ghost use Rattle.std.specs.Prelude.{◌≡◌, map, option_map};
ghost use Rattle.drive_command.specs.Words.{driving_in, driving_named, driving_said};

use definitions::PlayerId;
use definitions::limits::MOST_PLAYERS;
use text_fields::read_number;

/// The number of the last player that a session of any version may have.
const LAST_PLAYER: u32 = MOST_PLAYERS as u32 - 1;

/// What the words say: the session's file, the player, and the file of a log to go on from, if one is named.
#[derive(Clone, Copy)]
pub struct DriveWords<'a> {
    pub session: &'a [u8],
    pub player: PlayerId,
    pub old: Option<&'a [u8]>,
}

/// What these words say, where the second is a player's number.
fn read_named<'a>(session: &'a [u8], player: &[u8], old: Option<&'a [u8]>) -> Option<DriveWords<'a>>
    ensures { option_map driving_said result ≡ driving_named session.now player.now (option_map (λ o. o.now) old.entry) }
{
    let player = read_number(LAST_PLAYER, player)?;
    Some(DriveWords {
        session,
        player: player as u8,
        old,
    })
}

/// What the words behind the command's name say, which are `SESSION PLAYER` or `SESSION PLAYER OLD`, if they are of this form.
pub fn read_drive_words(words: &[Vec<u8>]) -> Option<DriveWords<'_>>
    ensures { option_map driving_said result ≡ driving_in (map (λ w. w.items) words.now) }
{
    match words {
        [session, player] => read_named(session.as_slice(), player.as_slice(), None),
        [session, player, old] => read_named(
            session.as_slice(),
            player.as_slice(),
            Some(old.as_slice()),
        ),
        _ => None,
    }
}
