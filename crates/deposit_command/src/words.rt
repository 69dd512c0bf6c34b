//! The words of the command.

ghost use Rattle.std.specs.Prelude.{◌≡◌, map, option_map};
ghost use Rattle.deposit_command.specs.Words.{depositing_in, depositing_said};

use definitions::PlayerId;
use definitions::limits::MOST_PLAYERS;
use run_frame::read_polls;
use text_fields::read_number;

/// The number of the last player that a session of any version may have.
const LAST_PLAYER: u32 = MOST_PLAYERS as u32 - 1;

/// What the words say: the files of the session and of the roster, the player, how many polls are
/// granted, from 1 on, and the file of the log.
#[derive(Clone, Copy)]
pub struct DepositWords<'a> {
    pub session: &'a [u8],
    pub roster: &'a [u8],
    pub player: PlayerId,
    pub polls: u32,
    pub log: &'a [u8],
}

/// What the words after the command's name say, which are `SESSION ROSTER PLAYER POLLS LOG`, if they
/// are of this form.
pub fn read_deposit_words(words: &[Vec<u8>]) -> Option<DepositWords<'_>>
    ensures { option_map depositing_said result ≡ depositing_in (map (λ w. w.items) words.now) }
{
    match words {
        [session, roster, player, polls, log] => {
            let player = read_number(LAST_PLAYER, player.as_slice())?;
            let polls = read_polls(polls.as_slice())?;
            Some(DepositWords {
                session: session.as_slice(),
                roster: roster.as_slice(),
                player: player as u8,
                polls,
                log: log.as_slice(),
            })
        }
        _ => None,
    }
}
