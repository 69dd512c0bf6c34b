//! The words of the commands.

ghost use Rattle.std.specs.Prelude.{◌≡◌, map, option_map};
ghost use Rattle.key_commands.specs.Words.{keying_in, keying_named, keying_said, sealing_in, sealing_said};

use definitions::PlayerId;
use definitions::limits::MOST_PLAYERS;
use text_fields::read_number;

/// The number of the last player that a session of any version may have.
const LAST_PLAYER: u32 = MOST_PLAYERS as u32 - 1;

/// Whose keys they are: the session's file, the player, and the file of the seed.
#[derive(Clone, Copy)]
pub struct KeyWords<'a> {
    pub session: &'a [u8],
    pub player: PlayerId,
    pub seed: &'a [u8],
}

/// What is to be sealed, and by whose keys: the log's file with the others.
#[derive(Clone, Copy)]
pub struct SealWords<'a> {
    pub keys: KeyWords<'a>,
    pub log: &'a [u8],
}

/// What these words say, where the second is a player's number.
fn read_named<'a>(session: &'a [u8], player: &[u8], seed: &'a [u8]) -> Option<KeyWords<'a>>
    ensures { option_map keying_said result ≡ keying_named session.now player.now seed.now }
{
    let player = read_number(LAST_PLAYER, player)?;
    Some(KeyWords {
        session,
        player: player as u8,
        seed,
    })
}

/// What the words of `root` say, which are `SESSION PLAYER SEED`, if they are of this form.
pub fn read_root_words(words: &[Vec<u8>]) -> Option<KeyWords<'_>>
    ensures { option_map keying_said result ≡ keying_in (map (λ w. w.items) words.now) }
{
    match words {
        [session, player, seed] => {
            read_named(session.as_slice(), player.as_slice(), seed.as_slice())
        }
        _ => None,
    }
}

/// What the words of `seal` say, which are `SESSION PLAYER SEED LOG`, if they are of this form.
pub fn read_seal_words(words: &[Vec<u8>]) -> Option<SealWords<'_>>
    ensures { option_map sealing_said result ≡ sealing_in (map (λ w. w.items) words.now) }
{
    match words {
        [session, player, seed, log] => {
            let keys = read_named(session.as_slice(), player.as_slice(), seed.as_slice())?;
            Some(SealWords {
                keys,
                log: log.as_slice(),
            })
        }
        _ => None,
    }
}
