//! The words that say by what a player plays.

ghost use Rattle.std.specs.Prelude.{◌≡◌, map, option_map};
ghost use Rattle.seat_files.specs.Words.{peering_in, peering_named, peering_said, posting_in, posting_said};

use definitions::PlayerId;
use definitions::limits::MOST_PLAYERS;
use run_frame::read_polls;
use text_fields::read_number;

/// The number of the last player that a session of any version may have.
const LAST_PLAYER: u32 = MOST_PLAYERS as u32 - 1;

/// What the words say: the files of the session, of the roster and of the moves, the player, how many polls are granted, from 1 on, the name of the
/// log that is begun, and the file of a log to go on from, if one is named.
#[derive(Clone, Copy)]
pub struct PeerWords<'a> {
    pub session: &'a [u8],
    pub roster: &'a [u8],
    pub moves: &'a [u8],
    pub player: PlayerId,
    pub polls: u32,
    pub log: &'a [u8],
    pub old: Option<&'a [u8]>,
}

/// What the words say where no older log may be named: the files of the session, of the roster and of the moves, the player, how many
/// polls are granted, from 1 on, and the name of the log that is begun.
#[derive(Clone, Copy)]
pub struct PostWords<'a> {
    pub session: &'a [u8],
    pub roster: &'a [u8],
    pub moves: &'a [u8],
    pub player: PlayerId,
    pub polls: u32,
    pub log: &'a [u8],
}

impl<'a> PostWords<'a> {
    /// The same words, by which no older log is named.
    pub fn peer_words(self) -> PeerWords<'a>
        ensures { peering_said result ≡ posting_said self.entry }
    {
        PeerWords {
            session: self.session,
            roster: self.roster,
            moves: self.moves,
            player: self.player,
            polls: self.polls,
            log: self.log,
            old: None,
        }
    }
}

/// What these words say, where two of them are a player's number and a number of polls.
fn read_named<'a>(
    session: &'a [u8],
    roster: &'a [u8],
    moves: &'a [u8],
    player: &[u8],
    polls: &[u8],
    log: &'a [u8],
    old: Option<&'a [u8]>,
) -> Option<PeerWords<'a>>
    ensures { option_map peering_said result ≡ peering_named session.now roster.now moves.now player.now polls.now log.now (option_map (λ o. o.now) old.entry) }
{
    let player = read_number(LAST_PLAYER, player)?;
    let polls = read_polls(polls)?;
    Some(PeerWords {
        session,
        roster,
        moves,
        player: player as u8,
        polls,
        log,
        old,
    })
}

/// What the words behind the command's name say, which are `SESSION ROSTER MOVES PLAYER POLLS LOG`, or these and `OLD`, if they are of this form.
pub fn read_peer_words(words: &[Vec<u8>]) -> Option<PeerWords<'_>>
    ensures { option_map peering_said result ≡ peering_in (map (λ w. w.items) words.now) }
{
    match words {
        [session, roster, moves, player, polls, log] => read_named(
            session.as_slice(),
            roster.as_slice(),
            moves.as_slice(),
            player.as_slice(),
            polls.as_slice(),
            log.as_slice(),
            None,
        ),
        [session, roster, moves, player, polls, log, old] => read_named(
            session.as_slice(),
            roster.as_slice(),
            moves.as_slice(),
            player.as_slice(),
            polls.as_slice(),
            log.as_slice(),
            Some(old.as_slice()),
        ),
        _ => None,
    }
}

/// What the words after the command's name say, which are `SESSION ROSTER MOVES PLAYER POLLS LOG`, if they are of this form.
pub fn read_post_words(words: &[Vec<u8>]) -> Option<PostWords<'_>>
    ensures { option_map posting_said result ≡ posting_in (map (λ w. w.items) words.now) }
{
    match words {
        [session, roster, moves, player, polls, log] => {
            let named = read_named(
                session.as_slice(),
                roster.as_slice(),
                moves.as_slice(),
                player.as_slice(),
                polls.as_slice(),
                log.as_slice(),
                None,
            )?;
            Some(PostWords {
                session: named.session,
                roster: named.roster,
                moves: named.moves,
                player: named.player,
                polls: named.polls,
                log: named.log,
            })
        }
        _ => None,
    }
}
