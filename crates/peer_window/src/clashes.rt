//! What a frame shows together with the frames of its turn.

ghost use Rattle.std.specs.Prelude.{◌≡◌, Some, IsTrue};
ghost use Rattle.peer_window.specs.declared.received.Received.{Received};
ghost use Rattle.peer_window.specs.Clashes as C;

use crate::received::Received;
use definitions::{Finding, Kind, PlayerId, Spot, Turn, TurnFrame};
use grid_world::Session;
use reveal_check::same_digest;

/// The lower of an entry's number and of that of another frame, if there is one.
fn lower_entry(one: &Received, other: &Option<Received>) -> u32
    ensures { result ≡ C.lower_entry one.now other.now }
{
    match *other {
        None => one.entry,
        Some(other) => one.entry.min(other.entry),
    }
}

/// What two entries of a log alone show of a player's turn.
fn finding_by(player: PlayerId, turn: Turn, kind: Kind, first: u32, second: u32) -> Finding
    ensures { result ≡ C.finding_by player turn kind first second }
{
    Finding {
        player,
        turn,
        kind,
        first: Spot {
            log: 0,
            entry: first,
        },
        second: Spot {
            log: 0,
            entry: second,
        },
    }
}

/// Whether a reveal has the digest of the different one that is held at its place.
///
/// The reveal held opens the commitment of the turn, if that is held too: then the commitment says
/// its digest, and only the new reveal is hashed.
fn has_digest_of(
    session: &Session,
    held: &Received,
    other: &Option<Received>,
    rival: &Received,
) -> bool
    requires agree { (o : Received) → other.now ≡ Some o → IsTrue (C.same_digest session.now o held.now) }
    ensures { result ≡ C.same_digest session.now held.now rival.now }
{
    match other {
        None => same_digest(session, &held.frame, &rival.frame),
        Some(other) => same_digest(session, &other.frame, &rival.frame),
    }
}

/// What a frame shows with the different frame that is held at its place, and with the other frame of the turn.
///
/// Two commitments differ in their digests. A reveal with another digest than the reveal held doesn't open the commitment
/// either, so the lower of those two is the first.
pub(crate) fn rival_clash(
    session: &Session,
    player: PlayerId,
    held: &Received,
    other: &Option<Received>,
    rival: &Received,
) -> Finding
    requires agree { (o : Received) → other.now ≡ Some o → IsTrue (C.same_digest session.now o held.now) }
    ensures { result ≡ C.rival_clash session.now player held.now other.now rival.now }
{
    let turn = rival.frame.turn();
    let (kind, first) = match rival.frame {
        TurnFrame::Commit { .. } => (Kind::TwoCommits, held.entry),
        TurnFrame::Reveal { .. } => {
            if has_digest_of(session, held, other, rival) {
                (Kind::Collision, held.entry)
            } else {
                (Kind::BadOpening, lower_entry(held, other))
            }
        }
    };
    finding_by(player, turn, kind, first, rival.entry)
}

/// What a frame shows with the other frame of its turn: a bad opening where their digests differ.
pub(crate) fn opening_clash(
    session: &Session,
    player: PlayerId,
    other: &Option<Received>,
    frame: &Received,
) -> Option<Finding>
    ensures { result ≡ C.opening_clash session.now player other.now frame.now }
{
    match other {
        None => None,
        Some(other) => {
            if same_digest(session, &other.frame, &frame.frame) {
                None
            } else {
                let turn = frame.frame.turn();
                Some(finding_by(player, turn, Kind::BadOpening, other.entry, frame.entry))
            }
        }
    }
}

/// Whether there is a clash, and it is one of this turn.
pub(crate) fn is_of(clash: &Option<Finding>, turn: Turn) -> bool
    ensures { result ≡ C.is_of clash.now turn }
{
    match *clash {
        None => false,
        Some(clash) => clash.turn == turn,
    }
}

/// The first of two clashes, by turn; of one turn, the one that is given first.
pub(crate) fn lower_clash(one: Option<Finding>, other: Option<Finding>) -> Option<Finding>
    ensures { result ≡ C.lower_clash one other }
{
    match one {
        None => other,
        Some(first) => match other {
            None => Some(first),
            Some(second) => {
                if second.turn < first.turn {
                    Some(second)
                } else {
                    Some(first)
                }
            }
        },
    }
}

/// The clash of a reveal that opens the commitment held and isn't legal. Either may have come first.
pub(crate) fn illegal_clash(commitment: &Received, reveal: &Received) -> Finding
    ensures { result ≡ C.illegal_clash commitment.now reveal.now }
{
    let player = reveal.frame.player();
    let turn = reveal.frame.turn();
    let first = commitment.entry.min(reveal.entry);
    let second = commitment.entry.max(reveal.entry);
    finding_by(player, turn, Kind::Illegal, first, second)
}
