//! Own moves are chosen, and own frames made.

ghost use Rattle.std.specs.Prelude.{◌≡◌, true, None};
ghost use Rattle.definitions.specs.Needs.{may_choose};
ghost use Rattle.definitions.specs.Advance.{next_made};
ghost use Rattle.own_moves.specs.Choices.{chooser};
ghost use Rattle.own_moves.specs.Making.{Chooses, MakesAll, PutsChoice, PutsMove, are_legal, illegal_of};

use definitions::{Move, MoveFault, Nonce, OwnFault, Turn};
use peer_core::Peer;
use pilots::Pilot;
use rand_core::Rng;

/// Whether the moves that a pilot gave are legal.
#[derive(Clone, Copy, Debug, PartialEq, Eq)]
pub enum Moves {
    /// Each move that was asked for is legal.
    Legal,
    /// The pilot's move of this turn, counted from 0, is not legal: this is the first fault of it.
    OwnMove(Turn, MoveFault),
}

/// Whether no move was refused, so that choosing goes on.
fn are_legal(made: &Moves) -> bool
    ensures { result ≡ are_legal made.now }
{
    matches!(made, Moves::Legal)
}

/// Why a move is not legal, where that is the fault.
fn illegal_of(fault: &OwnFault) -> Option<MoveFault>
    ensures { result ≡ illegal_of fault.now }
{
    match *fault {
        OwnFault::NotNow => None,
        OwnFault::Illegal(illegal) => Some(illegal),
    }
}

/// Puts the move that is chosen into the log, where it is legal, and says the fault of one that
/// isn't.
fn put_choice(peer: &mut Peer, mv: Move, nonce: Nonce) -> Option<MoveFault>
    requires { may_choose peer.old.game peer.old.me peer.old.entries ≡ true }
    ensures { PutsChoice mv nonce result peer.old peer.new }
{
    let put = peer.choose(mv, nonce);
    peer.facts();
    if let Err(fault) = put {
        return illegal_of(&fault);
    }
    None
}

/// Chooses the next own move: the pilot's, with the nonce that the generator gives next. Both are
/// put into the log, or where the move is not legal its first fault is told, and the log stays as
/// it was. No own frame is made.
pub fn choose_move<P: Pilot, R: Rng>(peer: &mut Peer, pilot: &mut P, chance: &mut R) -> Moves
    requires chooses { may_choose peer.old.game peer.old.me peer.old.entries ≡ true }
    ensures { PutsMove (chooser (P.plan pilot.old) (R.stream chance.old)) (chooser (P.plan pilot.new) (R.stream chance.new)) result peer.old peer.new }
{
    let choice = peer.choice();
    let mv = pilot.choose(&choice.track, choice.turn);
    let mut bytes = [0; 32];
    chance.fill_bytes(&mut bytes);
    if let Some(fault) = put_choice(peer, mv, Nonce { bytes }) {
        return Moves::OwnMove(choice.turn, fault);
    }
    Moves::Legal
}

/// Chooses the next own move, and makes the own frames that it lets be made.
fn choose_next<P: Pilot, R: Rng>(peer: &mut Peer, pilot: &mut P, chance: &mut R) -> Moves
    requires made { next_made peer.old.game peer.old.me peer.old.entries ≡ None }
    requires chooses { may_choose peer.old.game peer.old.me peer.old.entries ≡ true }
    ensures { Chooses (chooser (P.plan pilot.old) (R.stream chance.old)) (chooser (P.plan pilot.new) (R.stream chance.new)) result peer.old peer.new }
{
    let made = choose_move(peer, pilot, chance);
    if !are_legal(&made) {
        return made;
    }
    peer.advance();
    Moves::Legal
}

/// Makes each own frame that may be made, and chooses own moves as long as one may be chosen. It
/// ends early, with `OwnMove`, exactly where the pilot's move is not legal: its nonce is drawn
/// then, and neither stands in the log.
pub fn make_all<P: Pilot, R: Rng>(peer: &mut Peer, pilot: &mut P, chance: &mut R) -> Moves
    ensures { MakesAll (chooser (P.plan pilot.old) (R.stream chance.old)) (chooser (P.plan pilot.new) (R.stream chance.new)) result peer.old peer.new }
{
    peer.facts();
    peer.advance();
    while peer.may_choose() {
        let made = choose_next(peer, pilot, chance);
        if !are_legal(&made) {
            return made;
        }
        peer.facts();
    }
    Moves::Legal
}
