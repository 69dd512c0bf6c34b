//! Of each turn of a player, whether the logs that resolve it do so by one move.

ghost use Rattle.std.specs.Prelude.{◌≡◌, ◌<◌, length, replicate, IfOk};
ghost use Rattle.agreed_turns.specs.Accords as A;
ghost use Rattle.agreed_turns.specs.declared.accords.Accord.TheVariants as V;

use definitions::{Move, Turn};
use std::alloc::{AllocError, Global};
use std::marker::Model;

/// What the logs that resolve a turn say of it.
#[derive(Clone, Copy)]
pub(crate) enum Accord {
    /// No log resolves it.
    Open,
    /// Those that resolve it do so by this move.
    One(Move),
    /// Two logs resolve it by different moves: no entry that comes changes that.
    Unlike,
}

/// The accord with the move of one log more.
fn with_move(accord: Accord, mv: Move) -> Accord
    ensures { result ≡ A.with_move accord mv }
{
    match accord {
        Accord::Open => Accord::One(mv),
        Accord::One(first) => { if first == mv { accord } else { Accord::Unlike } }
        Accord::Unlike => accord,
    }
}

/// 1 where the turn is agreed.
fn one_in(accord: Accord) -> u32
    ensures { result ≡ A.one_in accord }
{
    match accord {
        Accord::One(_) => 1,
        Accord::Open | Accord::Unlike => 0,
    }
}

/// The accords of all turns, counted from 0, and how many of them are of one move.
#[derive(Drop)]
pub(crate) struct Accords {
    turns: Vec<Accord>,
    agreed: u32,
}

impl Model for Accords {
    ghost use Rattle.std.specs.Prelude.{List};
    ghost use Rattle.agreed_turns.specs.Accords.{AreCounted};
    ghost use Rattle.agreed_turns.specs.declared.accords.Accord.{Accord};

    ghost Value = { List Accord };

    ghost view = { λ a. a.turns.items };

    ghost invariant = { λ a. AreCounted a.turns.items a.agreed };
}

impl Accords {
    /// Of so many turns, which no log resolves yet.
    pub(crate) fn new(alloc: Global, turns: u32) -> Result<Accords, AllocError>
        ensures { IfOk result (λ a. a ≡ replicate turns V.Open) }
    {
        let mut open = Vec::with_capacity(alloc, turns as usize)?;
        for _ in 0..turns {
            open.push(Accord::Open)?;
        }
        Ok(Accords {
            turns: open,
            agreed: 0,
        })
    }

    /// How many turns are agreed.
    pub(crate) fn agreed(&self) -> u32
        ensures { result ≡ A.ones_in self.now }
    {
        self.agreed
    }

    /// One log more resolves the turn, by this move.
    pub(crate) fn note(&mut self, turn: Turn, mv: Move)
        requires { turn < length self.old }
        ensures { self.new ≡ A.note_at self.old turn mv }
    {
        let old = self.turns[turn as usize];
        let new = with_move(old, mv);
        self.turns[turn as usize] = new;
        self.agreed = self.agreed - one_in(old) + one_in(new);
    }
}
