//! The roots of the players' keys.

ghost use Rattle.std.specs.Prelude.{◌≡◌, ◌<◌, [], length};
ghost use Rattle.definitions.specs.Lists.{item_or};

use definitions::PlayerId;
use std::marker::Model;

/// The root of each player's keys, in the order of the players. Everybody has them before a match.
#[derive(Drop)]
pub struct Roots {
    roots: Vec<[u8; 32]>,
}

impl Model for Roots {
    ghost use Rattle.std.specs.Prelude.{ℕ, List};

    ghost Value = { List (List ℕ) };

    ghost view = { λ r. r.roots.items };
}

impl Roots {
    /// These roots, that of player 0 first. It takes no memory.
    pub fn new(roots: Vec<[u8; 32]>) -> Roots
        ensures { result ≡ roots.items }
    {
        Roots { roots }
    }

    /// How many players they are of.
    pub fn players(&self) -> usize
        ensures { result ≡ length self.now }
    {
        self.roots.len()
    }

    /// The root of the keys of a player, of whom there is one. Players are counted from 0.
    pub fn root(&self, player: PlayerId) -> &[u8; 32]
        requires { player < length self.now }
        ensures { result.now ≡ item_or self.now player [] }
    {
        &self.roots[usize::from(player)]
    }

    /// The roots, that of player 0 first.
    pub fn as_slice(&self) -> &[[u8; 32]]
        ensures { result.now ≡ self.now }
    {
        &self.roots
    }
}
