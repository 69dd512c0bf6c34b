//! Numbers that look drawn, and the matches that they make: who plays on which ground, and who is
//! hostile and how.

ghost use Rattle.std.specs.Prelude.{◌<◌};

use crate::plain::grounds::Ground;
use crate::plain::texts::put_line;
use crate::plain::worlds::{Trouble, World};
use grid_world::read_session;
use rand_core::utils::NextWord;
use rand_pcg::Pcg32;
use std::alloc::{AllocError, Global};

/// Numbers that look drawn, by a seed.
#[derive(Drop)]
pub struct Dice {
    rng: Pcg32,
}

impl Dice {
    /// The numbers of this seed.
    pub fn new(seed: u64) -> Dice {
        Dice {
            rng: Pcg32::new(seed, 1),
        }
    }

    /// A number below this one.
    pub fn below(&mut self, sides: u32) -> u32
        requires { 0 < sides }
        ensures { result < sides }
    {
        self.rng.next_word() % sides
    }

    /// True once in so many times.
    pub fn once_in(&mut self, sides: u32) -> bool
        requires { 0 < sides }
    {
        self.below(sides) == 0
    }

    /// A small number below this one.
    pub fn small(&mut self, sides: u8) -> u8
        requires { 0 < sides }
        ensures { result < sides }
    {
        self.below(u32::from(sides)) as u8
    }

    /// A column or row near this one, up to so many away.
    pub fn near(&mut self, at: u16, away: u8) -> u16 {
        let range = u32::from(away) * 2 + 1;
        let moved = self.below(range) as u16;
        at.wrapping_add(moved).wrapping_sub(u16::from(away))
    }
}

/// The side of the ground on which drawn matches are played.
const SIDE: u32 = 20;

/// Adds the lines of the players.
fn put_players(text: &mut String, dice: &mut Dice, players: u8) -> Result<(), AllocError> {
    put_line(text, "players", &[u32::from(players)])?;
    for player in 0..players {
        let x = dice.below(SIDE);
        let y = dice.below(SIDE);
        put_line(text, "player", &[u32::from(player), x, y])?;
    }
    text.push_str("end\n")
}

/// The numbers of a session that are drawn.
#[derive(Drop)]
struct Drawn {
    rules: [u32; 3],
    turns: u32,
    ahead: u32,
    /// Whether it is of version 1, where players commit one turn ahead.
    is_old: bool,
}

/// Draws them.
fn drawn_of(dice: &mut Dice) -> Drawn {
    let speed = 1 + dice.below(2);
    let reach = dice.below(3);
    let blast = dice.below(2);
    let turns = 10 + dice.below(21);
    let ahead = 1 + dice.below(3);
    let is_old = ahead == 1 && dice.once_in(2);
    Drawn {
        rules: [speed, reach, blast],
        turns,
        ahead,
        is_old,
    }
}

/// Adds the lines before those of the players.
fn put_head(text: &mut String, drawn: &Drawn) -> Result<(), AllocError> {
    let version = if drawn.is_old { 1 } else { 2 };
    put_line(text, "playout", &[version])?;
    put_line(text, "grid", &[SIDE, SIDE])?;
    put_line(text, "rules", &drawn.rules)?;
    put_line(text, "charge", &[1, 3, 2])?;
    put_line(text, "turns", &[drawn.turns])?;
    if drawn.is_old {
        return Ok(());
    }
    put_line(text, "ahead", &[drawn.ahead])
}

/// The text of a session of four to eight players.
fn session_text(alloc: Global, dice: &mut Dice) -> Result<String, AllocError> {
    let players = 4 + dice.small(5);
    let drawn = drawn_of(dice);
    let mut text = String::new(alloc);
    put_head(&mut text, &drawn)?;
    put_players(&mut text, dice, players)?;
    Ok(text)
}

/// A drawn match, and the text of its session; a bit says of each hostile player whether it sends
/// nothing.
#[derive(Drop)]
pub struct Match {
    pub world: World,
    pub text: String,
    pub silent: u64,
}

/// Some of the players, each once in so many times, but neither of the first two.
fn some_players(dice: &mut Dice, players: u8, sides: u32) -> u64
    requires { 0 < sides }
{
    let mut some = 0u64;
    for player in 2..players {
        if player < 64 && dice.once_in(sides) {
            some |= 1 << player;
        }
    }
    some
}

/// Player 2, who is there in every match.
const THIRD: u64 = 4;

/// The match of these numbers. By the seed, nobody is hostile, or the hostile players send
/// nothing, or one at least sends what it likes.
pub fn match_of(alloc: Global, dice: &mut Dice, seed: u64) -> Result<Match, Trouble> {
    let text = session_text(alloc, dice)?;
    let session = read_session(alloc, text.as_str().as_bytes())?;
    let ground = Ground::new(alloc, &session)?;
    let some = some_players(dice, ground.players, 3) | THIRD;
    let fewer = some_players(dice, ground.players, 4);
    let (hostile, silent) = match seed % 3 {
        0 => (0, 0),
        1 => (some, some),
        _ => (some, some & fewer & !THIRD),
    };
    let offers = Vec::new(alloc);
    let world = World {
        session,
        ground,
        hostile,
        wishes: &[],
        offers,
    };
    Ok(Match {
        world,
        text,
        silent,
    })
}
