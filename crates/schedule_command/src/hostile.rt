//! The line that names the hostile players.

ghost use Rattle.std.specs.Prelude.{◌≡◌, ◌<◌, ◌∷◌, [], List, ℕ, option_map};
ghost use Rattle.std.specs.List.{range_with_len};
ghost use Rattle.definitions.specs.World.{players_of};
ghost use Rattle.schedule_command.specs.Hostile as H;

use definitions::PlayerId;
use grid_world::Session;
use itoa::Buffer;

/// What stands behind a space and the player's number, where the text begins so and the number ends there.
#[tactic(auto, unfolding(crate::specs::Hostile::behind_player))]
fn behind_player(player: PlayerId, text: &[u8]) -> Option<&[u8]>
    ensures { option_map (λ t. t.now) result ≡ H.behind_player player text.now }
{
    let text = text.strip_prefix(b" ")?;
    let rest = text.strip_prefix(Buffer::new().format(player).as_bytes())?;
    if rest.is_empty() || rest[0] == b' ' {
        Some(rest)
    } else {
        None
    }
}

/// The set with the player in it.
fn with_player(hostile: u64, player: PlayerId) -> u64
    requires { player < 64 }
    ensures { result ≡ H.with_player hostile player }
{
    hostile | 1 << player
}

/// The set and the text behind a player, who is in the set where the text begins with a space and its number.
fn pass_player(player: PlayerId, hostile: u64, text: &[u8]) -> (u64, &[u8])
    requires { player < 64 }
    ensures { (qs : List ℕ) → H.named_among (player ∷ qs) hostile text.now ≡ H.named_among qs result.0 result.1.now }
{
    match behind_player(player, text) {
        Some(rest) => (with_player(hostile, player), rest),
        None => (hostile, text),
    }
}

/// The set, where nothing is left of the text.
#[tactic(auto, unfolding(crate::specs::Hostile::named_among))]
fn whole_set(hostile: u64, text: &[u8]) -> Option<u64>
    ensures { result ≡ H.named_among [] hostile text.now }
{
    if text.is_empty() { Some(hostile) } else { None }
}

/// The players that the text names.
fn read_named(text: &[u8], session: &Session) -> Option<u64>
    ensures { result ≡ H.named_among (range_with_len 0 (players_of session.now)) 0 text.now }
{
    session.facts();
    let mut rest = text;
    let mut hostile = 0;
    'players: for player in 0..session.players() {
        let passed = pass_player(player, hostile, rest);
        hostile = passed.0;
        rest = passed.1;
    }
    whole_set(hostile, rest)
}

/// The hostile players that the line names, by a bit for each: it is `hostile` and then their numbers, each after a space, rising. None
/// comes exactly where the line is no such line.
#[tactic(auto, unfolding(crate::specs::Hostile::hostile_of))]
pub fn read_hostile(line: &[u8], session: &Session) -> Option<u64>
    ensures { result ≡ H.hostile_of session.now line.now }
{
    read_named(line.strip_prefix(b"hostile")?, session)
}
