//! Numbers that a generator draws.

ghost use Rattle.std.specs.Prelude.{◌≡◌, ◌<◌};
ghost use Rattle.pilots.specs.Draws as D;

use rand_core::SeedableRng;
use rand_core::utils::NextWord;
use rand_pcg::Pcg32;

/// The generator of a number, which draws the same for the same number.
#[tactic(auto, unfolding(crate::specs::Draws::generator_of))]
pub fn generator_of(number: u64) -> Pcg32
    ensures { result ≡ D.generator_of number }
{
    Pcg32::seed_from_u64(number)
}

/// The next number below `n`: the generator's next word modulo `n`.
#[tactic(auto, unfolding(crate::specs::Draws::draw))]
pub fn draw(chance: &mut Pcg32, n: u32) -> u32
    requires { 0 < n }
    ensures value { (result, chance.new) ≡ D.draw n chance.old }
    ensures below { result < n }
{
    chance.next_word() % n
}
