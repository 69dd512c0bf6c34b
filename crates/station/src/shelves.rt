//! Files by name.

ghost use Rattle.std.specs.Prelude.{◌≡◌, ◌<◌, length};
ghost use Rattle.station.specs.Shelves.{ShelfState, GivesShown, after_piece};
ghost use Rattle.station.specs.Sources.{TakesWithin, pulled};

use crate::sources::Pull;

/// Gives pieces of files by name.
pub trait Shelf {
    /// What its calls answered so far.
    ghost state: { Self → ShelfState };

    /// Reads the bytes of that name from the place `at` on. A name that isn't there is a fault.
    fn read_at(&mut self, name: &[u8], at: u64, buf: &mut [u8]) -> Pull
        requires { 0 < length buf.old }
        ensures within { TakesWithin result buf.new }
        ensures after { state self.new ≡ after_piece (state self.old) (record { name = name.now; at = at; gave = pulled result buf.new }) }

        // Where it shows its files, they give what was answered.
        ensures gives { GivesShown (state self.old).files name.now at (pulled result buf.new) };
}
