//! Which turns are agreed.

ghost use Rattle.std.specs.Prelude.{◌≡◌, ◌<◌, false};
ghost use Rattle.definitions.specs.World.{players_of};
ghost use Rattle.auditor.specs.Agreed.{agreed_count};
ghost use Rattle.log_books.specs.Books.{is_agreed};
ghost use Rattle.log_streams.specs.Streams.{lists_of, owners_of};

use crate::books::Books;
use definitions::PlayerId;

impl Books {
    /// How many turns of the player are agreed: some log resolves the turn, and all logs that do
    /// give one move. The number is kept up as bytes come, and the call takes no memory.
    pub fn agreed(&self, player: PlayerId) -> u32
        requires player { player < players_of self.now.game }
        requires whole { self.now.is_out_of_memory ≡ false }
        ensures { result ≡ agreed_count self.now.game (owners_of self.now.game self.now.streams) (lists_of self.now.game self.now.streams) player }
    {
        self.agreed.agreed(player)
    }

    /// Whether every turn of every player is agreed.
    pub fn is_agreed(&self) -> bool
        requires { self.now.is_out_of_memory ≡ false }
        ensures { result ≡ is_agreed self.now.game self.now.streams }
    {
        self.agreed.is_whole()
    }
}
