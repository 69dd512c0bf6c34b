//! Which own frames may be sent, and their bytes.

ghost use Rattle.std.specs.Prelude.{◌≡◌, ◌≤◌, ◌<◌, ◌^◌, length, take, None, option_map, slice_get, IfSome};
ghost use Rattle.commitment.specs.Spelling.{frame_bytes};
ghost use Rattle.definitions.specs.Logs as L;
ghost use Rattle.definitions.specs.Honest.{made_count};

use crate::peer::Peer;
use commitment::put_turn;
use definitions::Entry;

/// How many of the entries are frames that the log's owner made.
pub(crate) fn count_made(entries: &[Entry]) -> usize
    ensures { result ≡ made_count entries.now }
{
    let mut count = 0;
    for entry in entries {
        if let Entry::Made(_) = entry {
            count += 1;
        }
    }
    count
}

impl Peer {
    /// How many own frames may be sent, from place 0 on, once the first `stored` entries of the log are kept where a crash
    /// doesn't reach them: those that are among these entries. A frame that went out before its entry was kept may be made
    /// anew after a crash, of another choice, and the two together show a cheat. The time that it takes goes by the number
    /// of entries that aren't stored yet.
    #[tactic(auto, using(crate::proofs::MadeFrames::made_count_split))]
    pub fn sendable(&self, stored: usize) -> u32
        ensures count { result ≡ made_count (take stored self.now.entries) }
        ensures made { result ≤ made_count self.now.entries }
    {
        let entries = self.entries();
        if stored >= entries.len() {
            return self.made_count();
        }
        self.made_count() - count_made(entries.split_at(stored).1) as u32
    }

    /// Writes the bytes of the own frame at this place, counted from 0, to the front of `out`, as they go over a link, and says
    /// how many there are: 40, 45 or 49. The bytes of `out` behind them are left open. None comes exactly from `made_count` on,
    /// and `out` stays as it was then.
    pub fn put_made(&self, place: u32, out: &mut [u8; 64]) -> Option<usize>
        ensures bytes { option_map (λ count. take count out.new) result ≡ option_map frame_bytes (slice_get (L.made self.now.entries) place) }
        ensures count { IfSome result (λ count. count ≤ 64) }
        ensures kept { result ≡ None → out.new ≡ out.old }
    {
        match self.made(place) {
            None => None,
            Some(frame) => Some(put_turn(&frame, out)),
        }
    }
}
