//! How far the bytes of a log go.

ghost use Rattle.std.specs.Prelude.{◌≡◌, ℕ, List, [], ◌+◌, ◌*◌, ◌≤◌, ◌<◌, ◌^◌, ◌⊎◌, take, length};
ghost use Rattle.definitions.specs.declared.logs.Entry.{Entry};
ghost use Rattle.session_log.specs.Spelling.{log_bytes};
ghost use Rattle.session_log.specs.Writing.{after, all_after, fresh, written};
ghost use Rattle.lethwyrn_c.specs.Fronts.{GoesOn, StandsAt};

use definitions::Entry;
use peer_core::Peer;
use session_log::LogWriter;

/// The front of a log: the writer behind it, and how many entries and bytes it has.
#[derive(Drop)]
pub(crate) struct Mark {
    pub(crate) writer: LogWriter,
    pub(crate) entries: usize,
    pub(crate) bytes: u128,
    ghost few: { bytes ≤ 2 ^ 32 + 96 * entries },
}

impl Mark {
    /// The front of the log of a peer that has logged nothing.
    #[tactic(auto, using(crate::proofs::Fronts::stands_all))]
    pub(crate) fn first(peer: &Peer) -> Mark
        requires { peer.now.entries ≡ [] }
        ensures all { result.entries ≡ length peer.now.entries }
        ensures stands { StandsAt peer.now.game.id peer.now.me peer.now.entries result.entries result.writer result.bytes }
    {
        Mark {
            writer: LogWriter::new(peer.session(), peer.me()),
            entries: 0,
            bytes: 0,
        }
    }

    /// The front of the whole log of a peer: its writer and its bytes are known, so that nothing
    /// is hashed.
    #[tactic(auto, using(crate::proofs::Fronts::stands_all))]
    pub(crate) fn whole(peer: &Peer, writer: LogWriter, bytes: u32) -> Mark
        requires writer { writer ≡ all_after (fresh peer.now.game.id peer.now.me) peer.now.entries }
        requires bytes { bytes ≡ length (log_bytes peer.now.game.id peer.now.me peer.now.entries) }
        ensures all { result.entries ≡ length peer.now.entries }
        ensures stands { StandsAt peer.now.game.id peer.now.me peer.now.entries result.entries result.writer result.bytes }
    {
        Mark {
            writer,
            entries: peer.entries().len(),
            bytes: u128::from(bytes),
        }
    }

    /// The same front once more. Nothing is hashed for it.
    pub(crate) fn copy(&self) -> Mark
        ensures entries { result.entries ≡ self.now.entries }
        ensures stands { (id : List ℕ) (me : ℕ) (es : List Entry) → StandsAt id me es self.now.entries self.now.writer self.now.bytes →
            StandsAt id me es result.entries result.writer result.bytes }
    {
        let writer = self.writer.copy();
        Mark {
            writer,
            entries: self.entries,
            bytes: self.bytes,
        }
    }

    /// Goes on by this entry, which is the next one: writes its bytes and says how many they are.
    fn add(&mut self, entry: &Entry, out: &mut [u8; 96]) -> usize
        requires room { self.old.entries + 1 < 2 ^ 64 }
        ensures bytes { take result out.new ≡ written self.old.writer entry.now }
        ensures count { result ≡ length (written self.old.writer entry.now) }
        ensures writer { self.new.writer ≡ after self.old.writer entry.now }
        ensures entries { self.new.entries ≡ self.old.entries + 1 }
        ensures more { self.new.bytes ≡ self.old.bytes + result }
    {
        let count = self.writer.put(entry, out);
        self.bytes += count as u128;
        self.entries += 1;
        count
    }

    /// Goes on by the next of these entries: writes its bytes and says how many they are.
    pub(crate) fn step(&mut self, entries: &[Entry], out: &mut [u8; 96]) -> usize
        requires there { self.old.entries < length entries.now }
        ensures entries { self.new.entries ≡ self.old.entries + 1 }
        ensures goes_on { (id : List ℕ) (me : ℕ) → StandsAt id me entries.now self.old.entries self.old.writer self.old.bytes →
            GoesOn id me entries.now self.old.entries self.new.entries self.new.writer self.new.bytes (take result out.new) }
    {
        self.add(&entries[self.entries], out)
    }

    /// Stands behind the entry of this number, having stood in front of it or behind it.
    pub(crate) fn pass(&mut self, entries: &[Entry], number: usize)
        requires near { (self.old.entries ≡ number) ⊎ (self.old.entries ≡ number + 1) }
        requires there { number < length entries.now }
        ensures passed { self.new.entries ≡ number + 1 }
        ensures stands { (id : List ℕ) (me : ℕ) → StandsAt id me entries.now self.old.entries self.old.writer self.old.bytes →
            StandsAt id me entries.now self.new.entries self.new.writer self.new.bytes }
    {
        if self.entries == number {
            self.step(entries, &mut [0; 96]);
        }
    }
}
