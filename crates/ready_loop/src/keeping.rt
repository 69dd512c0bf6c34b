//! Entries are kept and synced.

ghost use Rattle.std.specs.Prelude.{◌≡◌, ◌<◌, ◌++◌, ◌∷◌, [], Some, length, slice_get};
ghost use Rattle.definitions.specs.declared.logs.Entry.{Entry};
ghost use Rattle.session_log.specs.Spelling.{FitsEntry};
ghost use Rattle.socket_station.specs.Items.{keep_item, sync_item};
ghost use Rattle.ready_loop.specs.Steps.{did_by, next_bytes, kept_next, synced_all};

use crate::fitting::fits;
use crate::ready::Loop;
use peer_rules::Phase;
use socket_station::{Did, Station};

impl Loop {
    /// Keeps the first entry that is not kept.
    pub(crate) fn keep_next<S: Station>(&mut self, station: &mut S) -> bool
        requires some { self.old.kept < length self.old.peer.entries }
        requires whole { self.old.phase ≡ Phase.KeepFault → ⊥ }
        ensures told { S.history station.new ≡ S.history station.old ++ keep_item (did_by result) (next_bytes self.old) ∷ [] }
        ensures after { self.new ≡ kept_next result self.old }
        ensures fits { (e : Entry) → slice_get self.old.peer.entries self.old.kept ≡ Some e → FitsEntry e }
    {
        let entry = self.peer.entries()[self.kept];
        fits(entry);
        let mut out = [0; 96];
        let count = self.writer.put(&entry, &mut out);
        match station.keep(&out[..count]) {
            Did::Done => {
                self.kept += 1;
                true
            }
            Did::Failed => {
                self.phase = Phase::KeepFault;
                false
            }
        }
    }

    /// Syncs what is kept.
    pub(crate) fn sync_kept<S: Station>(&mut self, station: &mut S) -> bool
        requires whole { self.old.phase ≡ Phase.KeepFault → ⊥ }
        ensures told { S.history station.new ≡ S.history station.old ++ sync_item (did_by result) ∷ [] }
        ensures after { self.new ≡ synced_all result self.old }
    {
        match station.sync() {
            Did::Done => {
                self.synced = self.kept;
                true
            }
            Did::Failed => {
                self.phase = Phase::KeepFault;
                false
            }
        }
    }
}
