//! Entries are kept and synced.

ghost use Rattle.std.specs.Prelude.{◌≡◌, ◌<◌, ◌≤◌, nat_lt, ◌++◌, ◌∷◌, [], Some, None, length, slice_get};
ghost use Rattle.definitions.specs.declared.logs.Entry.{Entry};
ghost use Rattle.definitions.specs.Advance.{next_made};
ghost use Rattle.session_log.specs.Spelling.{FitsEntry};
ghost use Rattle.datagram_post.specs.Items.{did_by, keep_item, sync_item};
ghost use Rattle.datagram_loop.specs.States.{next_bytes, kept_next, synced_all};
ghost use Rattle.datagram_loop.specs.Keeping.{KeepsNew, KeepsAll};

use crate::fitting::fits;
use crate::looping::PostLoop;
use datagram_post::Post;
use peer_rules::Phase;
use socket_station::Did;

impl PostLoop {
    /// Keeps the first entry that is not kept, and says whether that was done.
    fn keep_next<D: Post>(&mut self, post: &mut D) -> bool
        requires some { self.old.kept < length self.old.peer.entries }
        requires whole { self.old.phase ≡ Phase.KeepFault → ⊥ }
        ensures told { D.history post.new ≡ D.history post.old ++ keep_item (did_by result) (next_bytes self.old) ∷ [] }
        ensures after { self.new ≡ kept_next result self.old }
        ensures fits { (e : Entry) → slice_get self.old.peer.entries self.old.kept ≡ Some e → FitsEntry e }
    {
        let entry = self.peer.entries()[self.kept];
        fits(entry);
        let mut out = [0; 96];
        let count = self.writer.put(&entry, &mut out);
        match post.keep(&out[..count]) {
            Did::Done => {
                self.kept += 1;
                true
            }
            Did::Failed => {
                self.phase = Phase::KeepFault;
                false
            }
        }
    }

    /// Syncs what is kept, and says whether that was done.
    fn sync_kept<D: Post>(&mut self, post: &mut D) -> bool
        requires whole { self.old.phase ≡ Phase.KeepFault → ⊥ }
        ensures told { D.history post.new ≡ D.history post.old ++ sync_item (did_by result) ∷ [] }
        ensures after { self.new ≡ synced_all result self.old }
    {
        match post.sync() {
            Did::Done => {
                self.synced = self.kept;
                true
            }
            Did::Failed => {
                self.phase = Phase::KeepFault;
                false
            }
        }
    }

    /// Whether something is kept and not synced.
    fn has_unsynced(&self) -> bool
        ensures exact { result ≡ nat_lt self.now.synced self.now.kept }
        ensures few { self.now.synced ≤ self.now.kept }
    {
        self.synced < self.kept
    }

    /// Whether some entry is not kept.
    fn has_unkept(&self) -> bool
        ensures exact { result ≡ nat_lt self.now.kept (length self.now.peer.entries) }
        ensures few { self.now.kept ≤ length self.now.peer.entries }
    {
        self.kept < self.peer.entries().len()
    }

    /// Keeps the entries that are not kept, and says whether all are.
    fn keep_all<D: Post>(&mut self, post: &mut D) -> bool
        requires running { self.old.phase ≡ Phase.Running }
        ensures { KeepsAll result (D.history post.old) (D.history post.new) self.old self.new }
    {
        while self.has_unkept() {
            if !self.keep_next(post) {
                return false;
            }
        }
        true
    }

    /// Keeps the new entries, syncs them where there are any, and says whether that was done.
    pub(crate) fn keep_new<D: Post>(&mut self, post: &mut D) -> bool
        requires running { self.old.phase ≡ Phase.Running }
        requires made { next_made self.old.peer.game self.old.peer.me self.old.peer.entries ≡ None }
        ensures { KeepsNew result (D.history post.old) (D.history post.new) self.old self.new }
    {
        if !self.keep_all(post) {
            return false;
        }
        if !self.has_unsynced() {
            return true;
        }
        self.sync_kept(post)
    }
}
