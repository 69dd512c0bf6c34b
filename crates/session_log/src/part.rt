//! The entry of a log that is begun, as its bytes come: what a good one needs of them, and a hash of the rest.

ghost use Rattle.std.specs.Prelude.{◌≡◌, ◌+◌, ◌-◌, ◌<◌, ◌≤◌, ◌^◌, ◌++◌, ℕ, List, [], IfErr, false, true, length, min, take, drop, ◌==◌};
ghost use Rattle.sha2.specs.Hashers.{Holds256};
ghost use Rattle.sha2.specs.Sha256.{sha256};
ghost use Rattle.session_log.specs.Entries as E;
ghost use Rattle.session_log.specs.Finding as F;
ghost use Rattle.session_log.specs.Spelling as S;
ghost use Rattle.session_log.specs.Fed.{IsFeedWhy};
ghost use Rattle.session_log.specs.Parts.{HoldsBegun, HoldsPart, HoldsText, lacked};

use crate::entries::told_len;
use crate::finding::{chained, digest_at, read_owned, same_digest};
use byte_fields::put_slice;
use definitions::{Entry, LogWhy, PlayerId};
use grid_world::Session;
use sha2::{Digest as _, Sha256};
use std::mem;

/// The bytes of an entry that came so far: its text, of which the first 64 bytes are kept, since no good one is longer, and
/// its digest. The hasher has what the entry is chained to, and then the text.
///
/// A fresh one has nothing of an entry that is chained to the digest. Nothing is hashed for it, so that an entry that comes whole costs
/// no more than its hash.
#[derive(Drop)]
pub(crate) struct Part {
    kept: [u8; 64],
    text_len: usize,
    digest: [u8; 32],
    digest_len: usize,
    hasher: Sha256,
    fresh: bool,
}

/// Writes as many of the bytes as have room behind the first ones kept.
fn keep(kept: &mut [u8; 64], len: usize, bytes: &[u8])
    ensures { take (len + length bytes.now) kept.new ≡ take 64 (take len kept.old ++ bytes.now) }
{
    if len < 64 {
        let count = bytes.len().min(64 - len);
        put_slice(kept, len, &bytes[..count]);
    }
}

/// The hasher with these bytes too.
fn hash_on(hasher: &mut Sha256, bytes: &[u8])
    ensures { (before : List ℕ) → Holds256 hasher.old before → Holds256 hasher.new (before ++ bytes.now) }
{
    hasher.update(bytes);
}

impl Part {
    /// Nothing of an entry that is chained to these bytes.
    pub(crate) fn new(chain: &[u8]) -> Part
        ensures part { HoldsPart result chain.now [] }
        ensures digest { result.digest_len ≡ 0 }
    {
        let mut hasher = Sha256::new();
        hash_on(&mut hasher, chain);
        Part {
            kept: [0; 64],
            text_len: 0,
            digest: [0; 32],
            digest_len: 0,
            hasher,
            fresh: false,
        }
    }

    /// Whether nothing of the entry came, and the digest is the one to which it is chained.
    pub(crate) fn is_fresh(&self) -> bool
        ensures { result ≡ self.now.fresh }
    {
        self.fresh
    }

    /// Hashes the digest to which a fresh one is chained.
    fn begin(&mut self)
        ensures part { (chain held : List ℕ) → HoldsPart self.old chain held → HoldsBegun self.new chain held }
        ensures digest_len { self.new.digest_len ≡ self.old.digest_len }
        ensures fresh { self.new.fresh ≡ false }
    {
        if self.fresh {
            self.hasher = Sha256::new();
            hash_on(&mut self.hasher, &self.digest);
            self.fresh = false;
        }
    }

    /// The entry is chained to these bytes too, behind those that were named. Nothing of it came yet.
    pub(crate) fn chain_on(&mut self, bytes: &[u8])
        ensures part { (chain : List ℕ) → HoldsPart self.old chain [] → HoldsPart self.new (chain ++ bytes.now) [] }
        ensures digest { self.new.digest_len ≡ self.old.digest_len }
    {
        self.begin();
        hash_on(&mut self.hasher, bytes);
    }

    /// Takes these bytes of the text.
    fn add_text(&mut self, bytes: &[u8])
        requires { self.old.text_len + length bytes.now < 2 ^ 64 }
        ensures text { (chain text : List ℕ) → HoldsText self.old chain text → HoldsText self.new chain (text ++ bytes.now) }
        ensures len { self.new.text_len ≡ self.old.text_len + length bytes.now }
        ensures digest { self.new.digest ≡ self.old.digest }
        ensures digest_len { self.new.digest_len ≡ self.old.digest_len }
        ensures fresh { self.new.fresh ≡ self.old.fresh }
    {
        hash_on(&mut self.hasher, bytes);
        keep(&mut self.kept, self.text_len, bytes);
        self.text_len += bytes.len();
    }

    /// Takes the text's bytes up to this place of it, as far as they came, and says how many those are.
    fn take_text(&mut self, end: usize, bytes: &[u8]) -> usize
        ensures count { result ≡ min (end - self.old.text_len) (length bytes.now) }
        ensures text { (chain text : List ℕ) → HoldsText self.old chain text → HoldsText self.new chain (text ++ take result bytes.now) }
        ensures digest { self.new.digest ≡ self.old.digest }
        ensures digest_len { self.new.digest_len ≡ self.old.digest_len }
        ensures fresh { self.new.fresh ≡ self.old.fresh }
    {
        let count = end.saturating_sub(self.text_len).min(bytes.len());
        self.add_text(&bytes[..count]);
        count
    }

    /// Takes the digest's bytes, as far as they came, and says how many those are.
    fn take_digest(&mut self, bytes: &[u8]) -> usize
        requires { self.old.digest_len ≤ 32 }
        ensures count { result ≡ min (32 - self.old.digest_len) (length bytes.now) }
        ensures text { (chain text : List ℕ) → HoldsText self.old chain text → HoldsText self.new chain text }
        ensures digest { take self.new.digest_len self.new.digest ≡ take self.old.digest_len self.old.digest ++ take result bytes.now }
        ensures digest_len { self.new.digest_len ≡ self.old.digest_len + result }
        ensures fresh { self.new.fresh ≡ self.old.fresh }
    {
        let count = bytes.len().min(32 - self.digest_len);
        put_slice(&mut self.digest, self.digest_len, &bytes[..count]);
        self.digest_len += count;
        count
    }

    /// Takes the bytes of the entry, as far as they came, and says how many those are. The first two tell how many it has.
    pub(crate) fn take(&mut self, bytes: &[u8]) -> usize
        requires { self.old.digest_len ≤ 32 }
        ensures part { (chain held : List ℕ) → HoldsPart self.old chain held → (result ≡ min (lacked held bytes.now) (length bytes.now)) × HoldsPart self.new chain (held ++ take result bytes.now) }
        ensures within { result ≤ length bytes.now }
        ensures digest { self.new.digest_len ≤ 32 }
        ensures grown { self.new.digest_len ≤ self.old.digest_len + result }
        ensures begun { self.new.fresh ≡ false }
    {
        self.begin();
        let head = self.take_text(2, bytes);
        let rest = &bytes[head..];
        let end = told_len(&self.kept) + 3;
        let text = self.take_text(end, rest);
        head + text + self.take_digest(&rest[text..])
    }

    /// Whether all bytes of the entry came.
    pub(crate) fn is_whole(&self) -> bool
        ensures { result ≡ (self.now.digest_len == 32) }
    {
        self.digest_len == 32
    }

    /// The digest that the entry should have. The hasher has nothing then.
    fn hash(&mut self) -> [u8; 32]
        ensures hash { (message : List ℕ) → Holds256 self.old.hasher message → result ≡ sha256 message }
        ensures others { self.new ≡ record self.old { hasher = self.new.hasher } }
    {
        mem::replace(&mut self.hasher, Sha256::new()).finalize()
    }

    /// The digest that chains the bytes before this place to the digest that is held. `joined` is empty, or the bytes with the 32 before
    /// them: where those are the digest, as they are behind an entry that came whole, all stands in one piece and is hashed in one.
    #[inline(always)]
    fn hash_front(&self, bytes: &[u8], joined: &[u8], end: usize) -> [u8; 32]
        requires end { end ≤ length bytes.now }
        requires joined { 32 ≤ length joined.now → drop 32 joined.now ≡ bytes.now }
        ensures { result ≡ S.chained self.now.digest (take end bytes.now) }
    {
        if joined.len() >= 32 && same_digest(&digest_at(joined, 0), &self.digest) {
            Sha256::digest(&joined[..32 + end])
        } else {
            chained(&self.digest, &bytes[..end])
        }
    }

    /// Reads the whole entry at the front of the bytes, where this is fresh, or says why it can't
    /// be used. It is read where it stands, and only its digest is kept. The next one is chained
    /// to that, and nothing of it came yet. `joined` is empty, or the bytes with the 32 before
    /// them.
    #[inline(always)]
    pub(crate) fn take_whole(
        &mut self,
        session: &Session,
        owner: PlayerId,
        bytes: &[u8],
        joined: &[u8],
        out: &mut Entry,
    ) -> Result<(), LogWhy>
        requires fresh { self.old.fresh ≡ true }
        requires joined { 32 ≤ length joined.now → drop 32 joined.now ≡ bytes.now }
        requires whole { F.is_torn bytes.now ≡ false }
        ensures why { IfErr result IsFeedWhy }
        ensures found { (chain : List ℕ) → HoldsPart self.old chain [] → F.found_as result out.new (E.told_len bytes.now + 35) (F.digest_at bytes.now) ≡ F.entry_at session.now owner chain bytes.now }
        ensures part { (chain : List ℕ) → HoldsPart self.old chain [] → HoldsPart self.new (F.digest_at bytes.now) [] }
        ensures digest { self.new.digest_len ≡ self.old.digest_len }
    {
        let end = told_len(bytes) + 3;
        let hash = self.hash_front(bytes, joined, end);
        self.digest = digest_at(bytes, end);
        if !same_digest(&self.digest, &hash) {
            return Err(LogWhy::BadChain);
        }
        if read_owned(session, owner, &bytes[..end], out) {
            Ok(())
        } else {
            Err(LogWhy::BadEntry)
        }
    }

    /// Reads the entry that came whole, or says why it can't be used. The next one is chained to
    /// its digest, and nothing of that came yet.
    pub(crate) fn close(
        &mut self,
        session: &Session,
        owner: PlayerId,
        out: &mut Entry,
    ) -> Result<(), LogWhy>
        requires whole { self.old.digest_len ≡ 32 }
        requires begun { self.old.fresh ≡ false }
        ensures why { IfErr result IsFeedWhy }
        ensures found { (chain held : List ℕ) → HoldsPart self.old chain held → F.found_as result out.new (self.old.text_len + 32) self.old.digest ≡ F.entry_at session.now owner chain held }
        ensures part { (chain held : List ℕ) → HoldsPart self.old chain held → HoldsPart self.new (F.digest_at held) [] }
        ensures digest { self.new.digest_len ≡ 0 }
    {
        let text_len = self.text_len;
        let hash = self.hash();
        self.text_len = 0;
        self.digest_len = 0;
        self.fresh = true;
        if !same_digest(&self.digest, &hash) {
            return Err(LogWhy::BadChain);
        }
        if text_len > 64 {
            return Err(LogWhy::BadEntry);
        }
        if read_owned(session, owner, &self.kept[..text_len], out) {
            Ok(())
        } else {
            Err(LogWhy::BadEntry)
        }
    }
}
