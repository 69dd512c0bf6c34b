//! A log is written.

ghost use Rattle.std.specs.Prelude.{◌≡◌, ◌+◌, ◌≤◌, ◌++◌, ◌∷◌, length, take};
ghost use Rattle.session_log.specs.Spelling as S;
ghost use Rattle.session_log.specs.Spelling.{entry_text, entry_bytes};

use crate::entries::{put_behind, put_text};
use crate::finding::{chained, first_chain};
use definitions::{Entry, PlayerId};
use grid_world::Session;
use std::marker::Model;

/// An entry that was written: the place behind its bytes, and its digest.
#[derive(Clone, Copy)]
struct Put {
    end: usize,
    digest: [u8; 32],
}

/// Writes an entry's bytes behind those before this place.
fn put_entry(chain: &[u8], entry: &Entry, out: &mut [u8; 96], at: usize) -> Put
    requires { at ≤ 1 }
    ensures bytes { take result.end out.new ≡ take at out.old ++ entry_bytes chain.now entry.now }
    ensures count { result.end ≡ at + length (entry_bytes chain.now entry.now) }
    ensures digest { result.digest ≡ S.chained chain.now (entry_text entry.now) }
{
    let end = put_text(entry, out, at);
    let digest = chained(chain, &out[at..end]);
    Put {
        end: put_behind(out, end, &digest),
        digest,
    }
}

/// Writes the owner's byte and the first entry's bytes to the front of `out`.
fn put_first(id: &[u8; 32], owner: PlayerId, entry: &Entry, out: &mut [u8; 96]) -> Put
    ensures bytes { take result.end out.new ≡ owner ∷ entry_bytes (S.first_chain id.now owner) entry.now }
    ensures count { result.end ≡ 1 + length (entry_bytes (S.first_chain id.now owner) entry.now) }
    ensures digest { result.digest ≡ S.chained (S.first_chain id.now owner) (entry_text entry.now) }
{
    out[0] = owner;
    put_entry(&first_chain(id, owner), entry, out, 1)
}

/// A writer of a player's log of a session.
#[derive(Drop)]
pub struct LogWriter {
    owner: PlayerId,
    begun: bool,
    // the digest of the last entry, or the session's id
    chain: [u8; 32],
}

impl Model for LogWriter {
    ghost use Rattle.session_log.specs.Writing.{Writing};

    ghost Value = { Writing };

    ghost view = { λ w. record { owner = w.owner; begun = w.begun; chain = w.chain } };
}

impl LogWriter {
    ghost use Rattle.std.specs.Prelude.{◌≡◌, length, take};
    ghost use Rattle.session_log.specs.Writing.{fresh, written, after};

    /// A writer of the player's log, which has no entries yet.
    pub fn new(session: &Session, owner: PlayerId) -> LogWriter
        ensures { result ≡ fresh session.now.id owner }
    {
        LogWriter {
            owner,
            begun: false,
            chain: *session.id(),
        }
    }

    /// A writer of the player's log, behind the entry with this digest, where it has begun. Else
    /// it is given the session's id.
    pub(crate) fn behind(owner: PlayerId, begun: bool, chain: &[u8; 32]) -> LogWriter
        ensures { result ≡ record { owner = owner; begun = begun; chain = chain.now } }
    {
        LogWriter {
            owner,
            begun,
            chain: *chain,
        }
    }

    /// A second writer behind the same entries. Nothing is hashed for it.
    pub fn copy(&self) -> LogWriter
        ensures { result ≡ self.now }
    {
        LogWriter::behind(self.owner, self.begun, &self.chain)
    }

    /// Writes the next entry of the log to the front of `out`, in front of the first one the owner's byte, and says how
    /// many bytes there are. The bytes of `out` behind them are left open.
    pub fn put(&mut self, entry: &Entry, out: &mut [u8; 96]) -> usize
        ensures bytes { take result out.new ≡ written self.old entry.now }
        ensures count { result ≡ length (written self.old entry.now) }
        ensures writer { self.new ≡ after self.old entry.now }
    {
        if self.begun {
            let put = put_entry(&self.chain, entry, out, 0);
            let digest = put.digest;
            self.chain = digest;
            put.end
        } else {
            let put = put_first(&self.chain, self.owner, entry, out);
            let digest = put.digest;
            self.begun = true;
            self.chain = digest;
            put.end
        }
    }
}
