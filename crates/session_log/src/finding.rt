//! What stands where an entry of a log begins.

ghost use Rattle.std.specs.Prelude.{◌≡◌, ◌+◌, ◌≤◌, ℕ, List, false, length, take, drop, bytes_eq};
ghost use Rattle.definitions.specs.Entries as D;
ghost use Rattle.definitions.specs.Logs.{player_of, turn_of};
ghost use Rattle.session_log.specs.Spelling as S;
ghost use Rattle.session_log.specs.Entries as E;
ghost use Rattle.session_log.specs.Finding as F;

use crate::entries::{NO_ENTRY, read_into, told_len};
use byte_fields::take_array;
use definitions::{Entry, LogWhy, PlayerId, Turn, TurnFrame};
use grid_world::Session;
use sha2::{Digest as _, Sha256};

/// What stands where an entry begins: less than an entry, one that can't be used, or an entry with
/// the number of its bytes and its digest.
#[derive(Clone, Copy)]
pub(crate) enum Found {
    Torn,
    Bad(LogWhy),
    Whole(Entry, usize, [u8; 32]),
}

/// The session's id with the owner's byte, to which the first entry is chained.
pub(crate) fn first_chain(id: &[u8; 32], owner: PlayerId) -> [u8; 33]
    ensures { result ≡ S.first_chain id.now owner }
{
    let mut chain = [owner; 33];
    chain[..32].copy_from_slice(id);
    chain
}

/// The digest that chains a text to what stands before it.
pub(crate) fn chained(chain: &[u8], text: &[u8]) -> [u8; 32]
    ensures { result ≡ S.chained chain.now text.now }
{
    let mut hasher = Sha256::new();
    hasher.update(chain);
    hasher.update(text);
    hasher.finalize()
}

/// Whether two digests are the same.
pub(crate) fn same_digest(a: &[u8; 32], b: &[u8; 32]) -> bool
    ensures { result ≡ bytes_eq a.now b.now }
{
    a == b
}

/// The player whose frame it is.
fn player_of(frame: &TurnFrame) -> PlayerId
    ensures { result ≡ player_of frame.now }
{
    match frame {
        TurnFrame::Commit { player, .. } | TurnFrame::Reveal { player, .. } => *player,
    }
}

/// The turn of which it is.
fn turn_of(frame: &TurnFrame) -> Turn
    ensures { result ≡ turn_of frame.now }
{
    match frame {
        TurnFrame::Commit { turn, .. } | TurnFrame::Reveal { turn, .. } => *turn,
    }
}

/// Whether the owner's log may have the entry.
#[inline(always)]
fn is_well_formed(session: &Session, owner: PlayerId, entry: &Entry) -> bool
    ensures { result ≡ D.is_well_formed session.now owner entry.now }
{
    match entry {
        Entry::Chose { turn, .. } => *turn < session.turns(),
        Entry::Made(frame) => turn_of(frame) < session.turns() && player_of(frame) == owner,
        Entry::Got(from, frame) => {
            turn_of(frame) < session.turns()
                && *from < session.players()
                && *from != owner
                && player_of(frame) == *from
        }
    }
}

/// Reads the entry that a text spells to `out`, and says whether it spells one that the owner's log may have: else `out` says
/// nothing.
#[inline(always)]
pub(crate) fn read_owned(session: &Session, owner: PlayerId, text: &[u8], out: &mut Entry) -> bool
    ensures { (count : ℕ) (digest : List ℕ) → F.owned_by session.now owner (E.entry_of text.now) count digest ≡ F.owned_as result out.new count digest }
{
    read_into(text, out) && is_well_formed(session, owner, out)
}

/// The entry that a text spells, where the owner's log may have it.
fn owned_by(
    session: &Session,
    owner: PlayerId,
    text: &[u8],
    count: usize,
    digest: [u8; 32],
) -> Found
    ensures { result ≡ F.owned_by session.now owner (E.entry_of text.now) count digest }
{
    let mut entry = NO_ENTRY;
    if read_owned(session, owner, text, &mut entry) {
        Found::Whole(entry, count, digest)
    } else {
        Found::Bad(LogWhy::BadEntry)
    }
}

/// Whether the bytes end before the entry that begins with them does.
pub(crate) fn is_torn(bytes: &[u8]) -> bool
    ensures { result ≡ F.is_torn bytes.now }
{
    bytes.len() < 35 || bytes.len() < told_len(bytes) + 35
}

/// What stands at the front of the bytes, behind what has this digest.
#[tactic(auto, unfolding(crate::specs::Finding::entry_at))]
pub(crate) fn entry_at(session: &Session, owner: PlayerId, chain: &[u8], bytes: &[u8]) -> Found
    ensures found { result ≡ F.entry_at session.now owner chain.now bytes.now }
    ensures within { F.IsWithin (length bytes.now) result }
{
    if is_torn(bytes) {
        return Found::Torn;
    }
    let end = told_len(bytes) + 3;
    let hash = chained(chain, &bytes[..end]);
    found_by(session, owner, bytes, &hash)
}

/// What the whole entry is at the front of the bytes, whose text should have this digest.
fn found_by(session: &Session, owner: PlayerId, bytes: &[u8], hash: &[u8; 32]) -> Found
    requires { F.is_torn bytes.now ≡ false }
    ensures found { result ≡ F.found_by session.now owner bytes.now hash.now }
    ensures within { F.IsWithin (length bytes.now) result }
{
    let end = told_len(bytes) + 3;
    let digest = digest_at(bytes, end);
    if !same_digest(&digest, hash) {
        return Found::Bad(LogWhy::BadChain);
    }
    owned_by(session, owner, &bytes[..end], end + 32, digest)
}

/// The 32 bytes from this one on.
#[inline(always)]
pub(crate) fn digest_at(bytes: &[u8], at: usize) -> [u8; 32]
    requires { at + 32 ≤ length bytes.now }
    ensures { result ≡ take 32 (drop at bytes.now) }
{
    take_array(bytes, at).unwrap()
}
