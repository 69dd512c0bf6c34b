//! Entries that are read one behind the other before any of them is taken.
//!
//! An entry is hashed behind the one before it, and its frame is looked for among all that are kept, which waits for memory. Where each
//! entry is taken before the next one is read, each look-up waits by itself. Where many are read and then taken in a row, a processor has
//! several of them under way at once.

ghost use Rattle.std.specs.Prelude.{◌≡◌, ◌<◌, ◌≤◌, ◌+◌, ◌-◌, [], ◌∷◌, drop, take, length, IfNone, IfSome, IsTrue};
ghost use Rattle.std.specs.List.{list_all};
ghost use Rattle.session_log.specs.Fed.{IsFeedOf};
ghost use Rattle.session_log.specs.Feeding.{LogFeeding};
ghost use Rattle.auditor.specs.Audits.{is_of_its_sender};
ghost use Rattle.auditor.specs.Taking as T;

use definitions::Entry;
use definitions::limits::LONGEST_LOG;
use grid_world::Session;
use session_log::LogFeed;

/// How many entries were read, and the place in the piece behind the last of them, counted in bytes from 0.
#[derive(Clone, Copy, Debug, PartialEq, Eq)]
pub struct Batch {
    pub count: usize,
    pub at: usize,
}

/// Feeds the bytes of the piece from this place on, up to the end of the first entry that ends in them, and reads that entry to its room: with
/// how many bytes it ended, where one did.
#[inline(always)]
fn read_next(
    session: &Session,
    feed: &mut LogFeed,
    piece: &[u8],
    at: usize,
    entry: &mut Entry,
) -> Option<usize>
    requires at { at ≤ length piece.now }
    requires few { feed.old.used + (length piece.now - at) ≤ LONGEST_LOG }
    requires stands { (f : LogFeeding) × IsFeedOf feed.old f }
    ensures next { IfSome result (λ used. T.ReadsOn session.now feed.old feed.new (drop at piece.now) (drop used (drop at piece.now)) (entry.new ∷ [])) }
    ensures none { IfNone result (T.ReadsAll session.now feed.old feed.new (drop at piece.now) []) }
    ensures sent { IfSome result (λ used. IsTrue (is_of_its_sender entry.new)) }
    ensures used { IfSome result (λ used. (0 < used) × (at + used ≤ length piece.now) × (feed.new.used ≡ feed.old.used + used)) }
    ensures less { feed.old.used ≤ feed.new.used }
    ensures within { feed.new.used ≤ feed.old.used + (length piece.now - at) }
{
    let step = feed.feed_at(session, piece, at, entry);
    match step.what {
        Ok(came) => { if came { Some(step.used) } else { None } }
        Err(_) => None,
    }
}

/// Feeds the bytes of the piece from this place on, and reads the entries that end in them to the room, as many as it has places for.
pub(crate) fn read_batch(
    session: &Session,
    feed: &mut LogFeed,
    piece: &[u8],
    at: usize,
    room: &mut [Entry],
) -> Batch
    requires at { at ≤ length piece.now }
    requires few { feed.old.used + (length piece.now - at) ≤ LONGEST_LOG }
    requires stands { (f : LogFeeding) × IsFeedOf feed.old f }
    ensures full { result.count ≡ length room.old → T.ReadsOn session.now feed.old feed.new (drop at piece.now) (drop result.at piece.now) (take result.count room.new) }
    ensures all { result.count < length room.old → T.ReadsAll session.now feed.old feed.new (drop at piece.now) (take result.count room.new) }
    ensures sent { IsTrue (list_all is_of_its_sender (take result.count room.new)) }
    ensures fits { (length room.new ≡ length room.old) × (result.count ≤ length room.old) }
    ensures place { (at + result.count ≤ result.at) × (result.at ≤ length piece.now) }
    ensures used { result.count ≡ length room.old → feed.new.used ≡ feed.old.used + (result.at - at) }
    ensures more { feed.old.used + result.count ≤ feed.new.used }
    ensures within { feed.new.used ≤ feed.old.used + (length piece.now - at) }
{
    let mut count = 0;
    let mut place = at;
    'entries: while count < room.len() {
        match read_next(session, feed, piece, place, &mut room[count]) {
            None => return Batch { count, at: place },
            Some(used) => {
                place += used;
                count += 1;
            }
        }
    }
    Batch { count, at: place }
}
