//! A peer that goes back to the first entries of its log, in the memory that it has.

ghost use Rattle.std.specs.Prelude.{◌≡◌, ◌<◌, ◌+◌, [], length, take};
ghost use Rattle.definitions.specs.World.{players_of};
ghost use Rattle.definitions.specs.Logs as L;
ghost use Rattle.definitions.specs.Honest.{IsHonest};
ghost use Rattle.peer_core.specs.Others.{AreOthers};
ghost use Rattle.peer_core.specs.Cutting as C;

use crate::others::Others;
use crate::peer::Peer;
use crate::sending::count_made;
use definitions::{Entry, PlayerId};
use grid_world::Session;
use move_rules::Walker;

/// What became of a cut.
#[derive(Clone, Copy, Debug, PartialEq, Eq)]
pub enum Cut {
    /// The peer's log is its first entries.
    Done,
    /// The log has fewer entries, or the cut would take away a frame that the peer made. Nothing changed.
    BadCut,
}

/// How many of the entries are choices.
pub(crate) fn count_chosen(entries: &[Entry], _me: PlayerId) -> usize
    ensures { result ≡ length (L.chosen _me entries.now) }
{
    let mut count = 0;
    for entry in entries {
        if let Entry::Chose { .. } = entry {
            count += 1;
        }
    }
    count
}

/// Offers the frame anew that the entry of this number got, if it got one, where those of the entries before it were offered.
fn hear_again(
    others: &mut Others,
    session: &Session,
    walker: &mut Walker,
    me: PlayerId,
    entries: &[Entry],
    at: usize,
)
    requires owner { me < players_of session.now }
    requires honest { IsHonest session.now me entries.now }
    requires at { at < length entries.now }
    requires others { AreOthers session.now me (take at entries.now) others.old }
    ensures others { AreOthers session.now me (take (at + 1) entries.now) others.new }
{
    session.facts();
    if let Entry::Got(from, frame) = entries[at] {
        let before = entries.split_at(at).0;
        let _ = others.offer(session, walker, me, before, from, &frame);
    }
}

/// Offers all frames anew that the entries got, in their order, where none was offered yet.
pub(crate) fn hear_all(
    others: &mut Others,
    session: &Session,
    walker: &mut Walker,
    me: PlayerId,
    entries: &[Entry],
)
    requires owner { me < players_of session.now }
    requires honest { IsHonest session.now me entries.now }
    requires others { AreOthers session.now me [] others.old }
    ensures others { AreOthers session.now me entries.now others.new }
{
    for at in 0..entries.len() {
        hear_again(others, session, walker, me, entries, at);
    }
}

impl Peer {
    /// Goes back to the first `keep` entries of the log, as a peer stopped and resumed from them, and takes no memory. BadCut
    /// comes exactly where the log has fewer entries, or one from `keep` on is a frame that the peer made, which others may
    /// have got; then nothing changes. The time that it takes goes by the number of the session's frames.
    pub fn cut(&mut self, keep: u32) -> Cut
        ensures answer { result ≡ C.cut_answer self.old.entries keep }
        ensures log { self.new ≡ record self.old { entries = C.entries_kept self.old.entries keep } }
    {
        let keep = keep as usize;
        let entries = self.entries();
        if keep > entries.len() || count_made(entries.split_at(keep).1) > 0 {
            return Cut::BadCut;
        }
        self.keep_first(keep);
        Cut::Done
    }
}
