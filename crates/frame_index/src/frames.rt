//! Each different frame once, with its first spot in each log.

ghost use Rattle.std.specs.Prelude.{◌≡◌, ◌<◌, ◌≤◌, ℕ, List, [], ◌++◌, Some, slice_get, length, OnOk, OnErr, map};
ghost use Rattle.definitions.specs.declared.logs.Entry.{Entry};
ghost use Rattle.definitions.specs.World.{Game};
ghost use Rattle.definitions.specs.Logs as L;
ghost use Rattle.frame_index.specs.Appended as A;
ghost use Rattle.frame_index.specs.Frames as F;
ghost use Rattle.frame_index.specs.Frames.{IndexState};
ghost use Rattle.frame_index.specs.Kept as K;
ghost use Rattle.frame_index.specs.Spots as S;

use crate::kept::{KeptFrame, TurnFrames};
use crate::limits::MOST_LOGS;
use crate::rows::{Row, kept_by, take_frame};
use crate::seen::Seen;
use crate::short_spot::ShortSpot;
use definitions::limits::{LONGEST_LOG, MOST_TURNS};
use definitions::{Digest, PlayerId, Spot, Turn, TurnFrame};
use grid_world::Session;
use indexmap::IndexMap;
use std::alloc::{AllocError, Global};
use std::marker::Model;

/// A player's turn.
#[derive(Clone, Copy, PartialEq, Eq, Hash)]
pub(crate) struct TurnKey {
    pub player: PlayerId,
    pub turn: Turn,
}

/// Of each player's turn the different frames that logs got, each once, with its first spot in each log that got it.
#[derive(Drop)]
pub struct FrameIndex {
    alloc: Global,
    // of turns that a session may have
    rows: Vec<Row>,
    // of all turns behind them, which no log of a session has: only a caller's own frames come here
    beyond: IndexMap<TurnKey, TurnFrames>,
}

impl Model for FrameIndex {
    ghost use Rattle.frame_index.specs.Frames.{IndexState};

    ghost Value = { IndexState };

    ghost view = { λ x. record { rows = x.rows.items; beyond = x.beyond.entries } };
}

/// The key of the player's turn of which the frame is.
fn key_of(frame: &TurnFrame) -> TurnKey
    ensures player { result.player ≡ L.player_of frame.now }
    ensures turn { result.turn ≡ L.turn_of frame.now }
{
    match *frame {
        TurnFrame::Commit { player, turn, .. } => TurnKey { player, turn },
        TurnFrame::Reveal { player, turn, .. } => TurnKey { player, turn },
    }
}

/// Puts what is kept of a frame behind the others.
fn put_frame(
    out: &mut Vec<Seen>,
    frame: TurnFrame,
    digest: Digest,
    spots: &[ShortSpot],
) -> Result<(), AllocError>
    ensures { OnOk result (out.new.items ≡ out.old.items ++ map (K.seen_with frame digest) spots.now) }
{
    for spot in spots {
        out.push(Seen {
            spot: spot.spot(),
            frame,
            digest,
        })?;
    }
    Ok(())
}

impl FrameIndex {
    /// With an empty table.
    fn bare(alloc: Global) -> Self
        ensures { (q t : ℕ) → F.kept_of result q t ≡ [] }
    {
        FrameIndex {
            alloc,
            rows: Vec::new(alloc),
            beyond: IndexMap::new(alloc),
        }
    }

    /// With nothing in it: it stands for any logs without entries. The allocator is kept, and takes no memory yet.
    pub fn new(alloc: Global) -> Self
        ensures stands { (game : Game) (logs : List (List Entry)) → ((i : ℕ) (h : List Entry) → slice_get logs i ≡ Some h → h ≡ []) → F.IsIndex game logs result }
    {
        Self::bare(alloc)
    }

    /// The frames that are kept of the player's turn.
    pub(crate) fn kept(&self, player: PlayerId, turn: Turn) -> &[KeptFrame]
        ensures { result.now ≡ F.kept_of self.now player turn }
    {
        if turn < MOST_TURNS {
            return kept_by(&self.rows, player, turn);
        }
        match self.beyond.get(&TurnKey { player, turn }) {
            None => &[],
            Some(frames) => &frames.kept,
        }
    }

    /// The frames that are kept of the player's turn of which this frame is.
    pub(crate) fn kept_with(&self, frame: &TurnFrame) -> &[KeptFrame]
        ensures { result.now ≡ F.kept_of self.now (L.player_of frame.now) (L.turn_of frame.now) }
    {
        let TurnKey { player, turn } = key_of(frame);
        self.kept(player, turn)
    }

    /// What is kept of the player's turn, each different frame once for each log that got it. It takes the place of what `out`
    /// had, in the memory of `out`'s allocator, and an error comes where that has none.
    pub fn gather(
        &self,
        player: PlayerId,
        turn: Turn,
        out: &mut Vec<Seen>,
    ) -> Result<(), AllocError>
        ensures { OnOk result (out.new.items ≡ F.kept_in self.now player turn) }
    {
        out.clear();
        for one in self.kept(player, turn) {
            put_frame(out, one.frame, one.digest, one.spots.all())?;
        }
        Ok(())
    }

    /// Takes a frame to those of its player's turn, which is behind all that a session may have.
    fn take_beyond(
        &mut self,
        session: &Session,
        frame: &TurnFrame,
        spot: Spot,
    ) -> Result<(), AllocError>
        requires turn { MOST_TURNS ≤ L.turn_of frame.now }
        requires spot { S.IsInRange spot }
        ensures ok { OnOk result (F.IsTaken session.now frame.now spot self.old self.new) }
        ensures err { OnErr result (F.IsRefused self.old self.new) }
    {
        let key = key_of(frame);
        let alloc = self.alloc;
        if let Some(frames) = self.beyond.get_mut(&key) {
            return frames.take(alloc, session, frame, spot);
        }
        let mut frames = TurnFrames::new(alloc);
        frames.take(alloc, session, frame, spot)?;
        self.beyond.insert(key, frames)?;
        Ok(())
    }

    /// Takes a frame to those of its player's turn.
    #[inline(always)]
    fn take_frame(
        &mut self,
        session: &Session,
        frame: &TurnFrame,
        spot: Spot,
    ) -> Result<(), AllocError>
        requires { S.IsInRange spot }
        ensures ok { OnOk result (F.IsTaken session.now frame.now spot self.old self.new) }
        ensures err { OnErr result (F.IsRefused self.old self.new) }
    {
        let TurnKey { player, turn } = key_of(frame);
        if turn >= MOST_TURNS {
            return self.take_beyond(session, frame, spot);
        }
        take_frame(
            &mut self.rows,
            self.alloc,
            session,
            player,
            turn,
            frame,
            spot,
        )
    }

    /// Takes a frame that a log of the session got from its player: what is kept stands for the logs with this entry at the end of
    /// its log.
    ///
    /// The spot is that of the entry: the log's number among the logs and how many entries the log had before, of whatever kind, both
    /// counted from 0. An error comes where the index's allocator has no memory; what is kept then stands for the logs without the
    /// entry. A frame that is one of the first few of its turn is found without a digest.
    #[inline(always)]
    pub fn take(
        &mut self,
        session: &Session,
        frame: &TurnFrame,
        spot: Spot,
    ) -> Result<(), AllocError>
        requires log { spot.log < MOST_LOGS }
        requires entry { spot.entry < LONGEST_LOG }
        ensures stands { OnOk result ((logs : List (List Entry)) (h : List Entry) → slice_get logs spot.log ≡ Some h → spot.entry ≡ length h → F.IsIndex session.now logs self.old → F.IsIndex session.now (A.with_entry logs spot.log (Entry.Got (L.player_of frame.now) frame.now)) self.new) }
        ensures err { OnErr result ((game : Game) (logs : List (List Entry)) → F.IsIndex game logs self.old → F.IsIndex game logs self.new) }
    {
        self.take_frame(session, frame, spot)
    }
}

/// An entry that gets no frame needn't be taken: what is kept stands for the logs with it too.
pub fn own_entries_change_nothing()
    ensures { (game : Game) (logs : List (List Entry)) (i : ℕ) (h : List Entry) (e : Entry) (index : IndexState) → slice_get logs i ≡ Some h → ((q : ℕ) (f : TurnFrame) → e ≡ Entry.Got q f → F.Never) → F.IsIndex game logs index → F.IsIndex game (A.with_entry logs i e) index }
{}
