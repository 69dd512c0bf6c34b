//! What is kept of a player's turn: each different frame once.

ghost use Rattle.std.specs.Prelude.{◌≡◌, ◌<◌, ◌≤◌, ℕ, Some, false, true, [], ◌∷◌, length, slice_get, IfNone, IfOk, IfSome, IsTrue, OnOk, OnErr};
ghost use Rattle.frame_index.specs.Kept as K;
ghost use Rattle.frame_index.specs.Spots as S;
ghost use Rattle.frame_index.specs.declared.kept.KeptFrame.{KeptFrame};

use crate::spots::Spots;
use definitions::{Digest, Spot, TurnFrame};
use grid_world::Session;
use reveal_check::frame_digest;
use std::alloc::{AllocError, Global};
use std::collections::BTreeMap;
use std::marker::Model;

/// A frame that logs got, its first spot in each log that got it, and its digest.
///
/// The digest stands last: a frame that is known is found by comparing it, and its spots are noted, so that the digest is not read then. What
/// is read lies in a row.
#[derive(Drop)]
pub(crate) struct KeptFrame {
    pub frame: TurnFrame,
    pub spots: Spots,
    pub digest: Digest,
}

/// By what a frame is looked for among many of its turn: its digest, and whether it is a commitment. Keys are compared and never
/// hashed, so that no log can be made for which the look-ups take long.
type FrameKey = [u8; 33];

/// Of each frame of a turn but the first few, where it stands.
type Places = BTreeMap<FrameKey, usize>;

/// The different frames of a player's turn.
#[derive(Drop)]
pub(crate) struct TurnFrames {
    // in the order in which they came
    pub kept: Vec<KeptFrame>,
    places: Places,
}

impl Model for TurnFrames {
    ghost use Rattle.frame_index.specs.Kept.{HavePlaces, TurnKept};

    ghost Value = { TurnKept };

    ghost view = { λ f. record { kept = record { items = f.kept.items } } };

    ghost invariant = { λ f. HavePlaces f.kept.items f.places };
}

/// As many frames of a turn as are looked through one by one.
pub(crate) const FEW: usize = 4;

/// As many as an honest player has.
const HONEST: usize = 2;

/// Notes a spot of the frame.
fn note_frame(one: &mut KeptFrame, spot: Spot) -> Result<(), AllocError>
    requires { S.IsInRange spot }
    ensures ok { OnOk result (one.new.spots.items ≡ S.spot_noted one.old.spots.items spot) }
    ensures err { OnErr result (one.new.spots.items ≡ one.old.spots.items) }
    ensures frame { one.new.frame ≡ one.old.frame }
    ensures digest { one.new.digest ≡ one.old.digest }
{
    one.spots.note(spot)
}

/// Notes a spot of the frame that stands at the place.
fn note_at(kept: &mut Vec<KeptFrame>, at: usize, spot: Spot) -> Result<(), AllocError>
    requires at { at < length kept.old.items }
    requires spot { S.IsInRange spot }
    ensures ok { OnOk result (K.IsNotedAt kept.old.items kept.new.items at spot) }
    ensures err { OnErr result (K.AreAlike kept.old.items kept.new.items) }
    ensures places { K.KeepPlaces kept.old.items kept.new.items }
{
    note_frame(&mut kept[at], spot)
}

/// By what the frame is looked for.
fn key_of(frame: &TurnFrame, digest: &Digest) -> FrameKey
    ensures { result ≡ K.key_bytes frame.now digest.now }
{
    let kind = if frame.is_commit() { 1 } else { 0 };
    let mut key = [kind; 33];
    key[..32].copy_from_slice(&digest.bytes);
    key
}

/// Whether the frame is the one that is kept.
fn is_kept(one: &KeptFrame, frame: &TurnFrame) -> bool
    ensures same { IsTrue result → one.now.frame ≡ frame.now }
    ensures other { result ≡ false → one.now.frame ≡ frame.now → ⊥ }
{
    one.frame == *frame
}

/// The place of the frame among the first ones, as many as there are or are asked for.
pub(crate) fn place_in(kept: &[KeptFrame], frame: &TurnFrame, most: usize) -> Option<usize>
    ensures some { IfSome result (λ at. K.StandsAt kept.now at frame.now) }
    ensures none { IfNone result ((at : ℕ) (k : KeptFrame) → at < most → slice_get kept.now at ≡ Some k → k.frame ≡ frame.now → ⊥) }
{
    for at in 0..kept.len().min(most) {
        if is_kept(&kept[at], frame) {
            return Some(at);
        }
    }
    None
}

/// Makes room for an honest player's frames where there is none yet, and for no more, since nearly all turns have those.
fn make_room(alloc: Global, kept: &mut Vec<KeptFrame>) -> Result<(), AllocError>
    ensures { kept.new.items ≡ kept.old.items }
{
    if kept.is_empty() {
        *kept = Vec::with_capacity(alloc, HONEST)?;
    }
    Ok(())
}

/// The place of the frame behind the first few, if it is there.
fn late_place(
    kept: &[KeptFrame],
    places: &Places,
    frame: &TurnFrame,
    digest: &Digest,
) -> Option<usize>
    requires { K.HavePlaces kept.now places.now }
    ensures some { IfSome result (λ at. K.StandsAt kept.now at frame.now) }
    ensures none { IfNone result ((at : ℕ) (k : KeptFrame) → FEW ≤ at → slice_get kept.now at ≡ Some k → k.frame ≡ frame.now → k.digest ≡ digest.now → ⊥) }
{
    let at = *places.get(&key_of(frame, digest))?;
    if at < kept.len() && is_kept(&kept[at], frame) {
        return Some(at);
    }
    // another frame of the kind has the same digest
    place_in(kept, frame, kept.len())
}

/// Notes that the frame of this key comes to stand at the place, unless that is one of the first few.
fn note_place(places: &mut Places, key: FrameKey, at: usize) -> Result<(), AllocError>
    ensures stay { K.StayPlaces places.old places.new }
    ensures now { OnOk result (FEW ≤ at → K.has_place places.new key ≡ true) }
{
    if at >= FEW {
        places.insert(key, at)?;
    }
    Ok(())
}

/// The frame with its first spot.
fn first_kept(
    alloc: Global,
    frame: &TurnFrame,
    digest: Digest,
    spot: Spot,
) -> Result<KeptFrame, AllocError>
    requires { S.IsInRange spot }
    ensures { IfOk result (λ l. (l.frame ≡ frame.now) × (l.digest ≡ digest) × (l.spots.items ≡ spot ∷ [])) }
{
    let mut spots = Spots::new(alloc);
    spots.note(spot)?;
    Ok(KeptFrame {
        frame: *frame,
        spots,
        digest,
    })
}

/// Puts a frame behind the others.
fn add(
    kept: &mut Vec<KeptFrame>,
    places: &mut Places,
    alloc: Global,
    frame: &TurnFrame,
    digest: Digest,
    spot: Spot,
) -> Result<(), AllocError>
    requires places { K.HavePlaces kept.old.items places.old }
    requires spot { S.IsInRange spot }
    ensures ok { OnOk result (K.IsAdded kept.old.items kept.new.items frame.now digest spot) }
    ensures err { OnErr result (kept.new.items ≡ kept.old.items) }
    ensures places { K.HavePlaces kept.new.items places.new }
{
    let one = first_kept(alloc, frame, digest, spot)?;
    make_room(alloc, kept)?;
    note_place(places, key_of(frame, &digest), kept.len())?;
    kept.push(one)?;
    Ok(())
}

/// Takes a frame that a log got: its spot is noted where it is known, and else it is put behind the others.
fn take_kept(
    kept: &mut Vec<KeptFrame>,
    places: &mut Places,
    alloc: Global,
    session: &Session,
    frame: &TurnFrame,
    spot: Spot,
) -> Result<(), AllocError>
    requires places { K.HavePlaces kept.old.items places.old }
    requires spot { S.IsInRange spot }
    ensures ok { OnOk result (K.Grows session.now frame.now spot kept.old.items kept.new.items) }
    ensures err { OnErr result (K.AreAlike kept.old.items kept.new.items) }
    ensures places { K.HavePlaces kept.new.items places.new }
{
    if let Some(at) = place_in(kept, frame, FEW) {
        return note_at(kept, at, spot);
    }
    let digest = frame_digest(session, frame);
    if let Some(at) = late_place(kept, places, frame, &digest) {
        return note_at(kept, at, spot);
    }
    add(kept, places, alloc, frame, digest, spot)
}

impl TurnFrames {
    /// With no frame.
    pub fn new(alloc: Global) -> TurnFrames
        ensures { result.kept.items ≡ [] }
    {
        TurnFrames {
            kept: Vec::new(alloc),
            places: BTreeMap::new(alloc),
        }
    }

    /// Takes a frame that a log got. Its digest is computed only where it isn't among the first few.
    pub fn take(
        &mut self,
        alloc: Global,
        session: &Session,
        frame: &TurnFrame,
        spot: Spot,
    ) -> Result<(), AllocError>
        requires { S.IsInRange spot }
        ensures ok { OnOk result (K.Grows session.now frame.now spot self.old.kept.items self.new.kept.items) }
        ensures err { OnErr result (K.AreAlike self.old.kept.items self.new.kept.items) }
    {
        take_kept(
            &mut self.kept,
            &mut self.places,
            alloc,
            session,
            frame,
            spot,
        )
    }
}
