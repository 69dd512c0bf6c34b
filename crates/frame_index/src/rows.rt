//! The frames of players' turns, by the turn and then by the player.
//!
//! Each frame of each log goes through these calls, so those that only hand it on are inlined.

ghost use Rattle.std.specs.Prelude.{◌≡◌, ◌<◌, ◌-◌, ℕ, length, OnErr, OnOk};
ghost use Rattle.frame_index.specs.Frames as F;
ghost use Rattle.frame_index.specs.Kept as K;
ghost use Rattle.frame_index.specs.Rows as R;
ghost use Rattle.frame_index.specs.Spots as S;

use crate::kept::{KeptFrame, TurnFrames};
use definitions::{PlayerId, Spot, Turn, TurnFrame};
use grid_world::Session;
use std::alloc::{AllocError, Global};

/// The frames of a turn by the player, as far as frames came.
pub(crate) type Row = Vec<TurnFrames>;

/// The row of the turn.
fn row_at(rows: &[Row], turn: Turn) -> &[TurnFrames]
    ensures { result.now ≡ R.row_at rows.now turn }
{
    match rows.get(turn as usize) {
        None => &[],
        Some(row) => row,
    }
}

/// The frames that are kept of the player.
fn kept_at(row: &[TurnFrames], player: PlayerId) -> &[KeptFrame]
    ensures { result.now ≡ R.kept_at row.now player }
{
    match row.get(usize::from(player)) {
        None => &[],
        Some(frames) => &frames.kept,
    }
}

/// The frames that are kept of the player's turn.
pub(crate) fn kept_by(rows: &[Row], player: PlayerId, turn: Turn) -> &[KeptFrame]
    ensures { result.now ≡ R.kept_by rows.now player turn }
{
    kept_at(row_at(rows, turn), player)
}

/// Makes the row so long that it has a place for the player.
fn lengthen_row(alloc: Global, row: &mut Row, player: PlayerId) -> Result<(), AllocError>
    ensures same { (q : ℕ) → R.kept_at row.new.items q ≡ R.kept_at row.old.items q }
    ensures room { OnOk result (player < length row.new.items) }
    ensures full { player < length row.old.items → length row.new.items ≡ length row.old.items }
{
    'places: while row.len() <= usize::from(player) {
        row.push(TurnFrames::new(alloc))?;
    }
    Ok(())
}

/// Makes so many rows that one is the turn's.
fn lengthen(alloc: Global, rows: &mut Vec<Row>, turn: Turn) -> Result<(), AllocError>
    ensures same { (q t : ℕ) → R.kept_by rows.new.items q t ≡ R.kept_by rows.old.items q t }
    ensures room { OnOk result (turn < length rows.new.items) }
    ensures full { turn < length rows.old.items → length rows.new.items ≡ length rows.old.items }
{
    'turns: while rows.len() <= turn as usize {
        rows.push(Vec::new(alloc))?;
    }
    Ok(())
}

/// Takes a frame to those of the player.
#[inline(always)]
fn take_at(
    row: &mut Row,
    alloc: Global,
    session: &Session,
    player: PlayerId,
    frame: &TurnFrame,
    spot: Spot,
) -> Result<(), AllocError>
    requires player { player < length row.old.items }
    requires spot { S.IsInRange spot }
    ensures ok { OnOk result (K.Grows session.now frame.now spot (R.kept_at row.old.items player) (R.kept_at row.new.items player)) }
    ensures err { OnErr result (K.AreAlike (R.kept_at row.old.items player) (R.kept_at row.new.items player)) }
    ensures others { (q : ℕ) → (player ≡ q → F.Never) → R.kept_at row.new.items q ≡ R.kept_at row.old.items q }
{
    row[usize::from(player)].take(alloc, session, frame, spot)
}

/// Takes a frame to those of the player, for whom room is made.
#[inline(always)]
fn take_in_row(
    row: &mut Row,
    alloc: Global,
    session: &Session,
    player: PlayerId,
    frame: &TurnFrame,
    spot: Spot,
) -> Result<(), AllocError>
    requires { S.IsInRange spot }
    ensures ok { OnOk result (K.Grows session.now frame.now spot (R.kept_at row.old.items player) (R.kept_at row.new.items player)) }
    ensures err { OnErr result (K.AreAlike (R.kept_at row.old.items player) (R.kept_at row.new.items player)) }
    ensures others { (q : ℕ) → (player ≡ q → F.Never) → R.kept_at row.new.items q ≡ R.kept_at row.old.items q }
{
    lengthen_row(alloc, row, player)?;
    take_at(row, alloc, session, player, frame, spot)
}

/// Takes a frame to those of the player's turn, which has a row.
#[inline(always)]
fn take_by(
    rows: &mut Vec<Row>,
    alloc: Global,
    session: &Session,
    player: PlayerId,
    turn: Turn,
    frame: &TurnFrame,
    spot: Spot,
) -> Result<(), AllocError>
    requires turn { turn < length rows.old.items }
    requires spot { S.IsInRange spot }
    ensures ok { OnOk result (K.Grows session.now frame.now spot (R.kept_by rows.old.items player turn) (R.kept_by rows.new.items player turn)) }
    ensures err { OnErr result (K.AreAlike (R.kept_by rows.old.items player turn) (R.kept_by rows.new.items player turn)) }
    ensures others { (q t : ℕ) → ((player ≡ q) × (turn ≡ t) → F.Never) → R.kept_by rows.new.items q t ≡ R.kept_by rows.old.items q t }
{
    take_in_row(
        &mut rows[turn as usize],
        alloc,
        session,
        player,
        frame,
        spot,
    )
}

/// Takes a frame to those of the player's turn, for which room is made. Where an error comes, the same is kept as before.
#[inline(always)]
pub(crate) fn take_frame(
    rows: &mut Vec<Row>,
    alloc: Global,
    session: &Session,
    player: PlayerId,
    turn: Turn,
    frame: &TurnFrame,
    spot: Spot,
) -> Result<(), AllocError>
    requires { S.IsInRange spot }
    ensures ok { OnOk result (K.Grows session.now frame.now spot (R.kept_by rows.old.items player turn) (R.kept_by rows.new.items player turn)) }
    ensures err { OnErr result (K.AreAlike (R.kept_by rows.old.items player turn) (R.kept_by rows.new.items player turn)) }
    ensures others { (q t : ℕ) → ((player ≡ q) × (turn ≡ t) → F.Never) → R.kept_by rows.new.items q t ≡ R.kept_by rows.old.items q t }
{
    lengthen(alloc, rows, turn)?;
    take_by(rows, alloc, session, player, turn, frame, spot)
}
