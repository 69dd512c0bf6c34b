//! The sealed frame at the front of a file's bytes.

ghost use Rattle.std.specs.Prelude.{◌≡◌, ◌≤◌, ◌+◌, length, OnSome, IsTrue};
ghost use Rattle.seal_keys.specs.Seals.{seal_len};
ghost use Rattle.sealed_evidence.specs.Judging as J;
ghost use Rattle.sealed_files.specs.SealedFrames as F;

use commitment::whole_turn;
use definitions::TurnFrame;
use definitions::limits::LONGEST_LOG;
use grid_world::Session;
use seal_keys::Seal;
use sealed_evidence::{Roots, is_sealed};

/// How many bytes the frame at the front has, as its third byte tells.
fn frame_len(bytes: &[u8]) -> usize
    ensures { result ≡ F.frame_len bytes.now }
{
    if bytes.len() > 2 {
        usize::from(bytes[2]) + 3
    } else {
        3
    }
}

/// The frame whose spelling stands at the front.
#[tactic(auto, unfolding(crate::specs::SealedFrames::frame_ahead))]
fn frame_ahead(bytes: &[u8]) -> Option<TurnFrame>
    ensures { result ≡ F.frame_ahead bytes.now }
{
    let size = frame_len(bytes).min(bytes.len());
    whole_turn(&bytes[..size])
}

/// How many bytes the sealed frame at the front has, where one stands there with a seal as long as
/// this one.
pub fn sealed_len(bytes: &[u8], seal: &Seal) -> usize
    requires { length seal.now ≤ 32768 }
    ensures { result ≡ F.frame_len bytes.now + length seal.now }
{
    frame_len(bytes) + seal.bytes().len()
}

/// Whether the bytes are at least as many as a sealed frame at their front would have, with a seal
/// as long as this one. Where they are, what stands at the front doesn't change by what follows.
pub fn is_whole(session: &Session, bytes: &[u8], seal: &Seal) -> bool
    requires { length seal.now ≡ seal_len session.now }
    ensures { result ≡ F.is_whole session.now bytes.now }
{
    sealed_len(bytes, seal) <= bytes.len()
}

/// Whether a seal that is valid for the frame stands behind the frame at the front. It is written
/// to `seal`; what stands there otherwise is left open.
fn take_seal(
    session: &Session,
    roots: &Roots,
    frame: &TurnFrame,
    bytes: &[u8],
    seal: &mut Seal,
) -> bool
    requires { length seal.old ≡ seal_len session.now }
    ensures value { result ≡ J.is_sealed session.now roots.now frame.now (F.seal_ahead session.now bytes.now) }
    ensures seal { IsTrue result → seal.new ≡ F.seal_ahead session.now bytes.now }
    ensures length { length seal.new ≡ length seal.old }
{
    let at = frame_len(bytes);
    let size = seal.bytes().len();
    if bytes.len() < at + size {
        return false;
    }
    seal.set(&bytes[at..at + size]);
    is_sealed(session, roots, frame, seal)
}

/// The frame of the sealed frame at the front of the bytes: its one spelling, and behind it a seal
/// that is valid for it under the root of its player. The seal is written to `seal`, which was made
/// for the session. None comes exactly where no sealed frame stands there, so also where its turn
/// isn't played or its player has no root; what `seal` has then is left open.
#[tactic(auto, unfolding(crate::specs::SealedFrames::sealed_ahead))]
pub fn sealed_ahead(
    session: &Session,
    roots: &Roots,
    bytes: &[u8],
    seal: &mut Seal,
) -> Option<TurnFrame>
    requires { length seal.old ≡ seal_len session.now }
    ensures frame { result ≡ F.sealed_ahead session.now roots.now bytes.now }
    ensures seal { OnSome result (seal.new ≡ F.seal_ahead session.now bytes.now) }
    ensures length { length seal.new ≡ length seal.old }
{
    match frame_ahead(bytes) {
        None => None,
        Some(frame) => {
            if take_seal(session, roots, &frame, bytes, seal) {
                Some(frame)
            } else {
                None
            }
        }
    }
}

/// The first byte at which no sealed frame stands, from the begin of the file on.
fn bad_in(session: &Session, roots: &Roots, bytes: &[u8], seal: &mut Seal) -> Option<u32>
    requires few { length bytes.now ≤ LONGEST_LOG }
    requires seal { length seal.old ≡ seal_len session.now }
    ensures { result ≡ F.bad_from session.now roots.now (length bytes.now) 0 bytes.now }
{
    let mut at = 0;
    for step in 0..bytes.len() {
        let rest = &bytes[at..];
        if rest.is_empty() {
            return None;
        }
        if !sealed_ahead(session, roots, rest, seal).is_some() {
            return Some(at as u32);
        }
        at += sealed_len(rest, seal);
    }
    None
}

/// The first byte, counted from 0, at which a file has no sealed frame, and `LONGEST_LOG` where the
/// file has more bytes than that, whatever stands in them. None comes exactly where the file is
/// sealed frames from its front to its end, or empty. `seal` is room for one seal of the session;
/// what it has afterwards is left open.
#[tactic(auto, unfolding(crate::specs::SealedFrames::first_bad))]
pub fn first_bad(session: &Session, roots: &Roots, bytes: &[u8], seal: &mut Seal) -> Option<u32>
    requires { length seal.old ≡ seal_len session.now }
    ensures { result ≡ F.first_bad session.now roots.now bytes.now }
{
    if bytes.len() > LONGEST_LOG {
        return Some(LONGEST_LOG as u32);
    }
    bad_in(session, roots, bytes, seal)
}
