//! What makes and judges the seals of a session.

ghost use Rattle.std.specs.Prelude.{◌≡◌, ◌≤◌, ◌<◌, None, Some, IfOk, length, pos};
ghost use Rattle.commitment.specs.Spelling.{turn_frame_of};
ghost use Rattle.definitions.specs.World.{players_of};
ghost use Rattle.seal_keys.specs.Seals.{seal_len};
ghost use Rattle.seal_keys.specs.States.{after_seal, seal_answer};
ghost use Rattle.lethwyrn_c.specs.Codes.{code_of_seal};
ghost use Rattle.lethwyrn_c.specs.Sealers.{fresh_keys};
ghost use Rattle.lethwyrn_c.specs.Sealing as L;

use crate::codes;
use byte_fields::put_slice;
use commitment::whole_turn;
use definitions::{PlayerId, TurnFrame};
use grid_world::Session;
use seal_keys::{Seal, SealAnswer, SealKeys, valid};
use std::alloc::{AllocError, Global};
use std::marker::Model;

/// A session, perhaps the keys of one of its players, and room for a seal. A seal that is made or
/// judged stands in the room meanwhile, so that no call takes memory.
#[derive(Drop)]
pub(crate) struct Sealer {
    session: Session,
    keys: Option<SealKeys>,
    room: Seal,
}

impl Model for Sealer {
    ghost use Rattle.lethwyrn_c.specs.Sealers.{IsSealer, Sealing};

    ghost Value = { Sealing };

    ghost view = { λ s. record { game = s.session; keys = s.keys } };

    ghost invariant = { λ s. IsSealer s.session s.keys s.room };
}

/// Seals a frame, and writes its seal to the front of `out`.
fn seal_frame(
    keys: &mut SealKeys,
    room: &mut Seal,
    frame: &TurnFrame,
    out: &mut [u8],
    count: &mut usize,
) -> i32
    requires room { length room.old ≡ seal_len keys.old.game }
    requires enough { seal_len keys.old.game ≤ length out.old }
    ensures code { result ≡ pos (code_of_seal (seal_answer keys.old frame.now)) }
    ensures keys { keys.new ≡ after_seal keys.old frame.now (seal_answer keys.old frame.now) }
    ensures out { out.new ≡ L.front_after keys.old frame.now (seal_answer keys.old frame.now) out.old }
    ensures count { count.new ≡ L.count_after keys.old (seal_answer keys.old frame.now) }
    ensures game { keys.new.game ≡ keys.old.game }
    ensures room_len { length room.new ≡ length room.old }
{
    match keys.seal(frame, room) {
        SealAnswer::Done => {
            put_slice(out, 0, room.bytes());
            *count = room.bytes().len();
            codes::OK
        }
        SealAnswer::Used => {
            *count = 0;
            codes::USED
        }
        SealAnswer::Foreign => {
            *count = 0;
            codes::FOREIGN
        }
    }
}

/// Seals the frame that the bytes spell, if they spell one and `out` has room for its seal.
fn seal_bytes(
    keys: &mut SealKeys,
    room: &mut Seal,
    bytes: &[u8],
    out: &mut [u8],
    count: &mut usize,
) -> i32
    requires room { length room.old ≡ seal_len keys.old.game }
    ensures code { result ≡ pos (L.frame_sealed_code keys.old (length out.old) (turn_frame_of bytes.now)) }
    ensures keys { keys.new ≡ L.frame_sealed (length out.old) (turn_frame_of bytes.now) keys.old }
    ensures out { out.new ≡ L.frame_sealed_out keys.old (turn_frame_of bytes.now) out.old }
    ensures count { count.new ≡ L.frame_sealed_count keys.old (length out.old) (turn_frame_of bytes.now) }
    ensures game { keys.new.game ≡ keys.old.game }
    ensures room_len { length room.new ≡ length room.old }
{
    *count = 0;
    let Some(frame) = whole_turn(bytes) else {
        return codes::NO_FRAME;
    };
    if out.len() < room.bytes().len() {
        return codes::NO_ROOM;
    }
    seal_frame(keys, room, &frame, out, count)
}

impl Sealer {
    /// What judges the seals of the session, without keys. An error comes only where memory runs
    /// out.
    pub(crate) fn judge(alloc: Global, session: Session) -> Result<Sealer, AllocError>
        ensures { IfOk result (λ s. s ≡ record { game = session; keys = None }) }
    {
        let room = Seal::new(alloc, &session)?;
        Ok(Sealer {
            session,
            keys: None,
            room,
        })
    }

    /// The same, with the keys of a player by this seed. An error comes only where memory runs out.
    pub(crate) fn of_player(
        alloc: Global,
        session: Session,
        player: PlayerId,
        seed: &[u8; 32],
    ) -> Result<Sealer, AllocError>
        requires { player < players_of session }
        ensures { IfOk result (λ s. s ≡ record { game = session; keys = Some (fresh_keys session player seed.now) }) }
    {
        let room = Seal::new(alloc, &session)?;
        let keys = SealKeys::new(alloc, &session, player, seed)?;
        Ok(Sealer {
            session,
            keys: Some(keys),
            room,
        })
    }

    /// How many bytes a seal of the session has.
    pub(crate) fn seal_len(&self) -> usize
        ensures { result ≡ seal_len self.now.game }
    {
        self.room.bytes().len()
    }

    /// Writes the root of the keys.
    pub(crate) fn root(&self, out: &mut [u8; 32]) -> i32
        ensures code { result ≡ pos (L.root_code self.now) }
        ensures root { out.new ≡ L.root_told self.now out.old }
    {
        match &self.keys {
            None => codes::NO_KEYS,
            Some(keys) => {
                *out = keys.root();
                codes::OK
            }
        }
    }

    /// Seals the frame that the bytes spell, where there are keys, and writes its seal to the front
    /// of `out`.
    pub(crate) fn seal(&mut self, frame: &[u8], out: &mut [u8], count: &mut usize) -> i32
        ensures code { result ≡ pos (L.seal_code frame.now (length out.old) self.old) }
        ensures state { self.new ≡ L.after_sealing frame.now (length out.old) self.old }
        ensures out { out.new ≡ L.seal_told frame.now self.old out.old }
        ensures count { count.new ≡ L.seal_count frame.now (length out.old) self.old 0 }
    {
        match &mut self.keys {
            None => {
                *count = 0;
                codes::NO_KEYS
            }
            Some(keys) => seal_bytes(keys, &mut self.room, frame, out, count),
        }
    }

    /// Whether the seal is valid under this root for the frame that the bytes spell.
    #[tactic(auto, unfolding(seal_keys::specs::Seals::is_valid))]
    pub(crate) fn valid(&mut self, root: &[u8; 32], frame: &[u8], seal: &[u8]) -> i32
        ensures code { result ≡ pos (L.valid_code root.now frame.now seal.now self.old) }
        ensures same { self.new ≡ self.old }
    {
        let Some(frame) = whole_turn(frame) else {
            return codes::NO_FRAME;
        };
        if seal.len() != self.room.bytes().len() {
            return codes::NOT_VALID;
        }
        self.room.set(seal);
        if valid(&self.session, root, &frame, &self.room) {
            codes::OK
        } else {
            codes::NOT_VALID
        }
    }
}
