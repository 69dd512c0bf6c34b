//! A player's keys.

ghost use Rattle.std.specs.Prelude.{◌≡◌, ◌≤◌, ◌<◌, ℕ, ◌-◌, ◌^◌, ◌*◌, None, replicate, length, IfOk};
ghost use Rattle.definitions.specs.World.{players_of};
ghost use Rattle.grid_world.specs.Sessions.{IsSession};
ghost use Rattle.seal_keys.specs.Keys as K;
ghost use Rattle.seal_keys.specs.Parts.{joined_below};
ghost use Rattle.seal_keys.specs.Seals as S;
ghost use Rattle.seal_keys.specs.States as T;

use crate::answer::SealAnswer;
use crate::messages::{message_of, place_in};
use crate::seal::Seal;
use crate::sealing::{is_another, put_disclosed, put_others, sibling_of};
use crate::tree::{power, tree_height, tree_of};
use crate::values::secret;
use byte_fields::put_slice;
use definitions::{Place, PlayerId, TurnFrame};
use grid_world::Session;
use std::alloc::{AllocError, Global};
use std::marker::Model;

/// A player's keys for one session, and what was sealed with them.
///
/// All secrets come from the seed, so none is kept; the nodes of the tree over them are, 32 bytes
/// each. Whoever holds a reference can ask for any secret: keep it where nothing prints it.
#[derive(Drop)]
pub struct SealKeys {
    session: Session,
    player: PlayerId,
    seed: [u8; 32],
    height: u32,
    // the root in the place 1, and the children of the node of a place in twice this place and the
    // next
    nodes: Vec<[u8; 32]>,
    // by place, the digest that was sealed
    sealed: Vec<Option<[u8; 32]>>,
}

impl Model for SealKeys {
    ghost use Rattle.seal_keys.specs.States.{Keys};
    ghost use Rattle.seal_keys.specs.NodeTables.{AreKeys};

    ghost Value = { Keys };

    ghost view = { λ k. record { game = k.session; player = k.player; seed = k.seed; sealed = k.sealed.items } };

    ghost invariant = { λ k. AreKeys k.session k.player k.seed k.height k.nodes.items k.sealed.items };
}

impl SealKeys {
    /// The keys of a player of the session, by the seed; nothing is sealed yet. It makes all
    /// secrets and the tree over them, 1,281 blocks of SHA-256 a place, and takes all the memory
    /// that sealing needs: at most 2 MB in the largest session. An error comes only where memory
    /// runs out.
    pub fn new(
        alloc: Global,
        session: &Session,
        player: PlayerId,
        seed: &[u8; 32],
    ) -> Result<SealKeys, AllocError>
        requires { player < players_of session.now }
        ensures { IfOk result (λ keys. keys ≡ record { game = session.now; player = player; seed = seed.now; sealed = replicate (K.places session.now) None }) }
    {
        let copy = session.copy(alloc)?;
        let count = 2 * session.turns();
        let height = tree_height(session);
        let nodes = tree_of(alloc, seed, count, height)?;
        let sealed = vec![in alloc; None; count as usize]?;
        Ok(SealKeys {
            session: copy,
            player,
            seed: *seed,
            height,
            nodes,
            sealed,
        })
    }

    /// The player whose keys these are.
    pub fn player(&self) -> PlayerId
        ensures { result ≡ self.now.player }
    {
        self.player
    }

    /// The secret of a place for the value, 0 or 1, of a bit. Bits are counted as in
    /// [`bit_of`](crate::bit_of).
    pub fn secret(&self, place: Place, bit: u8, value: u8) -> [u8; 32]
        requires place { place < K.places self.now.game }
        requires value { value < 2 }
        ensures { result ≡ K.secret self.now.seed place bit value }
    {
        secret(&self.seed, place, bit, value)
    }

    /// The node of this height and index, both counted from 0, in the tree of the keys. The nodes
    /// of height 0 are the leaves, one for each place and then zeros; the greatest height is the
    /// least at which the tree has a leaf for each place.
    pub fn node(&self, height: u32, index: u32) -> [u8; 32]
        requires height { height ≤ K.tree_height self.now.game }
        requires index { index < 2 ^ (K.tree_height self.now.game - height) }
        ensures { result ≡ K.node_of self.now.game self.now.seed height index }
    {
        self.nodes[power(self.height - height) + index as usize]
    }

    /// The height of the tree: that of the root, where the leaves have height 0.
    pub fn height(&self) -> u32
        ensures { result ≡ K.tree_height self.now.game }
    {
        self.height
    }

    /// The root, the node over all leaves: what the others have to know of the keys before the
    /// match.
    pub fn root(&self) -> [u8; 32]
        ensures { result ≡ K.root_of self.now.game self.now.seed }
    {
        self.node(self.height, 0)
    }

    /// Writes the siblings on the way from the leaf of a place to the root.
    fn put_siblings(&self, out: &mut [u8], place: Place)
        requires room { length out.old ≡ 32 * K.tree_height self.now.game }
        requires place { place < K.places self.now.game }
        ensures { out.new ≡ joined_below (S.sibling_at self.now.game self.now.seed place) (K.tree_height self.now.game) }
    {
        self.session.facts();
        let mut index = place;
        for height in 0..self.height {
            put_slice(
                out,
                32 * height as usize,
                &self.node(height, sibling_of(index)),
            );
            index /= 2;
        }
    }

    /// Writes the seal of a place for a digest.
    fn put_seal(&self, out: &mut [u8], place: Place, message: &[u8; 32])
        requires room { length out.old ≡ S.seal_len self.now.game }
        requires place { place < K.places self.now.game }
        ensures { out.new ≡ S.seal_of self.now.game self.now.seed place message.now }
    {
        put_disclosed(&mut out[..8192], &self.seed, place, message);
        put_others(&mut out[8192..16384], &self.seed, place, message);
        self.put_siblings(&mut out[16384..], place);
    }

    /// Seals a frame of the player: `out`, which was made for this session, is its seal then. A
    /// place is sealed for one digest alone; a frame that was sealed may be sealed again, with the
    /// same bytes. Whether the frame is legal or honest isn't asked.
    ///
    /// Foreign comes exactly where the frame isn't the player's, or its turn isn't played, and then
    /// Used exactly where another frame was sealed at its place. Both leave keys and `out` as they
    /// are. What was sealed is forgotten with the keys: seal what is stored, and nothing twice.
    #[tactic(auto, unfolding(crate::specs::States::seal_answer, crate::specs::States::after_seal, crate::specs::States::room_after))]
    pub fn seal(&mut self, frame: &TurnFrame, out: &mut Seal) -> SealAnswer
        requires { length out.old ≡ S.seal_len self.old.game }
        ensures answer { result ≡ T.seal_answer self.old frame.now }
        ensures keys { self.new ≡ T.after_seal self.old frame.now result }
        ensures seal { out.new ≡ T.room_after self.old frame.now result out.old }
        ensures game { self.new.game ≡ self.old.game }
        ensures length { length out.new ≡ length out.old }
    {
        if frame.player() != self.player || frame.turn() >= self.session.turns() {
            return SealAnswer::Foreign;
        }
        let place = place_in(&self.session, frame);
        let message = message_of(&self.session, frame);
        if is_another(self.sealed[place as usize], &message) {
            return SealAnswer::Used;
        }
        self.put_seal(&mut out.bytes, place, &message);
        self.sealed[place as usize] = Some(message);
        SealAnswer::Done
    }

    /// The seed, of which nobody else may know.
    pub(crate) fn seed(&self) -> &[u8; 32]
        ensures { result.now ≡ self.now.seed }
    {
        &self.seed
    }

    /// The session of the keys.
    pub(crate) fn session(&self) -> &Session
        ensures { result.now ≡ self.now.game }
    {
        &self.session
    }
}
