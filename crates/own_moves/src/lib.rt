//! The own moves of a player, as a loop chooses them, and the own frames that they let be made.
//!
//! `choose_move` asks the pilot for one move, draws its nonce, and puts both into the peer's log,
//! or says why the move is not legal. `make_all` chooses so as long as a move may be chosen, and
//! makes each own frame that the protocol allows. It promises that own entries alone are added,
//! each in its order, and that then nothing more may be made or chosen. The choices among them are
//! the pilot's, with the nonces that the generator gives next. Both touch nothing but what they
//! are given, and take no memory.
#![tactic(auto)]

pub mod making;

pub use making::{Moves, choose_move, make_all};
