//! What C calls to choose, to hear and to make frames.

ghost use Rattle.std.specs.Prelude.{◌≡◌, ◌≢◌, pos, take};
ghost use Rattle.lethwyrn_c.specs.Calls as C;
ghost use Rattle.lethwyrn_c.specs.Heard as H;

use crate::codes;
use crate::handle::{Handle, open, shut};
use crate::views::{GreetView, MoveView};
use definitions::{Cell, Move, Nonce};
use std::alloc::Global;

/// The move that C tells.
fn move_of(told: &MoveView) -> Move
    ensures { result ≡ C.move_of told.now }
{
    let strike = if told.strikes {
        Some(Cell {
            x: told.strike_x,
            y: told.strike_y,
        })
    } else {
        None
    };
    let to = Cell {
        x: told.x,
        y: told.y,
    };
    Move { to, strike }
}

/// Chooses the move of the next turn, with its nonce.
#[unsafe(no_mangle)]
pub extern "C" fn lethwyrn_choose(
    alloc: Global,
    handle: &mut Handle,
    mv: &MoveView,
    nonce: &[u8; 32],
) -> i32
    ensures code { result ≡ pos (C.code_or (C.choice_code (C.move_of mv.now)) handle.old.value) }
    ensures state { handle.new.value ≡ C.then_or (C.after_choice (C.move_of mv.now) nonce.now) handle.old.value }
{
    let Some(mut seat) = open(alloc, handle) else {
        return codes::NO_PEER;
    };
    let code = seat.choose(move_of(mv), Nonce { bytes: *nonce });
    shut(handle, seat);
    code
}

/// Reads on in the bytes that a player's link brought, up to the end of the first frame in them.
#[unsafe(no_mangle)]
pub extern "C" fn lethwyrn_hear(
    alloc: Global,
    handle: &mut Handle,
    from: u8,
    bytes: &[u8],
    used: &mut usize,
    greet: &mut GreetView,
) -> i32
    ensures code { result ≡ pos (C.code_or (H.hear_code from bytes.now) handle.old.value) }
    ensures used { used.new ≡ C.told_or (λ s zero. H.hear_used from bytes.now s) handle.old.value 0 }
    ensures greet { greet.new ≡ C.told_or (H.hear_greeting from bytes.now) handle.old.value greet.old }
    ensures state { handle.new.value ≡ C.then_or (H.hear_behind from bytes.now) handle.old.value }
{
    *used = 0;
    let Some(mut seat) = open(alloc, handle) else {
        return codes::NO_PEER;
    };
    let code = seat.hear(from, bytes, used, greet);
    shut(handle, seat);
    code
}

/// The link of a player begins anew: what came of a frame that was cut is forgotten.
#[unsafe(no_mangle)]
pub extern "C" fn lethwyrn_link(alloc: Global, handle: &mut Handle, player: u8) -> i32
    ensures code { result ≡ pos (C.code_or (H.link_code player) handle.old.value) }
    ensures state { handle.new.value ≡ C.then_or (H.link_behind player) handle.old.value }
{
    let Some(mut seat) = open(alloc, handle) else {
        return codes::NO_PEER;
    };
    let code = seat.relink(player);
    shut(handle, seat);
    code
}

/// Writes a hello for a player, which shows this pass and names the place wanted next of that player's stream.
#[unsafe(no_mangle)]
pub extern "C" fn lethwyrn_greet(
    alloc: Global,
    handle: &mut Handle,
    player: u8,
    pass: &[u8; 16],
    out: &mut [u8; 64],
    count: &mut usize,
) -> i32
    ensures code { result ≡ pos (C.code_or (C.known_code player) handle.old.value) }
    ensures same { handle.new.value ≡ handle.old.value }
    ensures hello { result ≡ pos 0 → C.IsThere (λ s. take count.new out.new ≡ C.hello player pass.now s) handle.old.value }
    ensures none { result ≢ pos 0 → (count.new ≡ 0) × (out.new ≡ out.old) }
{
    *count = 0;
    let Some(seat) = open(alloc, handle) else {
        return codes::NO_PEER;
    };
    let code = seat.greet(player, pass, out, count);
    shut(handle, seat);
    code
}

/// Makes every frame that is allowed by now, and says how far the peer came and how many frames these were.
#[unsafe(no_mangle)]
pub extern "C" fn lethwyrn_advance(alloc: Global, handle: &mut Handle, made: &mut u8) -> i32
    ensures code { result ≡ pos (C.code_or C.progress_code handle.old.value) }
    ensures state { handle.new.value ≡ C.then_or C.after_advance handle.old.value }
    ensures made { made.new ≡ C.made_told handle.old.value }
{
    *made = 0;
    let Some(mut seat) = open(alloc, handle) else {
        return codes::NO_PEER;
    };
    let code = seat.advance(made);
    shut(handle, seat);
    code
}
