//! What C calls to seal frames with a player's keys, and to judge seals.

ghost use Rattle.std.specs.Prelude.{◌≡◌, ◌≢◌, ◌⊎◌, Some, None, length, pos};
ghost use Rattle.grid_world.specs.Reading.{game_at};
ghost use Rattle.lethwyrn_c.specs.Calls as C;
ghost use Rattle.lethwyrn_c.specs.Sealing as L;

use crate::codes;
use crate::exports::read;
use crate::sealer::Sealer;
use crate::seals_handle::{SealsHandle, open, shut};
use crate::views::Refusal;
use std::alloc::Global;

/// Puts a sealer into a handle that has none, if there is memory for it.
fn settle(alloc: Global, handle: &mut SealsHandle, sealer: Sealer) -> i32
    ensures made { result ≡ pos 0 → handle.new.value ≡ Some sealer }
    ensures refused { result ≢ pos 0 → handle.new.value ≡ handle.old.value }
    ensures code { (result ≡ pos 0) ⊎ (result ≡ pos 2) }
{
    match Box::new(alloc, sealer) {
        Err(_) => codes::NO_MEMORY,
        Ok(sealer) => {
            shut(handle, sealer);
            codes::OK
        }
    }
}

/// Makes what judges seals of the session with this text. The handle has nothing before.
#[unsafe(no_mangle)]
pub extern "C" fn lethwyrn_seals_make(
    alloc: Global,
    handle: &mut SealsHandle,
    text: &[u8],
    why: &mut Refusal,
) -> i32
    ensures code { C.IsDue handle.old.value (C.session_code (λ game. 0) (game_at text.now)) result }
    ensures made { result ≡ pos 0 → C.IsThere (L.IsJudge text.now) handle.new.value }
    ensures refused { result ≢ pos 0 → handle.new.value ≡ handle.old.value }
    ensures why { result ≡ pos 3 → why.new ≡ C.session_told (game_at text.now) why.old }
    ensures unsaid { result ≢ pos 3 → why.new ≡ why.old }
{
    if let Some(old) = open(alloc, handle) {
        shut(handle, old);
        return codes::IN_USE;
    }
    let session = match read(alloc, text, why) {
        Ok(session) => session,
        Err(code) => return code,
    };
    match Sealer::judge(alloc, session) {
        Err(_) => codes::NO_MEMORY,
        Ok(sealer) => settle(alloc, handle, sealer),
    }
}

/// Makes the same with the keys of a player by this seed. The handle has nothing before.
#[unsafe(no_mangle)]
pub extern "C" fn lethwyrn_seals_keys(
    alloc: Global,
    handle: &mut SealsHandle,
    text: &[u8],
    player: u8,
    seed: &[u8; 32],
    why: &mut Refusal,
) -> i32
    ensures code { C.IsDue handle.old.value (C.make_code text.now player) result }
    ensures made { result ≡ pos 0 → C.IsThere (L.HasKeys text.now player seed.now) handle.new.value }
    ensures refused { result ≢ pos 0 → handle.new.value ≡ handle.old.value }
    ensures why { result ≡ pos 3 → why.new ≡ C.session_told (game_at text.now) why.old }
    ensures unsaid { result ≢ pos 3 → why.new ≡ why.old }
{
    if let Some(old) = open(alloc, handle) {
        shut(handle, old);
        return codes::IN_USE;
    }
    let session = match read(alloc, text, why) {
        Ok(session) => session,
        Err(code) => return code,
    };
    if player >= session.players() {
        return codes::BAD_PLAYER;
    }
    match Sealer::of_player(alloc, session, player, seed) {
        Err(_) => codes::NO_MEMORY,
        Ok(sealer) => settle(alloc, handle, sealer),
    }
}

/// How many bytes a seal of the session has.
#[unsafe(no_mangle)]
pub extern "C" fn lethwyrn_seal_len(
    alloc: Global,
    handle: &mut SealsHandle,
    count: &mut usize,
) -> i32
    ensures code { result ≡ pos (L.code_or L.session_there handle.old.value) }
    ensures count { count.new ≡ C.told_or L.len_told handle.old.value 0 }
    ensures same { handle.new.value ≡ handle.old.value }
{
    *count = 0;
    let Some(sealer) = open(alloc, handle) else {
        return codes::NO_SEALS;
    };
    *count = sealer.seal_len();
    shut(handle, sealer);
    codes::OK
}

/// Writes the root of the player's keys.
#[unsafe(no_mangle)]
pub extern "C" fn lethwyrn_root(alloc: Global, handle: &mut SealsHandle, out: &mut [u8; 32]) -> i32
    ensures code { result ≡ pos (L.code_or L.root_code handle.old.value) }
    ensures root { out.new ≡ C.told_or L.root_told handle.old.value out.old }
    ensures same { handle.new.value ≡ handle.old.value }
{
    let Some(sealer) = open(alloc, handle) else {
        return codes::NO_SEALS;
    };
    let code = sealer.root(out);
    shut(handle, sealer);
    code
}

/// Seals the player's frame that the bytes spell, and writes its seal, where there is room for it.
#[unsafe(no_mangle)]
pub extern "C" fn lethwyrn_seal(
    alloc: Global,
    handle: &mut SealsHandle,
    frame: &[u8],
    out: &mut [u8],
    count: &mut usize,
) -> i32
    ensures code { result ≡ pos (L.code_or (L.seal_code frame.now (length out.old)) handle.old.value) }
    ensures state { handle.new.value ≡ C.then_or (L.after_sealing frame.now (length out.old)) handle.old.value }
    ensures out { out.new ≡ C.told_or (L.seal_told frame.now) handle.old.value out.old }
    ensures count { count.new ≡ C.told_or (L.seal_count frame.now (length out.old)) handle.old.value 0 }
{
    *count = 0;
    let Some(mut sealer) = open(alloc, handle) else {
        return codes::NO_SEALS;
    };
    let code = sealer.seal(frame, out, count);
    shut(handle, sealer);
    code
}

/// Whether the seal is valid under this root for the frame that the bytes spell. It doesn't ask
/// whose frame it is.
#[unsafe(no_mangle)]
pub extern "C" fn lethwyrn_valid(
    alloc: Global,
    handle: &mut SealsHandle,
    root: &[u8; 32],
    frame: &[u8],
    seal: &[u8],
) -> i32
    ensures code { result ≡ pos (L.code_or (L.valid_code root.now frame.now seal.now) handle.old.value) }
    ensures same { handle.new.value ≡ handle.old.value }
{
    let Some(mut sealer) = open(alloc, handle) else {
        return codes::NO_SEALS;
    };
    let code = sealer.valid(root, frame, seal);
    shut(handle, sealer);
    code
}

/// Gives the memory of the session and the keys back. A handle without a session stays so.
#[unsafe(no_mangle)]
pub extern "C" fn lethwyrn_seals_free(alloc: Global, handle: &mut SealsHandle)
    ensures { handle.new.value ≡ None }
{
    drop(open(alloc, handle));
}
