//! What C calls to take what is to be stored and what is to be sent.

ghost use Rattle.std.specs.Prelude.{◌≡◌, ◌≢◌, pos, take};
ghost use Rattle.lethwyrn_c.specs.Calls as C;
ghost use Rattle.lethwyrn_c.specs.Sending as S;

use crate::codes;
use crate::handle::{Handle, open, shut};
use std::alloc::Global;

/// Hands out the bytes of the next entry of the log, which are to be stored behind those before.
#[unsafe(no_mangle)]
pub extern "C" fn lethwyrn_take_log(
    alloc: Global,
    handle: &mut Handle,
    out: &mut [u8; 96],
    count: &mut usize,
) -> i32
    ensures code { result ≡ pos (C.code_or S.entry_code handle.old.value) }
    ensures taken { result ≡ pos 0 → C.Behind (S.IsEntryTaken (take count.new out.new)) handle.old.value handle.new.value }
    ensures none { result ≢ pos 0 → (handle.new.value ≡ handle.old.value) × (count.new ≡ 0) × (out.new ≡ out.old) }
{
    *count = 0;
    let Some(mut seat) = open(alloc, handle) else {
        return codes::NO_PEER;
    };
    let code = seat.take_log(out, count);
    shut(handle, seat);
    code
}

/// Tells how many bytes of the log are durable: those that were handed out, from the first one on, and of a peer that goes on from a log those
/// of that log too. What is stored once stays so.
#[unsafe(no_mangle)]
pub extern "C" fn lethwyrn_stored(alloc: Global, handle: &mut Handle, bytes: u64) -> i32
    ensures code { result ≡ pos (C.code_or C.peer_code handle.old.value) }
    ensures stored { result ≡ pos 0 → C.Behind (S.IsStoredTo bytes) handle.old.value handle.new.value }
    ensures none { result ≢ pos 0 → handle.new.value ≡ handle.old.value }
{
    let Some(mut seat) = open(alloc, handle) else {
        return codes::NO_PEER;
    };
    seat.store(bytes);
    shut(handle, seat);
    codes::OK
}

/// Hands out the bytes of the next own frame, where the log's entries up to it are stored.
#[unsafe(no_mangle)]
pub extern "C" fn lethwyrn_take_frame(
    alloc: Global,
    handle: &mut Handle,
    out: &mut [u8; 64],
    count: &mut usize,
) -> i32
    ensures code { result ≡ pos (C.code_or S.frame_code handle.old.value) }
    ensures taken { result ≡ pos 0 → C.Behind (S.IsFrameTaken (take count.new out.new)) handle.old.value handle.new.value }
    ensures none { result ≢ pos 0 → (handle.new.value ≡ handle.old.value) × (count.new ≡ 0) × (out.new ≡ out.old) }
{
    *count = 0;
    let Some(mut seat) = open(alloc, handle) else {
        return codes::NO_PEER;
    };
    let code = seat.take_frame(out, count);
    shut(handle, seat);
    code
}

/// From now on frames are handed out from this place on.
#[unsafe(no_mangle)]
pub extern "C" fn lethwyrn_send_from(alloc: Global, handle: &mut Handle, place: u32) -> i32
    ensures code { result ≡ pos (C.code_or C.peer_code handle.old.value) }
    ensures state { handle.new.value ≡ C.then_or (C.sending_from place) handle.old.value }
{
    let Some(mut seat) = open(alloc, handle) else {
        return codes::NO_PEER;
    };
    seat.send_from(place);
    shut(handle, seat);
    codes::OK
}
