//! Which calls of a machine are refused.

ghost use Rattle.std.specs.Prelude.{◌≡◌, length, vec_len};

use machine_host::HostFault;

/// A kind of call.
#[derive(Clone, Copy, Debug, PartialEq, Eq)]
pub enum Call {
    Clock,
    Select,
    Listen,
    WatchListener,
    Accept,
    Connect,
    Watch,
    Wait,
    Read,
    Write,
    EndWrites,
    Create,
    OpenFolder,
    Append,
    SyncFile,
    SyncFolder,
    Bind,
    WatchMailbox,
    Receive,
    Send,
}

/// One call that is refused.
#[derive(Clone, Copy)]
pub struct Refusal {
    /// Which kind of call it is.
    pub call: Call,
    /// The how-manieth of that kind it is from now on. At 0 it was refused already.
    pub turn: u32,
    /// What it answers.
    pub fault: HostFault,
}

/// A call of this kind is made: says whether it is this one that is refused, and by which fault.
fn count(refusal: &mut Refusal, call: Call) -> Option<HostFault> {
    if refusal.call != call || refusal.turn == 0 {
        return None;
    }
    refusal.turn -= 1;
    if refusal.turn == 0 {
        Some(refusal.fault)
    } else {
        None
    }
}

/// A call of this kind is made: says whether it is refused, and by which fault. The last refusal
/// that names it counts.
pub(crate) fn refusal_of(refusals: &mut Vec<Refusal>, call: Call) -> Option<HostFault> {
    let mut found = None;
    for refusal in refusals.iter_mut() {
        if let Some(fault) = count(refusal, call) {
            found = Some(fault);
        }
    }
    found
}
