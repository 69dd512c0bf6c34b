//! How long a poll waits.

ghost use Rattle.std.specs.Prelude.{◌≡◌};
ghost use Rattle.post_mio.specs.Mails.{WaitsFor, patience_of};

use arrayvec::ArrayVec;
use machine_host::Host;

/// How long a poll waits at most for a datagram, in milliseconds.
pub const PAUSE: u64 = 95;

/// How long it rests then, whatever comes, in milliseconds.
pub const REST: u64 = 5;

/// How long a poll waits for a datagram. Where more may be left it doesn't wait, since readiness is
/// told once only.
pub(crate) fn patience(has_more: bool) -> u64
    ensures { result ≡ patience_of has_more }
{
    if has_more { 0 } else { PAUSE }
}

/// Waits so many milliseconds at most, and says whether it could.
pub(crate) fn wait<H: Host>(host: &mut H, selector: &mut H::Selector, millis: u64) -> bool
    ensures { WaitsFor millis result (H.history host.old) (H.history host.new) }
{
    let mut tokens = ArrayVec::new();
    host.wait(selector, millis, &mut tokens).is_ok()
}
