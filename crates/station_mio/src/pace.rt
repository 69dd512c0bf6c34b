//! When something is due, so that nothing is done without a pause.

ghost use Rattle.std.specs.Prelude.{◌≡◌, max, get_or, slice_set, replicate};
ghost use Rattle.station_mio.specs.Waiting.{Ticks, after_by};

use definitions::PlayerId;
use machine_host::Host;

/// How long a poll waits at most, and how long a player isn't dialled again, in milliseconds.
pub const PAUSE: u64 = 100;

/// How long an address may leave a dial without an answer, in milliseconds.
pub const PATIENCE: u64 = 3_000;

/// How long the end of a station waits for the others, in milliseconds.
pub const LINGER: u64 = 1_000;

/// The milliseconds since some start. A clock that can't be read makes everything due.
pub(crate) fn now<H: Host>(host: &mut H) -> u64
    ensures { Ticks (H.history host.old) (H.history host.new) result }
{
    match host.clock() {
        Ok(millis) => millis,
        Err(_) => u64::MAX,
    }
}

/// So many milliseconds after a time.
pub(crate) fn after(time: u64, millis: u64) -> u64
    ensures { result ≡ after_by time millis }
{
    time.saturating_add(millis)
}

/// When each player may be dialled again.
#[derive(Drop)]
pub(crate) struct Pace {
    pub(crate) due: [u64; 256],
}

impl Pace {
    /// All of them at once.
    pub(crate) fn new() -> Pace
        ensures { result.due ≡ replicate 256 0 }
    {
        Pace { due: [0; 256] }
    }

    /// When a dial of this player is due that is asked for now. Its next one is due a pause later.
    pub(crate) fn take(&mut self, player: PlayerId, now: u64) -> u64
        ensures due { result ≡ max (get_or self.old.due player 0) now }
        ensures next { self.new.due ≡ slice_set self.old.due player (after_by result PAUSE) }
    {
        let due = self.due[player as usize].max(now);
        self.due[player as usize] = after(due, PAUSE);
        due
    }
}
