//! A word now and then while keys are made, which takes seconds for a long session.

use std::rt::Clock;
use std::sync::{Condvar, Mutex, Wait};
use std::thread;
use std::thread::Threads;
use std::time::Duration;

/// After how many seconds a word is given each time.
const EACH: u64 = 2;

/// How many words are given at most.
const MOST_WORDS: u64 = 1800;

/// Whether the words are of a command that makes keys.
pub(crate) fn makes_keys(words: &[Vec<u8>]) -> bool {
    match words {
        [name, ..] => {
            name.as_slice() == b"root".as_slice() || name.as_slice() == b"seal".as_slice()
        }
        [] => false,
    }
}

/// Waits until all is done, and says on the error stream every few seconds that it isn't.
fn tell_until_done<R: Wait + Clock + Eprint>(rt: &R, is_done: &Mutex<bool>, bell: &Condvar) {
    for count in 1..=MOST_WORDS {
        let each = Duration::from_secs(EACH);
        let waited = bell.wait_timeout_while(rt, is_done.lock(rt), each, |is_done| !*is_done);
        if !waited.1.timed_out() {
            return;
        }
        // A word that can't be written changes nothing of the run.
        let _unsaid = eprintln!(rt;
            "lethwyrn: making keys, {} s so far (8,192 turns take about 10 s)",
            count * EACH
        );
    }
}

/// What the work answers, and word of it on the error stream as long as it takes. Where no further
/// thread can be made, no word is given.
pub(crate) fn tell_while<R, T, F>(rt: &R, work: F) -> T
where
    R: Wait + Clock + Eprint + Threads + Sync,
    F: FnOnce() -> T,
    requires { (f : _) → F.pre f }
{
    let is_done = Mutex::new(false);
    let bell = Condvar::new();
    let (shared, ring) = (&is_done, &bell);
    thread::scope(thread::scope_env(), rt, |scope| {
        let _told = scope.spawn(move || tell_until_done(rt, shared, ring));
        let answer = work();
        *shared.lock(rt) = true;
        ring.notify_one();
        answer
    })
}
