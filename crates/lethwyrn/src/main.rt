//! The program `lethwyrn`. It makes the real objects of the outside, hands them with its words to
//! `peer_cli::exit_status`, whose contract says what is then written and with which status it ends,
//! and ends with that. It reads files, the standard input, its words and random bytes of the
//! machine, and writes to the standard output. Its `peer`, `post`, `watch` and `deposit` also open
//! sockets at the addresses of their roster, and the first two create the one file of their log.
//!
//! For people it says more on the error stream: that others can read a seed, where they can; while
//! keys are made, how long that takes; before a run, what of an older log will be dropped; and after
//! it why it ended so. None of that changes what it writes or its status.
#![tactic(auto)]

ghost use Rattle.std.specs.Prelude.{◌≡◌, []};

mod files;
mod older;
mod progress;
mod reasons;
mod seeds;
mod usage;

use datagram_post::Post;
use file_shelf::FileShelf;
use machine_files::MachineFiles;
use mio_host::MioHost;
use older::tell_of_older;
use peer_cli::exit_status;
use post_mio::MioPost;
use progress::{makes_keys, tell_while};
use rand_chacha::ChaCha20Rng;
use rand_core::SeedableRng;
use reasons::{has_log, tell_reason};
use run_frame::{Status, refuse};
use seeds::warn_of_open_seed;
use socket_station::Station;
use station::{StdSink, StdSource, words_of};
use station_mio::MioStation;
use std::alloc::AllocError;
use std::io::{self, ErrorKind};
use std::process::ExitCode;
use std::random::RandomSource;

/// The status where the machine refuses the program its words, or random bytes.
const REFUSED: u8 = 15;

/// A generator that random bytes of the machine seed, unless it refuses them.
fn chance_of(rt: &HostRuntime) -> Option<ChaCha20Rng> {
    let mut seed = [0; 32];
    match rt.fill_bytes(&mut seed) {
        Ok(()) => Some(ChaCha20Rng::from_seed(seed)),
        Err(_) => None,
    }
}

/// Tells that memory is wanting, by the line and the number of that status.
fn tell_no_memory<W: io::Write>(out: &mut StdSink<W>) -> u8 {
    refuse(Status::NoMemory, out).code()
}

/// Does what the words ask for, over this station and this post.
fn obey_over<S: Station, D: Post, W: io::Write>(
    rt: &HostRuntime,
    words: &[Vec<u8>],
    out: &mut StdSink<W>,
    station: &mut S,
    post: &mut D,
) -> u8
    requires first { S.history station.old ≡ [] }
    requires unposted { D.history post.old ≡ [] }
{
    let Some(mut chance) = chance_of(rt) else {
        return REFUSED;
    };
    warn_of_open_seed(rt, words);
    tell_of_older(rt, words);
    let was_there = has_log(rt, words);
    let mut input = StdSource::new(rt.reader());
    let mut shelf = FileShelf::new(rt.alloc(), MachineFiles::new(rt));
    let status = exit_status(
        rt.alloc(),
        words,
        &mut input,
        out,
        &mut shelf,
        station,
        post,
        &mut chance,
    );
    tell_reason(rt, words, status, was_there);
    status
}

/// Does what the words ask for, over this station and a post of the machine.
fn obey_at<S: Station, W: io::Write>(
    rt: &HostRuntime,
    words: &[Vec<u8>],
    out: &mut StdSink<W>,
    station: &mut S,
) -> Result<u8, AllocError>
    requires { S.history station.old ≡ [] }
{
    let mut post = MioPost::new(MioHost::new(rt, rt.alloc())?);
    Ok(obey_over(rt, words, out, station, &mut post))
}

/// Does what the words ask for. Memory is wanting only before anything is done.
fn obey<W: io::Write>(
    rt: &HostRuntime,
    words: &[Vec<u8>],
    out: &mut StdSink<W>,
) -> Result<u8, AllocError> {
    let mut station = MioStation::new(MioHost::new(rt, rt.alloc())?, rt.alloc())?;
    let done = obey_at(rt, words, out, &mut station);
    station.finish();
    done
}

fn main(rt: HostRuntime) -> ExitCode {
    let mut out = StdSink::new(io::writer(&rt));
    let status = match words_of(&rt) {
        Ok(words) => {
            let words = words.as_slice();
            let done = if makes_keys(words) {
                tell_while(&rt, || obey(&rt, words, &mut out))
            } else {
                obey(&rt, words, &mut out)
            };
            match done {
                Ok(status) => status,
                Err(_) => tell_no_memory(&mut out),
            }
        }
        Err(error) if error.kind() == ErrorKind::OutOfMemory => tell_no_memory(&mut out),
        Err(_) => REFUSED,
    };
    ExitCode::from(status)
}
