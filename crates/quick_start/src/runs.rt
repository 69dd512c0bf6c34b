//! Runs whose text goes to memory.

ghost use Rattle.std.specs.Prelude.{◌≡◌, []};

use file_shelf::FileShelf;
use machine_files::MachineFiles;
use mio_host::MioHost;
use peer_runs::run;
use post_mio::MioPost;
use rand_chacha::ChaCha20Rng;
use rand_core::SeedableRng;
use socket_station::Station;
use station::{MemorySink, MemorySource, Sink, Source};
use station_mio::MioStation;
use std::io;
use std::random::RandomSource;

/// More bytes than a run of an example writes.
const MOST: usize = 1_048_576;

/// How a run ended: its status, and what it wrote.
#[derive(Drop)]
pub(crate) struct Ran {
    pub(crate) status: u8,
    pub(crate) text: String,
}

/// The words of a line, which stand with a blank between each two.
fn split(rt: &HostRuntime, line: &str) -> io::Result<Vec<Vec<u8>>> {
    let mut words = Vec::new(rt.alloc());
    for word in line.split(' ') {
        words.push(Vec::from_slice(rt.alloc(), word.as_bytes())?)?;
    }
    Ok(words)
}

/// A generator that random bytes of the machine seed.
pub(crate) fn chance_of(rt: &HostRuntime) -> io::Result<ChaCha20Rng> {
    let mut seed = [0; 32];
    rt.fill_bytes(&mut seed)?;
    Ok(ChaCha20Rng::from_seed(seed))
}

/// Runs the words over this machine's files and datagrams, this station, input and output, and
/// gives the status.
fn run_at<I: Source, O: Sink, S: Station>(
    rt: &HostRuntime,
    words: &[Vec<u8>],
    input: &mut I,
    out: &mut O,
    station: &mut S,
) -> io::Result<u8>
    requires { S.history station.old ≡ [] }
{
    let alloc = rt.alloc();
    let mut shelf = FileShelf::new(alloc, MachineFiles::new(rt));
    let mut chance = chance_of(rt)?;
    let mut post = MioPost::new(MioHost::new(rt, alloc)?);
    let status = run(
        alloc,
        words,
        input,
        out,
        &mut shelf,
        station,
        &mut post,
        &mut chance,
    );
    Ok(status.code())
}

/// Runs the words over this machine's files and sockets, with this input and this output, and
/// gives the status.
pub(crate) fn run_over<I: Source, O: Sink>(
    rt: &HostRuntime,
    words: &[Vec<u8>],
    input: &mut I,
    out: &mut O,
) -> io::Result<u8> {
    let alloc = rt.alloc();
    let mut station = MioStation::new(MioHost::new(rt, alloc)?, alloc)?;
    let done = run_at(rt, words, input, out, &mut station);
    station.finish();
    done
}

/// Runs the words with no input.
pub(crate) fn run_words(rt: &HostRuntime, words: &[Vec<u8>]) -> io::Result<Ran> {
    let alloc = rt.alloc();
    let mut input = MemorySource::new(Vec::new(alloc), Vec::new(alloc));
    let mut out = MemorySink::new(alloc, MOST, Vec::new(alloc))?;
    let status = run_over(rt, words, &mut input, &mut out)?;
    let text = String::from_utf8_lossy(alloc, out.bytes())?;
    Ok(Ran { status, text })
}

/// Runs the words of a line.
pub(crate) fn run_line(rt: &HostRuntime, line: &str) -> io::Result<Ran> {
    let words = split(rt, line)?;
    run_words(rt, words.as_slice())
}
