//! A run of a command over the machine's files and sockets. It is that of the program, but for the
//! words, which clap doesn't split here.

ghost use Rattle.std.specs.Prelude.{◌≡◌, []};

use datagram_post::Post;
use file_shelf::FileShelf;
use machine_files::MachineFiles;
use mio_host::MioHost;
use peer_runs::run;
use post_mio::MioPost;
use rand_chacha::ChaCha20Rng;
use rand_core::SeedableRng;
use station::{MemorySink, MemorySource};
use station_mio::MioStation;
use std::alloc::{AllocError, Global};

/// How a run ended: its status, and what it wrote.
#[derive(Drop)]
pub(crate) struct Ran {
    pub(crate) status: u8,
    pub(crate) text: Vec<u8>,
}

/// The words of a line, in which a blank stands between each two.
fn words_of(alloc: Global, line: &str) -> Result<Vec<Vec<u8>>, AllocError> {
    let mut words = Vec::new(alloc);
    for word in line.split(' ') {
        let word = Vec::from_slice(alloc, word.as_bytes())?;
        words.push(word)?;
    }
    Ok(words)
}

/// Runs these words over a post, of which no call was made, with nonces drawn of a number.
pub(crate) fn run_over<D: Post>(
    rt: &HostRuntime,
    line: &str,
    number: u64,
    post: &mut D,
) -> Result<Ran, AllocError>
    requires { D.history post.old ≡ [] }
{
    let alloc = rt.alloc();
    let words = words_of(alloc, line)?;
    let mut input = MemorySource::new(Vec::new(alloc), Vec::new(alloc));
    let mut out = MemorySink::new(alloc, 65_536, Vec::new(alloc))?;
    let mut shelf = FileShelf::new(alloc, MachineFiles::new(rt));
    let mut station = MioStation::new(MioHost::new(rt, alloc)?, alloc)?;
    let mut chance = ChaCha20Rng::seed_from_u64(number);
    let status = run(
        alloc,
        words.as_slice(),
        &mut input,
        &mut out,
        &mut shelf,
        &mut station,
        post,
        &mut chance,
    );
    station.finish();
    Ok(Ran {
        status: status.code(),
        text: Vec::from_slice(alloc, out.bytes())?,
    })
}

/// Runs these words, with nonces drawn of a number.
pub(crate) fn run_words(rt: &HostRuntime, line: &str, number: u64) -> Result<Ran, AllocError> {
    let mut post = MioPost::new(MioHost::new(rt, rt.alloc())?);
    run_over(rt, line, number, &mut post)
}
