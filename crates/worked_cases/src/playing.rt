//! A run of the program as a case asks for it.

ghost use Rattle.std.specs.Prelude.{◌≡◌, [], IfOk};

use crate::cases::{Fails, Run};
use crate::faults::Fault;
use crate::posts::CasePost;
use crate::sockets::CaseStation;
use datagram_post::Post;
use memory_post::MemoryPost;
use memory_station::MemoryStation;
use rand_core::SeedableRng;
use rand_pcg::Pcg32;
use run_frame::Status;
use socket_station::Station;
use station::{MemoryShelf, MemorySink, MemorySource};
use std::alloc::{AllocError, Global};

/// How many bytes a run may write.
const MOST_WRITTEN: usize = 2_097_152;

/// How many sockets are looked at after a run: those that a station has at most.
const MOST_SOCKETS: u32 = 512;

/// How a run ended: its status, what it wrote, how many polls it made, how many bytes it kept, how
/// many it gave on its first socket, how many datagrams it sent, which sockets are open, and the
/// station and the post that tell more.
#[derive(Drop)]
pub struct Ran {
    pub status: u8,
    pub text: Vec<u8>,
    pub polls: u32,
    pub kept: usize,
    pub given: usize,
    pub sent: usize,
    pub open: Vec<u32>,
    station: MemoryStation,
    post: MemoryPost,
}

/// The station of a run, to which nothing came yet.
fn bare_station(alloc: Global, asked: &Run) -> Result<MemoryStation, AllocError>
    ensures { IfOk result (λ station. station.book.history ≡ []) }
{
    let mut station = MemoryStation::new(alloc, asked.room, asked.carries)?;
    match asked.fails.station {
        None => Ok(station),
        Some(number) => {
            station.fail_call(number);
            Ok(station)
        }
    }
}

/// The station of a run, of which no call was made.
fn station_of(alloc: Global, asked: &Run) -> Result<CaseStation, Fault>
    ensures { IfOk result (λ station. station.memory.book.history ≡ []) }
{
    let mut station = CaseStation::over(alloc, bare_station(alloc, asked)?);
    'sockets: for socket in &asked.sockets {
        station.accept(alloc, socket)?;
    }
    'dialled: for socket in &asked.dialled {
        station.expect(alloc, socket)?;
    }
    Ok(station)
}

/// The post of a run, to which nothing came yet.
fn bare_post(alloc: Global, asked: &Run) -> Result<MemoryPost, AllocError>
    ensures { IfOk result (λ post. post.history ≡ []) }
{
    let mut post = MemoryPost::new(alloc, asked.room, asked.carries)?;
    match asked.fails.post {
        None => Ok(post),
        Some(number) => {
            post.fail_call(number);
            Ok(post)
        }
    }
}

/// The post of a run, of which no call was made. What comes before the first poll is there.
fn post_of(alloc: Global, asked: &Run) -> Result<CasePost, AllocError>
    ensures { IfOk result (λ post. post.memory.history ≡ []) }
{
    let mut post = CasePost::over(alloc, bare_post(alloc, asked)?);
    post.expect(alloc, asked.mails.as_slice())?;
    post.bring_due();
    Ok(post)
}

/// Runs the words over these objects, with nonces that are drawn of 7.
fn run_over(
    alloc: Global,
    words: &[Vec<u8>],
    input: &mut MemorySource,
    out: &mut MemorySink,
    shelf: &mut MemoryShelf,
    station: &mut CaseStation,
    post: &mut CasePost,
) -> Status
    requires unasked { ⟦<CaseStation as Station>⟧.history station.old ≡ [] }
    requires unposted { ⟦<CasePost as Post>⟧.history post.old ≡ [] }
{
    let mut chance = Pcg32::seed_from_u64(7);
    peer_cli::run(alloc, words, input, out, shelf, station, post, &mut chance)
}

/// The bytes that were given on a socket.
fn given_on(alloc: Global, station: &MemoryStation, socket: u32) -> Result<Vec<u8>, AllocError> {
    let mut given = Vec::new(alloc);
    let mut out = [0; 4096];
    for _piece in 0..u32::MAX {
        let count = station.given(socket, given.len(), &mut out);
        if count == 0 {
            break;
        }
        given.extend_from_slice(&out[..count.min(4096)])?;
    }
    Ok(given)
}

impl Ran {
    /// The bytes that were given on a socket, if it came to the station or was dialled.
    pub fn given_on(&self, alloc: Global, socket: u32) -> Result<Option<Vec<u8>>, AllocError> {
        if !self.station.is_known(socket) {
            return Ok(None);
        }
        let given = given_on(alloc, &self.station, socket)?;
        Ok(Some(given))
    }

    /// The port that the datagram of this number went to, counted from 0, and its bytes, if so many
    /// were sent.
    pub fn sent_at(&self, number: u32) -> Option<(u16, &[u8])> {
        if number >= self.post.sent() {
            return None;
        }
        Some((self.post.sent_to(number).port, self.post.sent_bytes(number)))
    }
}

/// The numbers of the sockets that are open.
fn open_in(alloc: Global, station: &MemoryStation) -> Result<Vec<u32>, Fault> {
    let mut open = Vec::new(alloc);
    for socket in 0..MOST_SOCKETS {
        if station.is_open(socket) {
            open.push(socket)?;
        }
    }
    Ok(open)
}

/// What shows of a run that ended so.
fn ran_of(
    alloc: Global,
    status: Status,
    out: &MemorySink,
    station: MemoryStation,
    post: CasePost,
) -> Result<Ran, Fault> {
    let text = Vec::from_slice(alloc, out.bytes())?;
    let status = status.code();
    let polls = station.polls().saturating_add(post.polls);
    let kept = station
        .kept()
        .len()
        .saturating_add(post.memory.kept().len());
    let sent = post.memory.sent() as usize;
    let given = given_on(alloc, &station, 0)?.len();
    let open = open_in(alloc, &station)?;
    Ok(Ran {
        status,
        text,
        polls,
        kept,
        given,
        sent,
        open,
        station,
        post: post.memory,
    })
}

/// Runs the program as a case asks for it, over this station and this post. It answers the status
/// and what was written.
fn run_on(
    alloc: Global,
    asked: Run,
    station: &mut CaseStation,
    post: &mut CasePost,
) -> Result<(Status, MemorySink), Fault>
    requires unasked { ⟦<CaseStation as Station>⟧.history station.old ≡ [] }
    requires unposted { ⟦<CasePost as Post>⟧.history post.old ≡ [] }
{
    let Run {
        words,
        files,
        input,
        fails,
        ..
    } = asked;
    let Fails {
        files: bad_files,
        input: bad_input,
        output: bad_output,
        ..
    } = fails;
    let mut input = MemorySource::new(input, bad_input);
    let mut out = MemorySink::new(alloc, MOST_WRITTEN, bad_output)?;
    let mut shelf = files.into_shelf(alloc, bad_files)?;
    let status = run_over(
        alloc,
        words.as_slice(),
        &mut input,
        &mut out,
        &mut shelf,
        station,
        post,
    );
    Ok((status, out))
}

/// Runs the program as a case asks for it, over a new station and this post.
fn play_with(alloc: Global, asked: Run, mut post: CasePost) -> Result<Ran, Fault>
    requires { ⟦<CasePost as Post>⟧.history post ≡ [] }
{
    let mut station = station_of(alloc, &asked)?;
    let (status, out) = run_on(alloc, asked, &mut station, &mut post)?;
    station.refuse_short()?;
    post.refuse_short()?;
    ran_of(alloc, status, &out, station.memory, post)
}

/// Runs the program as a case asks for it.
pub fn play(alloc: Global, asked: Run) -> Result<Ran, Fault> {
    let post = post_of(alloc, &asked)?;
    play_with(alloc, asked, post)
}
