//! The files of a host by their names: one is open at a time, and each call reads once.

ghost use Rattle.std.specs.Prelude.{◌≡◌, ◌<◌, ◌≤◌, IfOk, IfSome, IsSomeAnd, true, length};
ghost use Rattle.station.specs.Outside.{one_more};
ghost use Rattle.machine_host.specs.Asks.{error_of, bytes_of};
ghost use Rattle.file_shelf.specs.Reading.{Opens, Reaches, ReadsAt, StandsSo, given_by, number_by};

use crate::hosts::{FileHost, Numbered};
use machine_host::HostFault;
use std::alloc::Global;
use std::marker::Model;

/// An open file, its name, if there was memory for it, and the place that its next read begins at.
#[derive(Drop)]
struct OpenFile<F> {
    name: Option<Vec<u8>>,
    next: u64,
    file: Numbered<F>,
}

/// The files of a host, of which the one that was read last is open. It is seen as what the host
/// was asked, and the number that the next file is opened under.
#[derive(Drop)]
pub(crate) struct Reader<H: FileHost> {
    host: H,
    next: u64,
    last: Option<OpenFile<H::File>>,
}

impl<H: FileHost> Model for Reader<H> {
    ghost use Rattle.std.specs.Prelude.{IfSome};
    ghost use Rattle.file_shelf.specs.Reading.{Reads, StandsSo};

    ghost Value = { Reads };

    ghost view = { λ r. record { asks = H.history r.host; next = r.next } };

    // The file stands as the host's history tells.
    ghost invariant = { λ r. IfSome r.last (λ held. IfSome held.name (λ kept. StandsSo kept.items held.file.number held.next (H.history r.host))) };
}

/// Whether a call for this name and place goes on in the file.
fn goes_on<F>(held: &OpenFile<F>, name: &[u8], at: u64) -> bool
    ensures { result ≡ true → IsSomeAnd held.now.name (λ kept. (kept.items ≡ name.now) × (held.now.next ≡ at)) }
{
    match &held.name {
        None => false,
        Some(kept) => kept.as_slice() == name && held.next == at,
    }
}

/// Opens the file of this name, under this number, at this place.
fn open_at<H: FileHost>(
    host: &mut H,
    number: u64,
    name: &[u8],
    at: u64,
) -> Result<Numbered<H::File>, HostFault>
    ensures opens { Opens number name.now at (error_of result) (H.history host.old) (H.history host.new) }
    ensures numbered { IfOk result (λ file. file.number ≡ number) }
{
    let mut file = host.open(number, name)?;
    host.seek(&mut file, at)?;
    Ok(file)
}

/// Opens the file of this name anew, under the next number. Without memory for its name it has
/// none.
fn reopen<H: FileHost>(
    alloc: Global,
    host: &mut H,
    next: &mut u64,
    name: &[u8],
    at: u64,
) -> Result<OpenFile<H::File>, HostFault>
    ensures opens { Opens next.old name.now at (error_of result) (H.history host.old) (H.history host.new) }
    ensures next { next.new ≡ one_more next.old }
    ensures numbered { IfOk result (λ held. held.file.number ≡ next.old) }
    ensures named { IfOk result (λ held. IfSome held.name (λ kept. kept.items ≡ name.now)) }
{
    let number = *next;
    *next = number.saturating_add(1);
    let file = open_at(host, number, name, at)?;
    Ok(OpenFile {
        name: Vec::from_slice(alloc, name).ok(),
        next: at,
        file,
    })
}

/// The file that was read last, where this call goes on in it, and else one that is opened.
fn file_for<H: FileHost>(
    alloc: Global,
    host: &mut H,
    next: &mut u64,
    last: Option<OpenFile<H::File>>,
    name: &[u8],
    at: u64,
) -> Result<OpenFile<H::File>, HostFault>
    requires stands { IfSome last (λ held. IfSome held.name (λ kept. StandsSo kept.items held.file.number held.next (H.history host.old))) }
    ensures reaches { Reaches name.now at (number_by (λ held. held.file.number) result) (record { asks = H.history host.old; next = next.old }) (record { asks = H.history host.new; next = next.new }) }
    ensures named { IfOk result (λ held. IfSome held.name (λ kept. kept.items ≡ name.now)) }
{
    if let Some(held) = last
        && goes_on(&held, name, at)
    {
        return Ok(held);
    }
    reopen(alloc, host, next, name, at)
}

/// Reads the bytes of the file of this name from the place `at` on, once. An error closes the file.
fn read_file<H: FileHost>(
    alloc: Global,
    host: &mut H,
    next: &mut u64,
    last: &mut Option<OpenFile<H::File>>,
    name: &[u8],
    at: u64,
    buf: &mut [u8],
) -> Result<usize, HostFault>
    requires some { 0 < length buf.old }
    requires stands { IfSome last.old (λ held. IfSome held.name (λ kept. StandsSo kept.items held.file.number held.next (H.history host.old))) }
    ensures within { IfOk result (λ count. count ≤ length buf.new) }
    ensures reads { ReadsAt name.now at (given_by (bytes_of result buf.new)) (record { asks = H.history host.old; next = next.old }) (record { asks = H.history host.new; next = next.new }) }
    ensures stands { IfSome last.new (λ held. IfSome held.name (λ kept. StandsSo kept.items held.file.number held.next (H.history host.new))) }
{
    let mut held = file_for(alloc, host, next, last.take(), name, at)?;
    let count = host.read(&mut held.file, buf)?;
    // After a place that no number says the file is closed.
    if let Some(end) = at.checked_add(count as u64) {
        held.next = end;
        *last = Some(held);
    }
    Ok(count)
}

impl<H: FileHost> Reader<H> {
    /// The files of this host, of which none is open.
    pub(crate) fn new(host: H) -> Reader<H>
        ensures { result ≡ record { asks = H.history host; next = 0 } }
    {
        Reader {
            host,
            next: 0,
            last: None,
        }
    }

    /// Reads the bytes of the file of this name from the place `at` on, once.
    pub(crate) fn read(
        &mut self,
        alloc: Global,
        name: &[u8],
        at: u64,
        buf: &mut [u8],
    ) -> Result<usize, HostFault>
        requires { 0 < length buf.old }
        ensures within { IfOk result (λ count. count ≤ length buf.new) }
        ensures reads { ReadsAt name.now at (given_by (bytes_of result buf.new)) self.old self.new }
    {
        read_file(
            alloc,
            &mut self.host,
            &mut self.next,
            &mut self.last,
            name,
            at,
            buf,
        )
    }
}
