//! A file of sealed frames comes in pieces.

ghost use Rattle.std.specs.Prelude.{◌≡◌, ◌<◌, ◌≤◌, [], None, drop, length, OnOk};
ghost use Rattle.accuser.specs.Feeds as F;
ghost use Rattle.accuser.specs.Taking.{IsOf, Leaves};

use crate::taker::{FrontFault, Taker, take_front};
use auditor::MOST_LOGS;
use grid_world::Session;
use sealed_evidence::Roots;
use std::alloc::{AllocError, Global};
use std::marker::Model;

/// How far a file of sealed frames is, of which the bytes come in pieces.
#[derive(Drop)]
pub(crate) struct Feed {
    // what came of a sealed frame that isn't whole yet
    pending: Vec<u8>,
    // how many bytes of the file came before
    at: u32,
    // the first byte of the file at which no sealed frame stands, once one was found
    bad: Option<u32>,
}

impl Model for Feed {
    ghost use Rattle.accuser.specs.Feeds.{Feeding};

    ghost Value = { Feeding };

    ghost view = { λ f. record { pending = f.pending.items; at = f.at; bad = f.bad } };
}

/// Takes so many bytes off the front.
fn drop_front(bytes: &mut Vec<u8>, count: usize)
    requires { count ≤ length bytes.old.items }
    ensures { bytes.new.items ≡ drop count bytes.old.items }
{
    bytes.drain(..count);
}

impl Feed {
    /// Nothing came yet.
    pub(crate) fn new(alloc: Global) -> Feed
        ensures { result ≡ record { pending = []; at = 0; bad = None } }
    {
        Feed {
            pending: Vec::new(alloc),
            at: 0,
            bad: None,
        }
    }

    /// Takes more bytes of the file, and of all that came the sealed frames that are whole. Once
    /// there is a byte at which none stands, nothing more is taken. An error comes where memory is
    /// wanting.
    pub(crate) fn take(
        &mut self,
        taker: &mut Taker,
        session: &Session,
        roots: &Roots,
        file: u32,
        bytes: &[u8],
    ) -> Result<(), AllocError>
        requires file { file < MOST_LOGS }
        requires room { F.HasRoomFor taker.old file self.old (length bytes.now) }
        requires of_session { IsOf session.now taker.old }
        ensures fed { OnOk result (F.FeedsOn session.now roots.now taker.old taker.new file self.old self.new bytes.now) }
        ensures leaves { Leaves session.now taker.old taker.new file }
    {
        if self.bad.is_some() {
            return Ok(());
        }
        self.pending.extend_from_slice(bytes)?;
        match take_front(taker, session, roots, file, false, &self.pending) {
            Ok(count) => {
                drop_front(&mut self.pending, count);
                self.at += count as u32;
                Ok(())
            }
            Err(FrontFault::Stuck(at)) => {
                self.bad = Some(self.at + at);
                Ok(())
            }
            Err(FrontFault::Memory) => Err(AllocError),
        }
    }

    /// Takes what is left where the file has ended.
    pub(crate) fn finish(
        &self,
        taker: &mut Taker,
        session: &Session,
        roots: &Roots,
        file: u32,
    ) -> Result<(), FrontFault>
        requires file { file < MOST_LOGS }
        requires room { F.HasRoomFor taker.old file self.now 0 }
        requires of_session { IsOf session.now taker.old }
        ensures finishes { F.Finishes session.now roots.now taker.old taker.new file self.now result }
        ensures leaves { Leaves session.now taker.old taker.new file }
    {
        if let Some(at) = self.bad {
            return Err(FrontFault::Stuck(at));
        }
        match take_front(taker, session, roots, file, true, &self.pending) {
            Ok(_) => Ok(()),
            Err(FrontFault::Stuck(at)) => Err(FrontFault::Stuck(self.at + at)),
            Err(FrontFault::Memory) => Err(FrontFault::Memory),
        }
    }
}
