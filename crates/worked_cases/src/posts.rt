//! The post of a case: one in memory, to which datagrams come as the case says.

ghost use Rattle.std.specs.Prelude.{◌≡◌};

use crate::cases::Mail;
use crate::faults::Fault;
use bytes::Bytes;
use datagram_post::{Post, Received, Sent};
use memory_post::MemoryPost;
use socket_station::{Addr, Did};
use std::alloc::{AllocError, Global};

/// A datagram that is still to come.
#[derive(Drop)]
struct Coming {
    /// Before which poll it comes, counted from 0.
    poll: u32,
    bytes: Bytes,
}

/// A post in memory, and the datagrams that are still to come. Each call is answered as the post in
/// memory answers it.
#[derive(Drop)]
pub struct CasePost {
    pub memory: MemoryPost,
    /// The datagrams, the last one first.
    coming: Vec<Coming>,
    /// How many polls were made.
    pub polls: u32,
    /// Whether there was room for all that came.
    has_room: bool,
}

impl CasePost {
    /// The post, to which no datagram is to come.
    pub fn over(alloc: Global, memory: MemoryPost) -> CasePost
        ensures { result.memory ≡ memory }
    {
        CasePost {
            memory,
            coming: Vec::new(alloc),
            polls: 0,
            has_room: true,
        }
    }

    /// These datagrams are to come, in this order, each before the poll that it names.
    pub fn expect(&mut self, alloc: Global, mails: &[Mail]) -> Result<(), AllocError>
        ensures { self.new.memory ≡ self.old.memory }
    {
        'mails: for mail in mails.iter().rev() {
            let bytes = Bytes::copy_from_slice(alloc, mail.bytes.as_slice())?;
            let poll = mail.poll;
            self.coming.push(Coming { poll, bytes })?;
        }
        Ok(())
    }

    /// Refuses a run in which there wasn't room for all that was to come.
    pub fn refuse_short(&self) -> Result<(), Fault> {
        if self.has_room {
            Ok(())
        } else {
            Err(Fault::Wanted("at most 65536 datagrams"))
        }
    }

    /// The next datagram comes, if it does before this poll. It says whether one came.
    fn bring_next(&mut self) -> bool
        ensures { self.new.memory.history ≡ self.old.memory.history }
    {
        match self.coming.last() {
            Some(coming) if coming.poll <= self.polls => {}
            _ => return false,
        }
        match self.coming.pop() {
            None => false,
            Some(coming) => {
                self.has_room = self.memory.bring(coming.bytes).is_ok() && self.has_room;
                true
            }
        }
    }

    /// All datagrams come that do before this poll.
    pub fn bring_due(&mut self)
        ensures { self.new.memory.history ≡ self.old.memory.history }
    {
        'mails: for _mail in 0..self.coming.len() {
            if !self.bring_next() {
                return;
            }
        }
    }
}

impl Post for CasePost {
    ghost history = { λ p. p.memory.history };

    fn bind(&mut self, addr: Addr) -> Did {
        self.memory.bind(addr)
    }

    fn log_to(&mut self, name: &[u8]) -> Did {
        self.memory.log_to(name)
    }

    fn poll(&mut self) -> Did {
        self.polls = self.polls.saturating_add(1);
        self.bring_due();
        self.memory.poll()
    }

    fn receive(&mut self, buf: &mut [u8; 128]) -> Received {
        self.memory.receive(buf)
    }

    fn send(&mut self, addr: Addr, bytes: &[u8]) -> Sent {
        self.memory.send(addr, bytes)
    }

    fn keep(&mut self, bytes: &[u8]) -> Did {
        self.memory.keep(bytes)
    }

    fn sync(&mut self) -> Did {
        self.memory.sync()
    }
}
