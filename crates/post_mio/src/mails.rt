//! The datagrams of a post: what they come and go by, and whether more may be left.

ghost use Rattle.std.specs.Prelude.{◌≡◌, is_ok, length, true};
ghost use Rattle.datagram_post.specs.Withins.{TakesWithin};
ghost use Rattle.host_log.specs.Logs.{LogsTo, Keeps, SyncsTo, logged_on, kept_on, synced_on};
ghost use Rattle.post_mio.specs.Mails.{Binds, BindsTo, Waits, WaitsTwice, PollsTo, Receives, ReceivesOne, ReceivesTo, Sends, SendsOne, SendsTo, received_of, sent_of, has_taken, fresh};

use crate::pace::{REST, patience, wait};
use datagram_post::{Received, Sent};
use host_log::HostLog;
use machine_host::{Answer, Host, HostFault};
use socket_station::Addr;
use std::marker::Model;

/// What stands at an address: what waits report that datagrams may be there, what is waited on for
/// a rest alone, and what the datagrams come and go by.
#[derive(Drop)]
struct Bound<H: Host> {
    wakes: H::Selector,
    rests: H::Selector,
    mailbox: H::Mailbox,
}

/// The datagrams of a machine. They are seen as what the machine was asked, and how they stand.
#[derive(Drop)]
pub(crate) struct Mails<H: Host> {
    host: H,
    bound: Option<Bound<H>>,
    // whether the last receive since the last poll took a datagram
    has_more: bool,
}

impl<H: Host> Model for Mails<H> {
    ghost use Rattle.std.specs.Prelude.{is_some};
    ghost use Rattle.post_mio.specs.Mails.{MailState};

    ghost Value = { MailState };

    ghost view = { λ m. record { asks = H.history m.host; is_bound = is_some m.bound; has_more = m.has_more } };
}

/// Makes all that stands at the address.
fn bind_at<H: Host>(host: &mut H, addr: Addr) -> Answer<Bound<H>>
    ensures { Binds addr (is_ok result) (H.history host.old) (H.history host.new) }
{
    let mut wakes = host.select()?;
    let rests = host.select()?;
    let mut mailbox = host.bind(addr)?;
    host.watch_mailbox(&mut wakes, &mut mailbox)?;
    Ok(Bound {
        wakes,
        rests,
        mailbox,
    })
}

/// What a receive comes to.
fn received_of(answer: Answer<usize>) -> Received
    ensures { result ≡ received_of answer }
{
    match answer {
        Ok(count) => Received::Took(count),
        Err(HostFault::WouldBlock) => Received::NotYet,
        Err(_) => Received::Failed,
    }
}

/// What a send of so many bytes comes to.
fn sent_of(answer: Answer<usize>, len: usize) -> Sent
    ensures { result ≡ sent_of answer len }
{
    match answer {
        Ok(count) => {
            if count == len {
                Sent::Gave
            } else {
                Sent::Failed
            }
        }
        Err(HostFault::WouldBlock) => Sent::NotYet,
        Err(_) => Sent::Failed,
    }
}

/// Whether a receive took a datagram.
fn has_taken(received: Received) -> bool
    ensures { result ≡ has_taken received }
{
    match received {
        Received::Took(_) => true,
        Received::NotYet => false,
        Received::Failed => false,
    }
}

/// Waits for a datagram so many milliseconds at most, and then for a rest. It says whether it could
/// both.
fn wait_twice<H: Host>(host: &mut H, bound: &mut Bound<H>, millis: u64) -> bool
    ensures { WaitsTwice millis result (H.history host.old) (H.history host.new) }
{
    let has_waited = wait(host, &mut bound.wakes, millis);
    let has_rested = wait(host, &mut bound.rests, REST);
    has_waited && has_rested
}

/// Takes the next datagram.
fn receive_one<H: Host>(host: &mut H, bound: &mut Bound<H>, buf: &mut [u8; 128]) -> Received
    ensures within { TakesWithin result }
    ensures receives { ReceivesOne result buf.new (H.history host.old) (H.history host.new) }
{
    received_of(host.receive(&mut bound.mailbox, buf))
}

/// Gives a datagram to the address.
fn send_one<H: Host>(host: &mut H, bound: &mut Bound<H>, addr: Addr, bytes: &[u8]) -> Sent
    ensures { SendsOne addr result bytes.now (H.history host.old) (H.history host.new) }
{
    sent_of(host.send(&mut bound.mailbox, addr, bytes), bytes.len())
}

impl<H: Host + Drop> Mails<H> {
    /// Nothing stands yet, and the machine is asked for nothing.
    pub(crate) fn new(host: H) -> Mails<H>
        ensures { result ≡ fresh (H.history host) }
    {
        Mails {
            host,
            bound: None,
            has_more: false,
        }
    }

    /// Receives and sends at this address from now on, unless it does so at one already. It says
    /// whether it could.
    pub(crate) fn bind(&mut self, addr: Addr) -> bool
        ensures { BindsTo self.old.is_bound addr result self.old self.new }
    {
        if self.bound.is_some() {
            return false;
        }
        match bind_at(&mut self.host, addr) {
            Err(_) => false,
            Ok(bound) => {
                self.bound = Some(bound);
                true
            }
        }
    }

    /// Whether it does so at one.
    fn is_bound(&self) -> bool
        ensures { result ≡ self.now.is_bound }
    {
        self.bound.is_some()
    }

    /// Waits for a datagram, and rests then, where something is bound.
    fn poll_now(&mut self) -> bool
        requires { self.old.is_bound ≡ true }
        ensures { Waits result self.old self.new }
    {
        let millis = patience(self.has_more);
        let Some(bound) = &mut self.bound else {
            return false;
        };
        self.has_more = false;
        wait_twice(&mut self.host, bound, millis)
    }

    /// Waits for a datagram, unless more may be left, and rests then. It says whether it could.
    pub(crate) fn poll(&mut self) -> bool
        ensures { PollsTo self.old.is_bound result self.old self.new }
    {
        if !self.is_bound() {
            return false;
        }
        self.poll_now()
    }

    /// Takes the next datagram, where something is bound.
    fn receive_now(&mut self, buf: &mut [u8; 128]) -> Received
        requires { self.old.is_bound ≡ true }
        ensures within { TakesWithin result }
        ensures receives { Receives result buf.new self.old self.new }
    {
        let Some(bound) = &mut self.bound else {
            return Received::Failed;
        };
        let received = receive_one(&mut self.host, bound, buf);
        self.has_more = has_taken(received);
        received
    }

    /// Takes the next datagram, or the first bytes of a longer one.
    pub(crate) fn receive(&mut self, buf: &mut [u8; 128]) -> Received
        ensures within { TakesWithin result }
        ensures receives { ReceivesTo self.old.is_bound result buf.new self.old self.new }
    {
        if !self.is_bound() {
            return Received::Failed;
        }
        self.receive_now(buf)
    }

    /// Gives a datagram to the address, where something is bound.
    fn send_now(&mut self, addr: Addr, bytes: &[u8]) -> Sent
        requires { self.old.is_bound ≡ true }
        ensures { Sends addr result bytes.now self.old self.new }
    {
        let Some(bound) = &mut self.bound else {
            return Sent::Failed;
        };
        send_one(&mut self.host, bound, addr, bytes)
    }

    /// Gives a datagram to the address.
    pub(crate) fn send(&mut self, addr: Addr, bytes: &[u8]) -> Sent
        ensures { SendsTo self.old.is_bound addr result bytes.now self.old self.new }
    {
        if !self.is_bound() {
            return Sent::Failed;
        }
        self.send_now(addr, bytes)
    }

    /// Begins the log, unless one was begun.
    pub(crate) fn begin(&mut self, log: &mut HostLog<H::File, H::Folder>, name: &[u8]) -> bool
        ensures asked { LogsTo name.now log.old.begun result self.old.asks self.new.asks }
        ensures stands { log.new ≡ logged_on result log.old }
        ensures same { self.new ≡ record self.old { asks = self.new.asks } }
    {
        log.begin(&mut self.host, name)
    }

    /// Appends all these bytes to the log.
    pub(crate) fn append(&mut self, log: &mut HostLog<H::File, H::Folder>, bytes: &[u8]) -> bool
        ensures asked { Keeps bytes.now log.old.file result self.old.asks self.new.asks }
        ensures stands { log.new ≡ kept_on result log.old }
        ensures same { self.new ≡ record self.old { asks = self.new.asks } }
    {
        log.append(&mut self.host, bytes)
    }

    /// What was appended to the log stays after a crash.
    pub(crate) fn sync(&mut self, log: &mut HostLog<H::File, H::Folder>) -> bool
        ensures asked { SyncsTo log.old.file result self.old.asks self.new.asks }
        ensures stands { log.new ≡ synced_on result log.old }
        ensures same { self.new ≡ record self.old { asks = self.new.asks } }
    {
        log.sync(&mut self.host)
    }
}
