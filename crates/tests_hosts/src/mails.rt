//! Datagrams over a machine in memory: what comes, what goes, how long a poll lasts, and what is refused.

use crate::other_side::{file_mode, millis, narrow, post, refuse, sent_count, was_sent};
use datagram_post::{Post, Received, Sent};
use machine_host::HostFault;
use memory_host::{Call, Machine, MemoryHost};
use post_mio::MioPost;
use socket_station::{Addr, Did};
use std::cell::RefCell;
use std::test::Fail;

/// An address that nothing depends on.
const HERE: Addr = Addr {
    ip: [127, 0, 0, 1],
    port: 4000,
};

const THERE: Addr = Addr {
    ip: [10, 1, 2, 3],
    port: 5000,
};

fn machine_of(rt: &HostRuntime) -> RefCell<Machine> {
    RefCell::new(Machine::new(rt.alloc()))
}

/// What the next receive answers.
fn receives(mails: &mut MioPost<MemoryHost<'_>>) -> Received {
    let mut buf = [0; 128];
    mails.receive(&mut buf)
}

/// Whether a receive takes so many bytes, which are all this one.
fn takes(mails: &mut MioPost<MemoryHost<'_>>, count: usize, byte: u8) -> bool {
    let mut buf = [byte ^ 1; 128];
    if mails.receive(&mut buf) != Received::Took(count) {
        return false;
    }
    match buf.get(..count) {
        None => false,
        Some(taken) => taken.iter().all(|b| *b == byte),
    }
}

/// How many milliseconds a poll lasts, if it can.
fn lasts(machine: &RefCell<Machine>, mails: &mut MioPost<MemoryHost<'_>>) -> Option<u64> {
    let start = millis(machine);
    match mails.poll() {
        Did::Done => millis(machine).checked_sub(start),
        Did::Failed => None,
    }
}

#[test]
fn carries_datagrams_both_ways(rt: HostRuntime) -> Result<(), Fail> {
    let machine = machine_of(&rt);
    let mut mails = MioPost::new(MemoryHost::new(&machine));
    assert!(rt; mails.bind(HERE) == Did::Done);
    assert!(rt; receives(&mut mails) == Received::NotYet);
    assert!(rt; post(&machine, b"aaa"));
    assert!(rt; post(&machine, b"bb"));
    assert!(rt; takes(&mut mails, 3, b'a'));
    assert!(rt; takes(&mut mails, 2, b'b'));
    assert!(rt; receives(&mut mails) == Received::NotYet);
    assert!(rt; mails.send(THERE, b"cdef") == Sent::Gave);
    assert!(rt; was_sent(&machine, THERE, b"cdef"));
    assert!(rt; mails.send(HERE, b"g") == Sent::Gave);
    assert!(rt; was_sent(&machine, HERE, b"g"));
    Ok(())
}

#[test]
fn cuts_a_long_datagram_and_takes_an_empty_one(rt: HostRuntime) -> Result<(), Fail> {
    let machine = machine_of(&rt);
    let mut mails = MioPost::new(MemoryHost::new(&machine));
    assert!(rt; mails.bind(HERE) == Did::Done);
    assert!(rt; post(&machine, &[b'x'; 200]));
    assert!(rt; post(&machine, b""));
    assert!(rt; takes(&mut mails, 128, b'x'));
    assert!(rt; receives(&mut mails) == Received::Took(0));
    assert!(rt; receives(&mut mails) == Received::NotYet);
    assert!(rt; mails.send(THERE, b"") == Sent::Gave);
    assert!(rt; was_sent(&machine, THERE, b""));
    Ok(())
}

#[test]
fn a_part_that_is_sent_is_a_fault(rt: HostRuntime) -> Result<(), Fail> {
    let machine = machine_of(&rt);
    let mut mails = MioPost::new(MemoryHost::new(&machine));
    assert!(rt; mails.bind(HERE) == Did::Done);
    narrow(&machine, 0);
    assert!(rt; mails.send(THERE, b"abc") == Sent::NotYet);
    assert!(rt; sent_count(&machine) == 0);
    narrow(&machine, 2);
    assert!(rt; mails.send(THERE, b"abc") == Sent::Failed);
    assert!(rt; mails.send(THERE, b"ab") == Sent::Gave);
    assert!(rt; was_sent(&machine, THERE, b"ab"));
    Ok(())
}

#[test]
fn binds_once_and_again_behind_a_refusal(rt: HostRuntime) -> Result<(), Fail> {
    let machine = machine_of(&rt);
    let mut mails = MioPost::new(MemoryHost::new(&machine));
    assert!(rt; mails.poll() == Did::Failed);
    assert!(rt; receives(&mut mails) == Received::Failed);
    assert!(rt; mails.send(THERE, b"a") == Sent::Failed);
    assert!(rt; refuse(&machine, Call::Select, HostFault::Full));
    assert!(rt; mails.bind(HERE) == Did::Failed);
    assert!(rt; refuse(&machine, Call::Bind, HostFault::InUse));
    assert!(rt; mails.bind(HERE) == Did::Failed);
    assert!(rt; refuse(&machine, Call::WatchMailbox, HostFault::Other));
    assert!(rt; mails.bind(HERE) == Did::Failed);
    assert!(rt; receives(&mut mails) == Received::Failed);
    assert!(rt; mails.bind(HERE) == Did::Done);
    assert!(rt; mails.bind(THERE) == Did::Failed);
    assert!(rt; receives(&mut mails) == Received::NotYet);
    Ok(())
}

#[test]
fn a_fault_ends_nothing(rt: HostRuntime) -> Result<(), Fail> {
    let machine = machine_of(&rt);
    let mut mails = MioPost::new(MemoryHost::new(&machine));
    assert!(rt; mails.bind(HERE) == Did::Done);
    assert!(rt; post(&machine, b"aaa"));
    assert!(rt; refuse(&machine, Call::Receive, HostFault::Refused));
    assert!(rt; receives(&mut mails) == Received::Failed);
    assert!(rt; takes(&mut mails, 3, b'a'));
    assert!(rt; refuse(&machine, Call::Send, HostFault::Refused));
    assert!(rt; mails.send(THERE, b"b") == Sent::Failed);
    assert!(rt; mails.send(THERE, b"b") == Sent::Gave);
    assert!(rt; refuse(&machine, Call::Wait, HostFault::Other));
    assert!(rt; mails.poll() == Did::Failed);
    assert!(rt; mails.poll() == Did::Done);
    Ok(())
}

#[test]
fn a_poll_waits_for_datagrams_and_rests(rt: HostRuntime) -> Result<(), Fail> {
    let machine = machine_of(&rt);
    let mut mails = MioPost::new(MemoryHost::new(&machine));
    assert!(rt; mails.bind(HERE) == Did::Done);
    assert!(rt; lasts(&machine, &mut mails) == Some(100));
    assert!(rt; post(&machine, b"aaa"));
    assert!(rt; post(&machine, b"bb"));
    assert!(rt; lasts(&machine, &mut mails) == Some(5));
    // one may be left behind one that was taken, of which no wait tells any more
    assert!(rt; takes(&mut mails, 3, b'a'));
    assert!(rt; lasts(&machine, &mut mails) == Some(5));
    assert!(rt; takes(&mut mails, 2, b'b'));
    assert!(rt; receives(&mut mails) == Received::NotYet);
    assert!(rt; lasts(&machine, &mut mails) == Some(100));
    Ok(())
}

#[test]
fn keeps_and_syncs_a_log_for_its_owner_alone(rt: HostRuntime) -> Result<(), Fail> {
    let machine = machine_of(&rt);
    let mut mails = MioPost::new(MemoryHost::new(&machine));
    assert!(rt; mails.keep(b"a") == Did::Failed);
    assert!(rt; mails.sync() == Did::Failed);
    assert!(rt; mails.log_to(b"a/log") == Did::Done);
    assert!(rt; file_mode(&machine) == 0o600);
    assert!(rt; mails.log_to(b"other") == Did::Failed);
    assert!(rt; mails.keep(b"hello") == Did::Done);
    assert!(rt; mails.sync() == Did::Done);
    Ok(())
}

#[test]
fn a_log_is_over_where_a_keep_or_a_sync_fails(rt: HostRuntime) -> Result<(), Fail> {
    let machine = machine_of(&rt);
    let mut mails = MioPost::new(MemoryHost::new(&machine));
    assert!(rt; mails.log_to(b"log") == Did::Done);
    assert!(rt; refuse(&machine, Call::Append, HostFault::Full));
    assert!(rt; mails.keep(b"a") == Did::Failed);
    assert!(rt; mails.keep(b"a") == Did::Failed);
    assert!(rt; mails.sync() == Did::Failed);
    let other = machine_of(&rt);
    let mut others = MioPost::new(MemoryHost::new(&other));
    assert!(rt; others.log_to(b"log") == Did::Done);
    assert!(rt; others.keep(b"a") == Did::Done);
    assert!(rt; refuse(&other, Call::SyncFile, HostFault::Other));
    assert!(rt; others.sync() == Did::Failed);
    assert!(rt; others.sync() == Did::Failed);
    assert!(rt; others.keep(b"b") == Did::Failed);
    Ok(())
}
