//! Sockets over a machine in memory: what comes, what goes, and what is refused.

use crate::other_side::{Act, bring, does, is_closed, knock, millis, refuse, was_given};
use machine_host::HostFault;
use memory_host::{Call, Machine, MemoryHost};
use socket_station::{Addr, Dial, Ready, ReadyList, SocketRead, SocketWrite};
use station_mio::sockets::Sockets;
use std::cell::RefCell;
use std::test::Fail;

/// An address that nothing depends on.
const HERE: Addr = Addr {
    ip: [127, 0, 0, 1],
    port: 4000,
};

fn machine_of(rt: &HostRuntime) -> RefCell<Machine> {
    RefCell::new(Machine::new(rt.alloc()))
}

/// Whether the next poll lists exactly this.
fn lists(sockets: &mut Sockets<MemoryHost<'_>>, item: Ready) -> bool {
    let mut ready = ReadyList::new();
    sockets.poll(&mut ready);
    ready.as_slice() == [item].as_slice()
}

/// Whether the next poll lists nothing.
fn lists_nothing(sockets: &mut Sockets<MemoryHost<'_>>) -> bool {
    let mut ready = ReadyList::new();
    sockets.poll(&mut ready);
    ready.as_slice().is_empty()
}

/// Whether a read of socket 0 takes these three bytes.
fn takes(sockets: &mut Sockets<MemoryHost<'_>>, bytes: [u8; 3]) -> bool {
    let mut buf = [0; 3];
    sockets.read(0, &mut buf) == SocketRead::Took(3) && buf == bytes
}

/// What a read of socket 0 answers.
fn reads(sockets: &mut Sockets<MemoryHost<'_>>) -> SocketRead {
    let mut buf = [0; 3];
    sockets.read(0, &mut buf)
}

#[test]
fn carries_bytes_both_ways(rt: HostRuntime) -> Result<(), Fail> {
    let machine = machine_of(&rt);
    let mut sockets = Sockets::new(rt.alloc(), MemoryHost::new(&machine))?;
    assert!(rt; sockets.listen(HERE).is_ok());
    knock(&machine);
    assert!(rt; lists(&mut sockets, Ready::Opened(0)));
    assert!(rt; lists(&mut sockets, Ready::Socket(0)));
    assert!(rt; reads(&mut sockets) == SocketRead::NotYet);
    assert!(rt; bring(&machine, 0, b"one"));
    assert!(rt; lists(&mut sockets, Ready::Socket(0)));
    assert!(rt; takes(&mut sockets, *b"one"));
    assert!(rt; sockets.write(0, b"two") == SocketWrite::Gave(3));
    assert!(rt; was_given(&machine, 0, b"two"));
    assert!(rt; does(&machine, 0, Act::End));
    assert!(rt; reads(&mut sockets) == SocketRead::Ended);
    assert!(rt; is_closed(&machine, 0));
    Ok(())
}

#[test]
fn gives_as_much_as_there_is_room_for(rt: HostRuntime) -> Result<(), Fail> {
    let machine = machine_of(&rt);
    let mut sockets = Sockets::new(rt.alloc(), MemoryHost::new(&machine))?;
    assert!(rt; sockets.dial(1, HERE) == Dial::Socket(0));
    assert!(rt; does(&machine, 0, Act::Limit(0)));
    assert!(rt; sockets.write(0, b"abc") == SocketWrite::NotYet);
    assert!(rt; does(&machine, 0, Act::Answer));
    assert!(rt; sockets.write(0, b"abc") == SocketWrite::NotYet);
    assert!(rt; does(&machine, 0, Act::Limit(2)));
    assert!(rt; lists(&mut sockets, Ready::Socket(0)));
    assert!(rt; sockets.write(0, b"abc") == SocketWrite::Gave(2));
    assert!(rt; was_given(&machine, 0, b"ab"));
    Ok(())
}

#[test]
fn accepts_again_after_a_refusal(rt: HostRuntime) -> Result<(), Fail> {
    let machine = machine_of(&rt);
    let mut sockets = Sockets::new(rt.alloc(), MemoryHost::new(&machine))?;
    assert!(rt; sockets.listen(HERE).is_ok());
    assert!(rt; refuse(&machine, Call::Accept, HostFault::Other));
    knock(&machine);
    assert!(rt; lists_nothing(&mut sockets));
    assert!(rt; lists(&mut sockets, Ready::Opened(0)));
    Ok(())
}

#[test]
fn gives_up_who_never_answers(rt: HostRuntime) -> Result<(), Fail> {
    let machine = machine_of(&rt);
    let mut sockets = Sockets::new(rt.alloc(), MemoryHost::new(&machine))?;
    assert!(rt; sockets.dial(1, HERE) == Dial::Socket(0));
    for _ in 0..29u32 {
        assert!(rt; lists_nothing(&mut sockets));
    }
    assert!(rt; reads(&mut sockets) == SocketRead::NotYet);
    assert!(rt; millis(&machine) == 2900);
    assert!(rt; lists(&mut sockets, Ready::Socket(0)));
    assert!(rt; reads(&mut sockets) == SocketRead::Failed);
    assert!(rt; is_closed(&machine, 0));
    Ok(())
}

#[test]
fn fails_where_the_other_side_breaks(rt: HostRuntime) -> Result<(), Fail> {
    let machine = machine_of(&rt);
    let mut sockets = Sockets::new(rt.alloc(), MemoryHost::new(&machine))?;
    assert!(rt; sockets.dial(1, HERE) == Dial::Socket(0));
    assert!(rt; does(&machine, 0, Act::Break(HostFault::Refused)));
    assert!(rt; lists(&mut sockets, Ready::Socket(0)));
    assert!(rt; sockets.write(0, b"a") == SocketWrite::Failed);
    assert!(rt; is_closed(&machine, 0));
    assert!(rt; reads(&mut sockets) == SocketRead::Failed);
    Ok(())
}
