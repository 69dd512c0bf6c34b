//! What a test does to a machine from the other side of its sockets.

use machine_host::HostFault;
use memory_host::{Call, Line, Machine};
use socket_station::{Addr, SocketId};
use std::cell::RefCell;

/// One more connection waits to be accepted.
pub(crate) fn knock(machine: &RefCell<Machine>) {
    if let Ok(mut machine) = machine.try_borrow_mut() {
        machine.knock();
    }
}

/// The next call of this kind answers this fault. It says whether there was memory for that.
pub(crate) fn refuse(machine: &RefCell<Machine>, call: Call, fault: HostFault) -> bool {
    match machine.try_borrow_mut() {
        Err(_) => false,
        Ok(mut machine) => machine.refuse(call, 1, fault).is_ok(),
    }
}

/// The other side of this socket sends bytes. It says whether it could.
pub(crate) fn bring(machine: &RefCell<Machine>, number: SocketId, bytes: &[u8]) -> bool {
    match machine.try_borrow_mut() {
        Err(_) => false,
        Ok(mut machine) => match machine.line(number) {
            None => false,
            Some(line) => line.bring(bytes).is_ok(),
        },
    }
}

/// What the other side of a socket may do.
#[derive(Drop)]
pub(crate) enum Act {
    Answer,
    End,
    Break(HostFault),
    Limit(usize),
}

fn act_on(line: &mut Line, act: Act) {
    match act {
        Act::Answer => line.answer(),
        Act::End => line.end(),
        Act::Break(fault) => line.break_by(fault),
        Act::Limit(room) => line.limit(room),
    }
}

/// The other side of this socket does something. It says whether there is such a socket.
pub(crate) fn does(machine: &RefCell<Machine>, number: SocketId, act: Act) -> bool {
    match machine.try_borrow_mut() {
        Err(_) => false,
        Ok(mut machine) => match machine.line(number) {
            None => false,
            Some(line) => {
                act_on(line, act);
                true
            }
        },
    }
}

/// Whether the other side of this socket was given these bytes, and nothing else.
pub(crate) fn was_given(machine: &RefCell<Machine>, number: SocketId, bytes: &[u8]) -> bool {
    match machine.try_borrow_mut() {
        Err(_) => false,
        Ok(mut machine) => match machine.line(number) {
            None => false,
            Some(line) => line.given.as_slice() == bytes,
        },
    }
}

/// Whether this socket was closed.
pub(crate) fn is_closed(machine: &RefCell<Machine>, number: SocketId) -> bool {
    match machine.try_borrow_mut() {
        Err(_) => false,
        Ok(mut machine) => match machine.line(number) {
            None => false,
            Some(line) => line.is_closed,
        },
    }
}

/// The milliseconds since the machine's start.
pub(crate) fn millis(machine: &RefCell<Machine>) -> u64 {
    match machine.try_borrow_mut() {
        Err(_) => 0,
        Ok(machine) => machine.millis,
    }
}

/// The other side sends a datagram. It says whether there was memory for that.
pub(crate) fn post(machine: &RefCell<Machine>, bytes: &[u8]) -> bool {
    match machine.try_borrow_mut() {
        Err(_) => false,
        Ok(mut machine) => machine.mailbox.bring(bytes).is_ok(),
    }
}

/// So many bytes of a datagram go at most from now on.
pub(crate) fn narrow(machine: &RefCell<Machine>, room: usize) {
    if let Ok(mut machine) = machine.try_borrow_mut() {
        machine.mailbox.room = room;
    }
}

/// How many datagrams were given.
pub(crate) fn sent_count(machine: &RefCell<Machine>) -> usize {
    match machine.try_borrow_mut() {
        Err(_) => 0,
        Ok(machine) => machine.mailbox.given.len(),
    }
}

/// Whether the last datagram that was given had these bytes and went to this address.
pub(crate) fn was_sent(machine: &RefCell<Machine>, addr: Addr, bytes: &[u8]) -> bool {
    match machine.try_borrow_mut() {
        Err(_) => false,
        Ok(machine) => match machine.mailbox.given.last() {
            None => false,
            Some(datagram) => datagram.addr == addr && datagram.bytes.as_slice() == bytes,
        },
    }
}

/// The mode of the file that was created last.
pub(crate) fn file_mode(machine: &RefCell<Machine>) -> u32 {
    match machine.try_borrow_mut() {
        Err(_) => 0,
        Ok(machine) => machine.log.mode,
    }
}
