//! Machines in memory: what a test makes them refuse, and what it reads off them.

use machine_host::HostFault;
use memory_host::{Call, Machine};
use std::alloc::Global;
use std::cell::RefCell;
use std::test::Fail;

/// Four machines that nothing was asked of.
pub(crate) fn machines_of(alloc: Global) -> [RefCell<Machine>; 4] {
    [
        RefCell::new(Machine::new(alloc)),
        RefCell::new(Machine::new(alloc)),
        RefCell::new(Machine::new(alloc)),
        RefCell::new(Machine::new(alloc)),
    ]
}

/// What stands in the machine's log.
pub(crate) fn log_of(machine: &RefCell<Machine>) -> Result<Vec<u8>, Fail> {
    match machine.try_borrow_mut() {
        Err(_) => Err("a machine that is in use".into()),
        Ok(machine) => Ok(machine.log.bytes.clone()?),
    }
}

/// What a crash leaves of it.
pub(crate) fn image_of(alloc: Global, machine: &RefCell<Machine>) -> Result<Vec<u8>, Fail> {
    match machine.try_borrow_mut() {
        Err(_) => Err("a machine that is in use".into()),
        Ok(machine) => match machine.log.image() {
            None => Err("no log".into()),
            Some(image) => Ok(Vec::from_slice(alloc, image)?),
        },
    }
}

/// How many sockets of the machine are open, and on how many no more is given.
pub(crate) fn open_and_ended(machine: &RefCell<Machine>) -> (usize, usize) {
    match machine.try_borrow_mut() {
        Err(_) => (0, 0),
        Ok(machine) => {
            let lines = machine.lines.iter();
            let open = lines.filter(|line| !line.is_closed).count();
            let lines = machine.lines.iter();
            let ended = lines.filter(|line| line.writes_ended).count();
            (open, ended)
        }
    }
}

/// The milliseconds since the machine's start.
pub(crate) fn millis(machine: &RefCell<Machine>) -> u64 {
    match machine.try_borrow_mut() {
        Err(_) => 0,
        Ok(machine) => machine.millis,
    }
}

/// Each append takes so many bytes at most, and there is room for so many.
pub(crate) fn narrow_log(machine: &RefCell<Machine>, most: usize, room: usize) {
    if let Ok(mut machine) = machine.try_borrow_mut() {
        machine.log.most = most;
        machine.log.room = room;
    }
}

/// Of the machine's calls of this kind, the one of this number answers this fault.
pub(crate) fn refuse(
    machine: &RefCell<Machine>,
    call: Call,
    turn: u32,
    fault: HostFault,
) -> Result<(), Fail> {
    match machine.try_borrow_mut() {
        Err(_) => Err("a machine that is in use".into()),
        Ok(mut machine) => {
            machine.refuse(call, turn, fault)?;
            Ok(())
        }
    }
}
