//! The log of a station over a machine in memory: short appends, a full disk, and crashes.

use crate::other_side::refuse;
use machine_host::HostFault;
use memory_host::{Call, Machine, MemoryHost};
use socket_station::{Did, Station};
use station_mio::MioStation;
use std::cell::RefCell;
use std::test::Fail;

fn machine_of(rt: &HostRuntime) -> RefCell<Machine> {
    RefCell::new(Machine::new(rt.alloc()))
}

/// Each append takes so many bytes at most, and there is room for so many.
fn limit(machine: &RefCell<Machine>, most: usize, room: usize) {
    if let Ok(mut machine) = machine.try_borrow_mut() {
        machine.log.most = most;
        machine.log.room = room;
    }
}

/// A file of this name is there. It says whether there was memory for that.
fn have(machine: &RefCell<Machine>, name: &[u8]) -> bool {
    match machine.try_borrow_mut() {
        Err(_) => false,
        Ok(mut machine) => machine.have(name).is_ok(),
    }
}

/// Whether a crash would leave a file with these bytes.
fn leaves(machine: &RefCell<Machine>, bytes: &[u8]) -> bool {
    match machine.try_borrow_mut() {
        Err(_) => false,
        Ok(machine) => match machine.log.image() {
            None => false,
            Some(image) => image == bytes,
        },
    }
}

/// Whether these bytes stand in the file.
fn holds(machine: &RefCell<Machine>, bytes: &[u8]) -> bool {
    match machine.try_borrow_mut() {
        Err(_) => false,
        Ok(machine) => machine.log.bytes.as_slice() == bytes,
    }
}

#[test]
fn appends_all_in_short_pieces(rt: HostRuntime) -> Result<(), Fail> {
    let machine = machine_of(&rt);
    limit(&machine, 2, 7);
    let mut station = MioStation::new(MemoryHost::new(&machine), rt.alloc())?;
    assert!(rt; station.log_to(b"a/log") == Did::Done);
    assert!(rt; station.keep(b"hello") == Did::Done);
    assert!(rt; !leaves(&machine, b""));
    assert!(rt; station.sync() == Did::Done);
    assert!(rt; leaves(&machine, b"hello"));
    // there is room for two more, and the log is over then
    assert!(rt; station.keep(b"abc") == Did::Failed);
    assert!(rt; holds(&machine, b"helloab"));
    assert!(rt; station.sync() == Did::Failed);
    assert!(rt; leaves(&machine, b"hello"));
    Ok(())
}

#[test]
fn leaves_a_file_that_is_there(rt: HostRuntime) -> Result<(), Fail> {
    let machine = machine_of(&rt);
    assert!(rt; have(&machine, b"log"));
    let mut station = MioStation::new(MemoryHost::new(&machine), rt.alloc())?;
    assert!(rt; station.log_to(b"log") == Did::Failed);
    assert!(rt; station.keep(b"a") == Did::Failed);
    assert!(rt; station.log_to(b"new") == Did::Done);
    assert!(rt; station.log_to(b"other") == Did::Failed);
    Ok(())
}

#[test]
fn says_nothing_is_synced_where_the_folder_is_not(rt: HostRuntime) -> Result<(), Fail> {
    let machine = machine_of(&rt);
    assert!(rt; refuse(&machine, Call::SyncFolder, HostFault::Other));
    let mut station = MioStation::new(MemoryHost::new(&machine), rt.alloc())?;
    assert!(rt; station.log_to(b"log") == Did::Done);
    assert!(rt; station.keep(b"a") == Did::Done);
    assert!(rt; station.sync() == Did::Failed);
    assert!(rt; !leaves(&machine, b"a"));
    assert!(rt; station.sync() == Did::Failed);
    Ok(())
}
