//! Logs in files of the machine: no contract says what stands on a disk.

use mio_host::MioHost;
use socket_station::{Did, Station};
use station_mio::MioStation;
use std::env::temp_dir;
use std::os::unix::fs::PermissionsExt;
use std::test::Fail;
use std::{fs, process};

fn keep<S: Station>(station: &mut S, bytes: &[u8]) -> Did {
    station.keep(bytes)
}

fn sync<S: Station>(station: &mut S) -> Did {
    station.sync()
}

fn log_to<S: Station>(station: &mut S, name: &[u8]) -> Did {
    station.log_to(name)
}

/// Whether nothing is kept before there is a log.
fn keeps_nothing<S: Station>(station: &mut S) -> bool {
    keep(station, b"a") == Did::Failed && sync(station) == Did::Failed
}

/// Whether no log of that name is begun.
fn refuses<S: Station>(station: &mut S, name: &[u8]) -> bool {
    log_to(station, name) == Did::Failed
}

/// Whether no log is begun where there can be none.
fn refuses_all<S: Station>(station: &mut S) -> bool {
    refuses(station, b"not there/a.log") && refuses(station, b"\xff") && refuses(station, b"")
}

/// Whether the bytes are kept and synced.
fn keeps<S: Station>(station: &mut S, bytes: &[u8]) -> bool {
    keep(station, bytes) == Did::Done && sync(station) == Did::Done
}

/// Whether a log of five bytes is begun, kept in two pieces, and synced behind each.
fn keeps_five<S: Station>(station: &mut S, path: &str) -> bool {
    log_to(station, path.as_bytes()) == Did::Done && keeps(station, b"ab") && keeps(station, b"cde")
}

/// Whether nothing is kept before a log is begun, and then all is.
fn keeps_in_order<S: Station>(station: &mut S, path: &str) -> bool {
    keeps_nothing(station) && refuses_all(station) && keeps_five(station, path)
}

/// Whether the file has these five bytes.
fn has_five(rt: &HostRuntime, path: &str) -> Result<bool, Fail> {
    Ok(fs::read(rt, path)?.as_slice() == b"abcde".as_slice())
}

fn station_of(rt: &HostRuntime) -> Result<MioStation<MioHost<&HostRuntime>>, Fail> {
    let host = MioHost::new(rt, rt.alloc())?;
    Ok(MioStation::new(host, rt.alloc())?)
}

/// Whether no log is begun in a file that is there.
fn begins_none(rt: &HostRuntime, path: &str) -> Result<bool, Fail> {
    let mut station = station_of(rt)?;
    Ok(refuses(&mut station, path.as_bytes()))
}

/// A path in the folder of temporary files.
fn path_of(rt: &HostRuntime) -> Result<String, Fail> {
    let id = process::id(rt.process());
    let folder = temp_dir(rt)?;
    Ok(format!(in rt.alloc(); "{}/station_mio_{id}.log", folder.as_str())?)
}

/// Takes the file away, if it is there.
fn free(rt: &HostRuntime, path: &str) -> Result<(), Fail> {
    if fs::exists(rt, path)? {
        fs::remove_file(rt, path)?;
    }
    Ok(())
}

/// The path of a file that isn't there.
fn free_path(rt: &HostRuntime) -> Result<String, Fail> {
    let path = path_of(rt)?;
    free(rt, path.as_str())?;
    Ok(path)
}

/// Whether the file keeps its five bytes where no log is begun in it.
fn stays(rt: &HostRuntime, path: &str) -> Result<bool, Fail> {
    if !has_five(rt, path)? || !begins_none(rt, path)? {
        return Ok(false);
    }
    has_five(rt, path)
}

/// Whether nobody but its owner may read or write the file.
fn is_private(rt: &HostRuntime, path: &str) -> Result<bool, Fail> {
    let mode = fs::metadata(rt, path)?.permissions().mode();
    Ok(mode & 0o777 == 0o600)
}

/// Whether that path's log is kept for its owner alone, and stays as it is.
fn keeps_a_log(rt: &HostRuntime, path: &str) -> Result<bool, Fail> {
    let mut station = station_of(rt)?;
    if !keeps_in_order(&mut station, path) || !is_private(rt, path)? {
        return Ok(false);
    }
    stays(rt, path)
}

#[test]
fn keeps_a_log_in_a_new_file(rt: HostRuntime) -> Result<(), Fail> {
    let path = free_path(&rt)?;
    assert!(rt; keeps_a_log(&rt, path.as_str())?);
    fs::remove_file(&rt, path.as_str())?;
    Ok(())
}
