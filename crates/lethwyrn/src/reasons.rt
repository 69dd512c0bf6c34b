//! Why a run ended so, in words, for whoever reads the error stream. What the program writes and
//! with which status it ends is said elsewhere; nothing here changes it.

use crate::files::{reason_of, tell_texts, tell_unread};
use crate::usage::{name_in, tell_usage};
use command_names::Name;
use machine_host::text_of;
use std::io::{self, ErrorKind};
use std::net::{Ipv4Addr, SocketAddr, TcpListener, UdpSocket};
use std::{fs, str};

/// Of a run that begins a log, the path of that.
fn log_in(words: &[Vec<u8>]) -> Option<&str> {
    match (name_in(words)?, words) {
        (Name::Peer | Name::Post, [_, _, _, _, _, _, log, ..]) => text_of(log.as_slice()).ok(),
        _ => None,
    }
}

/// Whether the file of the log that a run is to begin is there already.
pub(crate) fn has_log(rt: &HostRuntime, words: &[Vec<u8>]) -> bool {
    match log_in(words) {
        None => false,
        Some(path) => fs::metadata(rt, path).is_ok(),
    }
}

/// Says why the log couldn't be begun or kept.
fn tell_unkept(rt: &HostRuntime, words: &[Vec<u8>], was_there: bool) {
    let Some(path) = log_in(words) else {
        return;
    };
    if was_there {
        let _unsaid = eprintln!(rt;
            "lethwyrn: {path} is there already, and was left as it is: name another file"
        );
        return;
    }
    match fs::metadata(rt, path) {
        Ok(_) => {
            let _unsaid = eprintln!(rt;
                "lethwyrn: {path} couldn't be written or synced to its end: is the disk full?"
            );
        }
        Err(_) => {
            let why = match fs::metadata(rt, folder_of(path)) {
                Ok(_) => "its folder is there, but no file can be made in it",
                Err(error) => reason_of(&error),
            };
            let _unsaid = eprintln!(rt; "lethwyrn: {path} couldn't be begun: {why}");
        }
    }
}

/// The folder that a file of this path is made in.
fn folder_of(path: &str) -> &str {
    match path.rsplit_once('/') {
        None => ".",
        Some(("", _)) => "/",
        Some((folder, _)) => folder,
    }
}

/// The own address in a roster's text.
fn own_address(text: &str) -> Option<SocketAddr> {
    let line = text.lines().nth(1)?;
    let (ip, port) = line.strip_prefix("me ")?.split_once(' ')?;
    let ip = ip.parse::<Ipv4Addr>().ok()?;
    let port = port.parse::<u16>().ok()?;
    Some(SocketAddr::from((ip, port)))
}

/// The own address of a run that hears at one.
fn address_in(rt: &HostRuntime, words: &[Vec<u8>]) -> Option<SocketAddr> {
    let [_, _, roster, ..] = words else {
        return None;
    };
    let path = text_of(roster.as_slice()).ok()?;
    let bytes = fs::read(rt, path).ok()?;
    own_address(str::from_utf8(bytes.as_slice()).ok()?)
}

/// Why an address can't be heard at, if it can't.
fn refusal_of<T: Drop>(bound: &io::Result<T>) -> Option<&'static str> {
    match bound {
        Ok(_) => None,
        Err(error) => Some(match error.kind() {
            ErrorKind::AddrInUse => "something else hears there",
            ErrorKind::AddrNotAvailable => "it is no address of this machine",
            ErrorKind::PermissionDenied => "the machine doesn't allow it",
            _ => "the machine can't",
        }),
    }
}

/// Says why the own address couldn't be heard at.
fn tell_unheard(rt: &HostRuntime, words: &[Vec<u8>]) {
    let Some(name) = name_in(words) else {
        return;
    };
    let Some(address) = address_in(rt, words) else {
        return;
    };
    let why = match name {
        Name::Peer | Name::Watch => refusal_of(&TcpListener::bind(rt, address)),
        Name::Post => refusal_of(&UdpSocket::bind(rt, address)),
        _ => None,
    };
    match why {
        Some(why) => {
            let _unsaid = eprintln!(rt; "lethwyrn: {address} can't be heard at: {why}");
        }
        None => {
            let _unsaid = eprintln!(rt; "lethwyrn: the machine refused to wait for the others");
        }
    }
    if let Some(log) = log_in(words) {
        let _unsaid = eprintln!(rt;
            "lethwyrn: {log} was begun: name another file, and this one as OLD if it has bytes"
        );
    }
}

/// Says why a run of these words ended with this status, as far as that can be seen now.
/// `was_there` says whether the file of the log stood there before the run.
pub(crate) fn tell_reason(rt: &HostRuntime, words: &[Vec<u8>], status: u8, was_there: bool) {
    match status {
        2 => tell_usage(rt, words),
        3 | 11 => tell_texts(rt, words),
        4 => tell_unread(rt, words),
        8 => tell_unkept(rt, words, was_there),
        9 => tell_unheard(rt, words),
        _ => {}
    }
}
