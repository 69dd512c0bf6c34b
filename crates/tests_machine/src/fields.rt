//! A match on disk: a folder with a session, and the rosters and moves of its programs, at addresses of this machine that are free.

use std::env::temp_dir;
use std::net::{Ipv4Addr, SocketAddr, TcpListener};
use std::test::Fail;
use std::{fs, process};

/// The folder of a match, and the ports that its programs listen at.
#[derive(Drop)]
pub(crate) struct Field {
    pub(crate) folder: String,
    pub(crate) ports: [u16; 4],
}

/// Four ports that nobody listens at.
fn free_ports(rt: &HostRuntime) -> Result<[u16; 4], Fail> {
    let mut ports = [0; 4];
    let mut listeners = Vec::new(rt.alloc());
    for port in &mut ports {
        let listener = TcpListener::bind(rt, SocketAddr::from((Ipv4Addr::LOCALHOST, 0)))?;
        *port = listener.local_addr()?.port();
        listeners.push(listener)?;
    }
    Ok(ports)
}

/// A new folder of that name, with this session.
pub(crate) fn field_of(rt: &HostRuntime, name: &str, session: &str) -> Result<Field, Fail> {
    let id = process::id(rt.process());
    let place = temp_dir(rt)?;
    let folder = format!(in rt.alloc(); "{}/lethwyrn_{name}_{id}", place.as_str())?;
    if fs::exists(rt, folder.as_str())? {
        fs::remove_dir_all(rt, folder.as_str())?;
    }
    fs::create_dir(rt, folder.as_str())?;
    let path = format!(in rt.alloc(); "{folder}/session")?;
    fs::write(rt, path.as_str(), session)?;
    Ok(Field {
        folder,
        ports: free_ports(rt)?,
    })
}

/// The line of a roster by which player `me` finds player `other` at a port.
fn line_of(rt: &HostRuntime, me: u8, other: u8, port: u16) -> Result<String, Fail> {
    Ok(format!(in rt.alloc();
        "peer {other} 127.0.0.1 {port} 0000000000000000000000000000{me:02}{other:02} 0000000000000000000000000000{other:02}{me:02}\n"
    )?)
}

/// Puts the roster and the moves of a program into the folder, by the number of the program. It plays for player `me`, listens at its own
/// port, and finds the other players at the ports of these programs.
pub(crate) fn put_seat(
    rt: &HostRuntime,
    field: &Field,
    seat: u8,
    me: u8,
    others: [(u8, u8); 2],
    moves: &str,
) -> Result<(), Fail> {
    let folder = field.folder.as_str();
    let own = port_of(field, seat);
    let mut text = format!(in rt.alloc(); "roster 1\nme 127.0.0.1 {own}\n")?;
    for (other, at) in others {
        text.push_str(line_of(rt, me, other, port_of(field, at))?.as_str())?;
    }
    text.push_str("end\n")?;
    let path = format!(in rt.alloc(); "{folder}/{seat}.roster")?;
    fs::write(rt, path.as_str(), text.as_str())?;
    let path = format!(in rt.alloc(); "{folder}/{seat}.moves")?;
    fs::write(rt, path.as_str(), moves)?;
    Ok(())
}

/// Puts the roster of a logger into the folder, which listens at the last port and knows the three
/// players, and for each of them the roster by which it deposits its log.
pub(crate) fn put_logger(rt: &HostRuntime, field: &Field) -> Result<(), Fail> {
    let folder = field.folder.as_str();
    let own = port_of(field, 3);
    let mut text = format!(in rt.alloc(); "roster 1\nme 127.0.0.1 {own}\n")?;
    for player in 0..3u8 {
        let at = port_of(field, player);
        text.push_str(line_of(rt, 3, player, at)?.as_str())?;
        let deposit = format!(in rt.alloc();
            "roster 1\nme 127.0.0.1 {at}\nlogger 127.0.0.1 {own} 0000000000000000000000000000{player:02}03\nend\n"
        )?;
        let path = format!(in rt.alloc(); "{folder}/{player}.deposit")?;
        fs::write(rt, path.as_str(), deposit.as_str())?;
    }
    text.push_str("end\n")?;
    let path = format!(in rt.alloc(); "{folder}/watch.roster")?;
    fs::write(rt, path.as_str(), text.as_str())?;
    Ok(())
}

/// The port of a program.
fn port_of(field: &Field, seat: u8) -> u16 {
    field.ports[(seat % 4) as usize]
}

/// Takes the folder away.
pub(crate) fn clear(rt: &HostRuntime, field: &Field) -> Result<(), Fail> {
    fs::remove_dir_all(rt, field.folder.as_str())?;
    Ok(())
}
