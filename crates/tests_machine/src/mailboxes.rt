//! The machine's datagrams over loopback: no contract says what comes over a wire, or how long a wait lasts.

use datagram_post::{Post, Received, Sent};
use mio_host::MioHost;
use post_mio::MioPost;
use socket_station::{Addr, Did};
use std::env::temp_dir;
use std::net::{Ipv4Addr, SocketAddr, UdpSocket};
use std::os::unix::fs::PermissionsExt;
use std::test::Fail;
use std::time::Instant;
use std::{fs, process};

/// How many polls a test waits for what must come: ten seconds.
const ROUNDS: u32 = 100;

/// A post of the machine itself.
fn post_of(rt: &HostRuntime) -> Result<MioPost<MioHost<&HostRuntime>>, Fail> {
    let host = MioHost::new(rt, rt.alloc())?;
    Ok(MioPost::new(host))
}

/// An address of this machine at which nobody receives.
fn free_addr(rt: &HostRuntime) -> Result<Addr, Fail> {
    let socket = UdpSocket::bind(rt, SocketAddr::from((Ipv4Addr::LOCALHOST, 0)))?;
    let port = socket.local_addr()?.port();
    Ok(Addr {
        ip: [127, 0, 0, 1],
        port,
    })
}

fn bind<P: Post>(post: &mut P, addr: Addr) -> Did {
    post.bind(addr)
}

fn poll<P: Post>(post: &mut P) -> Did {
    post.poll()
}

fn receive<P: Post>(post: &mut P, buf: &mut [u8; 128]) -> Received {
    post.receive(buf)
}

/// Whether the datagram is given.
fn gives<P: Post>(post: &mut P, addr: Addr, bytes: &[u8]) -> bool {
    post.send(addr, bytes) == Sent::Gave
}

/// The first datagram that a receive takes, by its count of bytes.
fn heard<P: Post>(post: &mut P, buf: &mut [u8; 128]) -> Option<usize> {
    for _ in 0..ROUNDS {
        match receive(post, buf) {
            Received::Took(count) => return Some(count),
            Received::NotYet | Received::Failed => {
                poll(post);
            }
        }
    }
    None
}

/// Whether these bytes are the next datagram.
fn hears<P: Post>(post: &mut P, bytes: &[u8]) -> bool {
    let mut buf = [b'-'; 128];
    match heard(post, &mut buf) {
        None => false,
        Some(count) => buf.get(..count) == Some(bytes),
    }
}

#[test]
fn two_posts_send_to_each_other(rt: HostRuntime) -> Result<(), Fail> {
    let near_addr = free_addr(&rt)?;
    let mut near = post_of(&rt)?;
    assert!(rt; bind(&mut near, near_addr) == Did::Done);
    let far_addr = free_addr(&rt)?;
    let mut far = post_of(&rt)?;
    assert!(rt; bind(&mut far, far_addr) == Did::Done);
    assert!(rt; gives(&mut near, far_addr, b"there"));
    assert!(rt; hears(&mut far, b"there"));
    assert!(rt; gives(&mut far, near_addr, b"back"));
    assert!(rt; gives(&mut far, near_addr, b""));
    assert!(rt; hears(&mut near, b"back"));
    assert!(rt; hears(&mut near, b""));
    Ok(())
}

#[test]
fn a_port_in_use_is_a_fault(rt: HostRuntime) -> Result<(), Fail> {
    let addr = free_addr(&rt)?;
    let mut near = post_of(&rt)?;
    assert!(rt; bind(&mut near, addr) == Did::Done);
    let mut far = post_of(&rt)?;
    assert!(rt; bind(&mut far, addr) == Did::Failed);
    // it may still be bound elsewhere
    let other = free_addr(&rt)?;
    assert!(rt; bind(&mut far, other) == Did::Done);
    Ok(())
}

#[test]
fn a_long_datagram_is_cut(rt: HostRuntime) -> Result<(), Fail> {
    let addr = free_addr(&rt)?;
    let mut near = post_of(&rt)?;
    assert!(rt; bind(&mut near, addr) == Did::Done);
    let mut long = [b'y'; 200];
    long[0] = b'x';
    long[127] = b'z';
    assert!(rt; gives(&mut near, addr, &long));
    assert!(rt; gives(&mut near, addr, b"next"));
    assert!(rt; hears(&mut near, &long[..128]));
    assert!(rt; hears(&mut near, b"next"));
    Ok(())
}

#[test]
fn a_dead_port_ends_nothing(rt: HostRuntime) -> Result<(), Fail> {
    let addr = free_addr(&rt)?;
    let mut near = post_of(&rt)?;
    assert!(rt; bind(&mut near, addr) == Did::Done);
    let dead = free_addr(&rt)?;
    let mut buf = [0; 128];
    near.send(dead, b"nobody");
    let received = receive(&mut near, &mut buf);
    assert!(rt;
        received == Received::NotYet || received == Received::Failed,
        "{received:?}"
    );
    assert!(rt; poll(&mut near) == Did::Done);
    assert!(rt; gives(&mut near, addr, b"later"));
    assert!(rt; hears(&mut near, b"later"));
    Ok(())
}

/// How many milliseconds a poll lasts, if it can.
fn lasts<P: Post>(rt: &HostRuntime, post: &mut P) -> Result<Option<u128>, Fail> {
    let start = Instant::now(rt)?;
    if poll(post) != Did::Done {
        return Ok(None);
    }
    Ok(Some(start.elapsed(rt)?.as_millis()))
}

#[test]
fn a_poll_with_nothing_there_waits(rt: HostRuntime) -> Result<(), Fail> {
    let addr = free_addr(&rt)?;
    let mut near = post_of(&rt)?;
    assert!(rt; bind(&mut near, addr) == Did::Done);
    let taken = lasts(&rt, &mut near)?.unwrap_or(0);
    assert!(rt; taken >= 90 && taken < 1_000, "{taken} ms");
    Ok(())
}

/// Whether each of fifty datagrams that wait comes in turn, with a poll behind each.
fn hears_fifty<P: Post>(post: &mut P) -> bool {
    for number in 0..50u8 {
        if !hears(post, &[number]) {
            return false;
        }
        poll(post);
    }
    true
}

#[test]
fn a_flood_is_not_waited_for(rt: HostRuntime) -> Result<(), Fail> {
    let addr = free_addr(&rt)?;
    let mut near = post_of(&rt)?;
    assert!(rt; bind(&mut near, addr) == Did::Done);
    for number in 0..50u8 {
        assert!(rt; gives(&mut near, addr, &[number]));
    }
    let start = Instant::now(&rt)?;
    let are_heard = hears_fifty(&mut near);
    let taken = start.elapsed(&rt)?.as_millis();
    assert!(rt; are_heard);
    // a rest of five behind each, and no wait
    assert!(rt; taken >= 245 && taken < 4_000, "{taken} ms");
    Ok(())
}

/// A path in the folder of temporary files, at which nothing is.
fn free_path(rt: &HostRuntime) -> Result<String, Fail> {
    let id = process::id(rt.process());
    let folder = temp_dir(rt)?;
    let path = format!(in rt.alloc(); "{}/post_mio_{id}.log", folder.as_str())?;
    if fs::exists(rt, path.as_str())? {
        fs::remove_file(rt, path.as_str())?;
    }
    Ok(path)
}

/// Whether a log of five bytes is begun at the path, kept and synced.
fn keeps_five<P: Post>(post: &mut P, path: &str) -> bool {
    post.log_to(path.as_bytes()) == Did::Done
        && post.keep(b"abcde") == Did::Done
        && post.sync() == Did::Done
}

/// Whether the file has these five bytes, and nobody but its owner may read or write it.
fn is_private(rt: &HostRuntime, path: &str) -> Result<bool, Fail> {
    let mode = fs::metadata(rt, path)?.permissions().mode();
    let has_five = fs::read(rt, path)?.as_slice() == b"abcde".as_slice();
    Ok(has_five && mode & 0o777 == 0o600)
}

#[test]
fn keeps_a_log_for_its_owner_alone(rt: HostRuntime) -> Result<(), Fail> {
    let path = free_path(&rt)?;
    let mut near = post_of(&rt)?;
    assert!(rt; keeps_five(&mut near, path.as_str()));
    assert!(rt; is_private(&rt, path.as_str())?);
    let mut far = post_of(&rt)?;
    assert!(rt; far.log_to(path.as_bytes()) == Did::Failed);
    assert!(rt; is_private(&rt, path.as_str())?);
    fs::remove_file(&rt, path.as_str())?;
    Ok(())
}
