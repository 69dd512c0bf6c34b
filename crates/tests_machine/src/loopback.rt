//! The machine's sockets over loopback: no contract says what comes over a wire.

use definitions::PlayerId;
use machine_host::Host;
use mio_host::MioHost;
use socket_station::{Addr, Dial, Did, Ready, ReadyList, SocketId, SocketRead, SocketWrite};
use station_mio::sockets::Sockets;
use std::io::{self, Read, Write};
use std::net::{Ipv4Addr, Shutdown, SocketAddr, TcpListener, TcpStream};
use std::test::Fail;
use std::thread;
use std::time::Instant;

/// How many polls a test waits for what must come: ten seconds.
const ROUNDS: u32 = 100;

/// The sockets of the machine itself.
fn sockets_of(rt: &HostRuntime) -> Result<Sockets<MioHost<&HostRuntime>>, Fail> {
    let host = MioHost::new(rt, rt.alloc())?;
    Ok(Sockets::new(rt.alloc(), host)?)
}

/// The address of std at this port of this machine.
fn local(port: u16) -> SocketAddr {
    SocketAddr::from((Ipv4Addr::LOCALHOST, port))
}

/// A port of this machine that nobody listens at.
fn free_port(rt: &HostRuntime) -> Result<u16, Fail> {
    let listener = TcpListener::bind(rt, local(0))?;
    let addr = listener.local_addr()?;
    Ok(addr.port())
}

/// An address of this machine that nobody listens at.
fn free_addr(rt: &HostRuntime) -> Result<Addr, Fail> {
    let port = free_port(rt)?;
    Ok(Addr {
        ip: [127, 0, 0, 1],
        port,
    })
}

/// A stream of std to a station that listens.
fn stream_to(rt: &HostRuntime, addr: Addr) -> Result<TcpStream, Fail> {
    Ok(TcpStream::connect(rt, local(addr.port))?)
}

/// The first socket that a poll opens.
fn accepted<H: Host + Drop>(sockets: &mut Sockets<H>) -> Option<SocketId> {
    let mut ready = ReadyList::new();
    for _ in 0..ROUNDS {
        sockets.poll(&mut ready);
        for item in ready.as_slice() {
            if let Ready::Opened(number) = *item {
                return Some(number);
            }
        }
    }
    None
}

/// The first answer of a read but `NotYet`.
fn heard<H: Host + Drop>(
    sockets: &mut Sockets<H>,
    socket: SocketId,
    buf: &mut [u8; 8],
) -> SocketRead {
    let mut ready = ReadyList::new();
    for _ in 0..ROUNDS {
        match sockets.read(socket, buf) {
            SocketRead::NotYet => {
                sockets.poll(&mut ready);
            }
            read => return read,
        }
    }
    SocketRead::NotYet
}

/// Reads from a stream of std.
fn read_some(stream: &mut TcpStream, buf: &mut [u8]) -> io::Result<usize> {
    stream.read(buf)
}

fn dial<H: Host + Drop>(sockets: &mut Sockets<H>, player: PlayerId, addr: Addr) -> Dial {
    sockets.dial(player, addr)
}

/// Whether the near side dials for the player, and both sides have that as this socket.
fn meet<H: Host + Drop>(
    near: &mut Sockets<H>,
    far: &mut Sockets<H>,
    player: PlayerId,
    addr: Addr,
    socket: SocketId,
) -> bool {
    if dial(near, player, addr) != Dial::Socket(socket) {
        return false;
    }
    accepted(far) == Some(socket)
}

/// Whether so many of the bytes are given on socket 0.
fn gives<H: Host + Drop>(sockets: &mut Sockets<H>, bytes: &[u8], count: usize) -> bool {
    sockets.write(0, bytes) == SocketWrite::Gave(count)
}

/// Whether so many bytes come next on socket 0, behind which these fill the buffer.
fn hears<H: Host + Drop>(
    sockets: &mut Sockets<H>,
    buf: &mut [u8; 8],
    count: usize,
    bytes: &[u8; 8],
) -> bool {
    if heard(sockets, 0, buf) != SocketRead::Took(count) {
        return false;
    }
    *buf == *bytes
}

/// Whether bytes go there and back on socket 0.
fn carry<H: Host + Drop>(near: &mut Sockets<H>, far: &mut Sockets<H>) -> bool {
    let mut buf = [b'-'; 8];
    if far.read(0, &mut buf) != SocketRead::NotYet || !gives(near, b"abc", 3) {
        return false;
    }
    if !hears(far, &mut buf, 3, b"abc-----") || !gives(far, b"defgh", 5) {
        return false;
    }
    hears(near, &mut buf, 5, b"defgh---")
}

/// Whether the far side hears the end where the near one shuts socket 0.
fn part<H: Host + Drop>(near: &mut Sockets<H>, far: &mut Sockets<H>) -> bool {
    let mut buf = [b'-'; 8];
    near.shut(0);
    heard(far, 0, &mut buf) == SocketRead::Ended
}

#[test]
fn carries_bytes_both_ways(rt: HostRuntime) -> Result<(), Fail> {
    let addr = free_addr(&rt)?;
    let mut near = sockets_of(&rt)?;
    let mut far = sockets_of(&rt)?;
    assert!(rt; far.listen(addr).is_ok());
    assert!(rt; near.listen(addr).is_err());
    assert!(rt; meet(&mut near, &mut far, 1, addr, 0));
    assert!(rt; carry(&mut near, &mut far));
    assert!(rt; part(&mut near, &mut far));
    // a number is never used again
    assert_eq!(rt; far.write(0, b"i"), SocketWrite::Failed);
    assert!(rt; meet(&mut near, &mut far, 2, addr, 1));
    Ok(())
}

/// A stream that gave two bytes and ended there.
fn ended_stream(rt: &HostRuntime, addr: Addr) -> Result<TcpStream, Fail> {
    let mut stream = stream_to(rt, addr)?;
    stream.write_all(b"ab")?;
    stream.shutdown(Shutdown::Write)?;
    Ok(stream)
}

/// Whether socket 0 still gives two bytes, and hears those of the other side and then its end.
fn hears_the_end<H: Host + Drop>(sockets: &mut Sockets<H>) -> bool {
    let mut buf = [b'-'; 8];
    if !gives(sockets, b"cd", 2) || !hears(sockets, &mut buf, 2, b"ab------") {
        return false;
    }
    heard(sockets, 0, &mut buf) == SocketRead::Ended
}

/// Whether so many bytes come next from the stream, behind which these fill the buffer.
fn takes(stream: &mut TcpStream, buf: &mut [u8], count: usize, bytes: &[u8]) -> Result<bool, Fail> {
    let taken = read_some(stream, buf)?;
    Ok(taken == count && *buf == *bytes)
}

#[test]
fn reads_what_came_before_the_other_side_ended(rt: HostRuntime) -> Result<(), Fail> {
    let addr = free_addr(&rt)?;
    let mut sockets = sockets_of(&rt)?;
    let mut buf = [b'-'; 4];
    assert!(rt; sockets.listen(addr).is_ok());
    let mut stream = ended_stream(&rt, addr)?;
    assert_eq!(rt; accepted(&mut sockets), Some(0));
    assert!(rt; hears_the_end(&mut sockets));
    assert!(rt; takes(&mut stream, &mut buf, 2, b"cd--")?);
    Ok(())
}

/// Writes until no more is taken now, and says how much was.
fn fill<H: Host + Drop>(sockets: &mut Sockets<H>, socket: SocketId) -> usize {
    let piece = [7u8; 4096];
    let mut given = 0usize;
    for _ in 0..100_000u32 {
        match sockets.write(socket, &piece) {
            SocketWrite::Gave(count) => given = given.saturating_add(count),
            SocketWrite::NotYet | SocketWrite::Failed => break,
        }
    }
    given
}

/// Writes until no more is taken, the machine's buffers having grown as far as they do.
fn fill_up<H: Host + Drop>(sockets: &mut Sockets<H>, socket: SocketId) -> usize {
    let mut ready = ReadyList::new();
    let mut given = 0usize;
    for _ in 0..ROUNDS {
        let more = fill(sockets, socket);
        if more == 0 {
            break;
        }
        given = given.saturating_add(more);
        sockets.poll(&mut ready);
    }
    given
}

/// Takes at least so many bytes from the stream.
fn take_all(stream: &mut TcpStream, given: usize) -> Result<(), Fail> {
    let mut buf = [0u8; 4096];
    let mut taken = 0usize;
    for _ in 0..1_000_000u32 {
        if taken >= given {
            break;
        }
        taken = taken.saturating_add(read_some(stream, &mut buf)?);
    }
    Ok(())
}

/// Whether a poll lists socket 0 alone.
fn lists_the_first<H: Host + Drop>(sockets: &mut Sockets<H>) -> bool {
    let mut ready = ReadyList::new();
    sockets.poll(&mut ready);
    ready.as_slice() == [Ready::Socket(0)].as_slice()
}

#[test]
fn lists_a_socket_again_once_it_takes_more(rt: HostRuntime) -> Result<(), Fail> {
    let addr = free_addr(&rt)?;
    let mut sockets = sockets_of(&rt)?;
    assert!(rt; sockets.listen(addr).is_ok());
    let mut stream = stream_to(&rt, addr)?;
    assert_eq!(rt; accepted(&mut sockets), Some(0));
    let given = fill_up(&mut sockets, 0);
    assert_eq!(rt; sockets.write(0, b"a"), SocketWrite::NotYet);
    take_all(&mut stream, given)?;
    assert!(rt; lists_the_first(&mut sockets));
    assert!(rt; gives(&mut sockets, b"a", 1));
    Ok(())
}

/// Whether a dial of the address fails: at once, or where its socket is read, which waits for its
/// turn or for the answer.
fn is_refused<H: Host + Drop>(sockets: &mut Sockets<H>, addr: Addr) -> bool {
    match dial(sockets, 3, addr) {
        Dial::Failed => true,
        Dial::Socket(number) => has_failed(sockets, number),
    }
}

/// Whether the socket's first answer but `NotYet` is that it failed.
fn has_failed<H: Host + Drop>(sockets: &mut Sockets<H>, socket: SocketId) -> bool {
    let mut buf = [0; 8];
    heard(sockets, socket, &mut buf) == SocketRead::Failed
}

fn poll<H: Host + Drop>(sockets: &mut Sockets<H>) {
    let mut ready = ReadyList::new();
    sockets.poll(&mut ready);
}

/// Dials until the address refused four times, and says how often it did.
fn dial_four_times<H: Host + Drop>(sockets: &mut Sockets<H>, addr: Addr) -> u32 {
    let mut refused = 0u32;
    for _ in 0..10_000u32 {
        if refused == 4 {
            break;
        }
        if is_refused(sockets, addr) {
            refused = refused.saturating_add(1);
        }
        // others may wake the poll at once
        if refused < 2 {
            poll(sockets);
        }
    }
    refused
}

#[test]
fn dials_an_address_that_refuses_ten_times_a_second(rt: HostRuntime) -> Result<(), Fail> {
    let addr = free_addr(&rt)?;
    let mut sockets = sockets_of(&rt)?;
    let start = Instant::now(&rt)?;
    let refused = dial_four_times(&mut sockets, addr);
    let taken = start.elapsed(&rt)?.as_millis();
    assert_eq!(rt; refused, 4);
    // three pauses, by a clock that counts whole milliseconds
    assert!(rt; taken >= 299 && taken < 20_000, "{taken} ms");
    Ok(())
}

/// A stream that gave a byte.
fn giving_stream(rt: &HostRuntime, addr: Addr) -> Result<TcpStream, Fail> {
    let mut stream = stream_to(rt, addr)?;
    stream.write_all(b"x")?;
    Ok(stream)
}

/// Two hundred of them.
fn crowd_of(rt: &HostRuntime, addr: Addr) -> Result<Vec<TcpStream>, Fail> {
    let mut crowd = Vec::new(rt.alloc());
    for _ in 0..200 {
        let stream = giving_stream(rt, addr)?;
        crowd.push(stream)?;
    }
    Ok(crowd)
}

/// The next number behind those of the sockets that are listed as opened, if they follow each
/// other from this one on.
fn opened_behind(ready: &ReadyList, first: SocketId) -> Option<SocketId> {
    let mut opened = first;
    for item in ready.as_slice() {
        if let Ready::Opened(number) = *item {
            if number != opened {
                return None;
            }
            opened = opened.saturating_add(1);
        }
    }
    Some(opened)
}

/// The same where a poll lists them. None where it fails.
fn opened_by_poll<H: Host + Drop>(sockets: &mut Sockets<H>, first: SocketId) -> Option<SocketId> {
    let mut ready = ReadyList::new();
    if sockets.poll(&mut ready) != Did::Done {
        return None;
    }
    opened_behind(&ready, first)
}

/// Whether polls open the sockets 0 to 199 in turn, and no others.
fn opens_all<H: Host + Drop>(sockets: &mut Sockets<H>) -> bool {
    let mut opened: SocketId = 0;
    for _ in 0..ROUNDS {
        if opened == 200 {
            return true;
        }
        match opened_by_poll(sockets, opened) {
            None => return false,
            Some(next) => opened = next,
        }
    }
    opened == 200
}

/// Whether the socket gives a byte, and then nothing yet.
fn gives_one<H: Host + Drop>(sockets: &mut Sockets<H>, socket: SocketId) -> bool {
    let mut buf = [0; 8];
    if heard(sockets, socket, &mut buf) != SocketRead::Took(1) {
        return false;
    }
    sockets.read(socket, &mut buf) == SocketRead::NotYet
}

/// Whether each of them does.
fn gives_all<H: Host + Drop>(sockets: &mut Sockets<H>) -> bool {
    for number in 0..200 {
        if !gives_one(sockets, number) {
            return false;
        }
    }
    true
}

/// Whether a poll lists nothing.
fn lists_nothing<H: Host + Drop>(sockets: &mut Sockets<H>) -> bool {
    let mut ready = ReadyList::new();
    sockets.poll(&mut ready);
    ready.as_slice().is_empty()
}

#[test]
fn accepts_all_of_a_crowd_and_waits_when_nothing_comes(rt: HostRuntime) -> Result<(), Fail> {
    let addr = free_addr(&rt)?;
    let mut sockets = sockets_of(&rt)?;
    assert!(rt; sockets.listen(addr).is_ok());
    let _crowd = crowd_of(&rt, addr)?;
    assert!(rt; opens_all(&mut sockets));
    assert!(rt; gives_all(&mut sockets));
    for _ in 0..5 {
        poll(&mut sockets);
    }
    let start = Instant::now(&rt)?;
    let lists_nothing = lists_nothing(&mut sockets);
    let taken = start.elapsed(&rt)?.as_millis();
    assert!(rt; lists_nothing);
    assert!(rt; taken >= 90 && taken < 10_000, "{taken} ms");
    Ok(())
}

/// Whether three bytes come from the stream, and then its end.
fn hears_three(stream: &mut TcpStream) -> bool {
    let mut buf = [b'-'; 8];
    let first = read_some(stream, &mut buf).unwrap_or(9);
    let second = read_some(stream, &mut buf).unwrap_or(9);
    first == 3 && second == 0 && buf.as_slice() == b"abc-----".as_slice()
}

#[test]
fn ends_behind_what_it_gave(rt: HostRuntime) -> Result<(), Fail> {
    let addr = free_addr(&rt)?;
    let mut sockets = sockets_of(&rt)?;
    assert!(rt; sockets.listen(addr).is_ok());
    let mut stream = stream_to(&rt, addr)?;
    assert_eq!(rt; accepted(&mut sockets), Some(0));
    assert_eq!(rt; sockets.write(0, b"abc"), SocketWrite::Gave(3));
    // what came and was not read would reset the socket where it is closed at once
    stream.write_all(b"not read")?;
    let ended = thread::Builder::new().spawn(&rt, move || hears_three(&mut stream))?;
    let start = Instant::now(&rt)?;
    sockets.finish();
    assert!(rt; start.elapsed(&rt)?.as_millis() < 900);
    assert!(rt; ended.join(&rt));
    Ok(())
}
