//! Matches over datagrams on lines that lose, repeat and reorder them.

ghost use Rattle.std.specs.Prelude.{◌≡◌, []};

use crate::runs::{Ran, run_over, run_words};
use arrayvec::ArrayVec;
use datagram_post::{Post, PostNotes, Received, Sent};
use mio_host::MioHost;
use post_mio::MioPost;
use rand_chacha::ChaCha20Rng;
use rand_core::{Rng, SeedableRng};
use socket_station::{Addr, Did};
use std::env::temp_dir;
use std::net::{Ipv4Addr, SocketAddr, UdpSocket};
use std::test::Fail;
use std::thread::Threads;
use std::{fs, process, thread};

/// How many of a hundred go twice on a bad line, and how many are held back.
const TWICE: u32 = 10;

const HELD: u32 = 20;

/// The polls of a player. One that doesn't hear of the others' end waits for the rest of them.
const POLLS: u32 = 100;

/// The line of a roster has the passes of two numbers below 100.
const MOST_PLAYERS: usize = 5;

/// Players that stand still, so near to each other that each waits for all in each turn.
const SEATS: [(&str, &str); MOST_PLAYERS] = [
    ("player 0 1 2\n", "1 2\n"),
    ("player 1 3 2\n", "3 2\n"),
    ("player 2 2 4\n", "2 4\n"),
    ("player 3 4 4\n", "4 4\n"),
    ("player 4 5 1\n", "5 1\n"),
];

const TURNS: usize = 6;

/// What a pass begins with: the two numbers stand at its end.
const ZEROS: &str = "0000000000000000000000000000";

/// A datagram that is held back.
type Mail = (Addr, ArrayVec<u8, 128>);

/// A post whose line loses, repeats and reorders what is sent, as a number says. It answers that all
/// of it went, as a line does.
#[derive(Drop)]
struct LossyPost<D> {
    inner: D,
    notes: PostNotes,
    drawn: ChaCha20Rng,
    /// How many of a hundred are lost. A line that loses none does nothing else either.
    loss: u32,
    held: Option<Mail>,
}

impl<D: Post> LossyPost<D> {
    fn over(inner: D, loss: u32, seed: u64) -> LossyPost<D>
        ensures { ⟦<LossyPost<D> as Post>⟧.history result ≡ [] }
    {
        LossyPost {
            inner,
            notes: PostNotes::new(),
            drawn: ChaCha20Rng::seed_from_u64(seed),
            loss,
            held: None,
        }
    }

    /// Whether this comes out, which does so many times in a hundred.
    fn draws(&mut self, percent: u32) -> bool
        ensures { self.new.notes ≡ self.old.notes }
    {
        self.drawn.next_u32() % 100 < percent
    }

    /// Holds this datagram back, and lets the one go that was held back before.
    fn hold(&mut self, addr: Addr, bytes: &[u8])
        ensures { self.new.notes ≡ self.old.notes }
    {
        let mut copy = ArrayVec::new();
        if copy.try_extend_from_slice(bytes).is_err() {
            return;
        }
        if let Some((to, before)) = self.held.replace((addr, copy)) {
            self.inner.send(to, before.as_slice());
        }
    }

    /// Gives a datagram to the line.
    fn pass_on(&mut self, addr: Addr, bytes: &[u8])
        ensures { self.new.notes ≡ self.old.notes }
    {
        if self.loss > 0 {
            if self.draws(self.loss) {
                return;
            }
            if self.draws(TWICE) {
                self.inner.send(addr, bytes);
            }
            if self.draws(HELD) {
                return self.hold(addr, bytes);
            }
        }
        self.inner.send(addr, bytes);
    }
}

impl<D: Post> Post for LossyPost<D> {
    ghost history = { λ p. p.notes };

    fn bind(&mut self, addr: Addr) -> Did {
        let did = self.inner.bind(addr);
        self.notes.bind(did, addr);
        did
    }

    fn log_to(&mut self, name: &[u8]) -> Did {
        let did = self.inner.log_to(name);
        self.notes.log_to(did, name);
        did
    }

    fn poll(&mut self) -> Did {
        let did = self.inner.poll();
        self.notes.poll(did);
        did
    }

    fn receive(&mut self, buf: &mut [u8; 128]) -> Received {
        let received = self.inner.receive(buf);
        self.notes.receive(received, buf);
        received
    }

    fn send(&mut self, addr: Addr, bytes: &[u8]) -> Sent {
        self.pass_on(addr, bytes);
        self.notes.send(Sent::Gave, addr, bytes);
        Sent::Gave
    }

    fn keep(&mut self, bytes: &[u8]) -> Did {
        let did = self.inner.keep(bytes);
        self.notes.keep(did, bytes);
        did
    }

    fn sync(&mut self) -> Did {
        let did = self.inner.sync();
        self.notes.sync(did);
        did
    }
}

/// Ports of this machine at which nobody hears datagrams.
fn free_ports(rt: &HostRuntime) -> Result<[u16; MOST_PLAYERS], Fail> {
    let mut ports = [0; MOST_PLAYERS];
    let mut mailboxes = Vec::new(rt.alloc());
    for port in &mut ports {
        let mailbox = UdpSocket::bind(rt, SocketAddr::from((Ipv4Addr::LOCALHOST, 0)))?;
        *port = mailbox.local_addr()?.port();
        mailboxes.push(mailbox)?;
    }
    Ok(ports)
}

/// A new folder with the session of so many players, and the roster and the moves of each.
fn match_of(rt: &HostRuntime, name: &str, players: usize) -> Result<String, Fail> {
    let id = process::id(rt.process());
    let place = temp_dir(rt)?;
    let folder = format!(in rt.alloc(); "{}/lethwyrn_{name}_{id}", place.as_str())?;
    if fs::exists(rt, folder.as_str())? {
        fs::remove_dir_all(rt, folder.as_str())?;
    }
    fs::create_dir(rt, folder.as_str())?;
    let mut session = format!(in rt.alloc();
        "playout 1\ngrid 12 6\nrules 1 2 0\ncharge 1 3 2\nturns {TURNS}\nplayers {players}\n"
    )?;
    for (line, _) in &SEATS[..players.min(MOST_PLAYERS)] {
        session.push_str(line)?;
    }
    session.push_str("end\n")?;
    let ports = free_ports(rt)?;
    fs::write(
        rt,
        format!(in rt.alloc(); "{folder}/session")?.as_str(),
        session.as_str(),
    )?;
    for player in 0..players.min(MOST_PLAYERS) {
        put_player(rt, folder.as_str(), &ports, players, player)?;
    }
    Ok(folder)
}

/// Puts the roster and the moves of a player into the folder.
fn put_player(
    rt: &HostRuntime,
    folder: &str,
    ports: &[u16; MOST_PLAYERS],
    players: usize,
    me: usize,
) -> Result<(), Fail> {
    let own = ports[me.min(MOST_PLAYERS - 1)];
    let mut roster = format!(in rt.alloc(); "roster 1\nme 127.0.0.1 {own}\n")?;
    for other in 0..players.min(MOST_PLAYERS) {
        if other != me {
            let port = ports[other];
            roster.push_str(format!(in rt.alloc();
                "peer {other} 127.0.0.1 {port} {ZEROS}{me:02}{other:02} {ZEROS}{other:02}{me:02}\n"
            )?.as_str())?;
        }
    }
    roster.push_str("end\n")?;
    fs::write(
        rt,
        format!(in rt.alloc(); "{folder}/{me}.roster")?.as_str(),
        roster.as_str(),
    )?;
    let mut moves = String::new(rt.alloc());
    for _turn in 0..TURNS {
        moves.push_str(SEATS[me.min(MOST_PLAYERS - 1)].1)?;
    }
    fs::write(
        rt,
        format!(in rt.alloc(); "{folder}/{me}.moves")?.as_str(),
        moves.as_str(),
    )?;
    Ok(())
}

/// Plays for a player on such a line.
fn post(rt: &HostRuntime, folder: &str, player: usize, loss: u32) -> Option<Ran> {
    let words = format!(in rt.alloc();
        "post {folder}/session {folder}/{player}.roster {folder}/{player}.moves {player} {POLLS} {folder}/{player}.log"
    );
    let inner = MioPost::new(MioHost::new(rt, rt.alloc()).ok()?);
    let mut post = LossyPost::over(inner, loss, (player as u64).wrapping_add(1));
    run_over(rt, words.ok()?.as_str(), player as u64, &mut post).ok()
}

/// Whether the player's log is whole, and the player done, or it didn't hear that the others are.
fn is_over(ran: Option<&Ran>) -> bool {
    match ran {
        None => false,
        Some(ran) => {
            ran.status == 0
                || (ran.status == 7
                    && !ran
                        .text
                        .as_slice()
                        .windows(5)
                        .any(|five| five == b"need ".as_slice()))
        }
    }
}

/// Plays a match of so many players on lines of this loss, and looks at its end and at its audit.
fn plays_out(
    rt: &HostRuntime,
    threads: &(impl Threads + Sync),
    name: &str,
    players: usize,
    loss: u32,
) -> Result<bool, Fail> {
    let folder = match_of(rt, name, players)?;
    let folder = folder.as_str();
    let ran = thread::map_indices(
        threads,
        rt.alloc(),
        players,
        &|player| { post(rt, folder, player, loss) },
    )?;
    for player in 0..players {
        if !is_over(ran.get(player).and_then(Option::as_ref)) {
            return Ok(false);
        }
    }
    let mut words = format!(in rt.alloc(); "audit {folder}/session")?;
    for player in 0..players {
        words.push_str(format!(in rt.alloc(); " {folder}/{player}.log")?.as_str())?;
    }
    let audit = run_words(rt, words.as_str(), 0)?;
    fs::remove_dir_all(rt, folder)?;
    let worlds = audit
        .text
        .as_slice()
        .windows(6)
        .filter(|six| *six == b"world ".as_slice())
        .count();
    Ok(audit.status == 0 && worlds == players)
}

#[test]
fn two_play_where_nothing_is_lost(rt: HostRuntime) -> Result<(), Fail> {
    assert!(rt; plays_out(&rt, &rt, "post_2_0", 2, 0)?);
    Ok(())
}

#[test]
fn two_play_where_a_tenth_is_lost(rt: HostRuntime) -> Result<(), Fail> {
    assert!(rt; plays_out(&rt, &rt, "post_2_10", 2, 10)?);
    Ok(())
}

#[test]
fn two_play_where_a_third_is_lost(rt: HostRuntime) -> Result<(), Fail> {
    assert!(rt; plays_out(&rt, &rt, "post_2_30", 2, 30)?);
    Ok(())
}

#[test]
fn five_play_where_nothing_is_lost(rt: HostRuntime) -> Result<(), Fail> {
    assert!(rt; plays_out(&rt, &rt, "post_5_0", 5, 0)?);
    Ok(())
}

#[test]
fn five_play_where_a_tenth_is_lost(rt: HostRuntime) -> Result<(), Fail> {
    assert!(rt; plays_out(&rt, &rt, "post_5_10", 5, 10)?);
    Ok(())
}

#[test]
fn five_play_where_a_third_is_lost(rt: HostRuntime) -> Result<(), Fail> {
    assert!(rt; plays_out(&rt, &rt, "post_5_30", 5, 30)?);
    Ok(())
}
