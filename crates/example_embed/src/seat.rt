//! A peer in a program that embeds it, with what such a program keeps beside it: how much of the
//! log is stored, which frame is sent next, and the link to the other player.

ghost use Rattle.std.specs.Prelude.{◌≡◌, ◌≤◌, ◌<◌, ◌++◌, length, take, drop, OnOk};
ghost use Rattle.session_log.specs.Writing.{all_written};
ghost use Rattle.example_embed.specs.Sending.{bytes_from, made_bytes};
ghost use Rattle.definitions.specs.World.{players_of};

use crate::link::Link;
use definitions::{Entry, GotAnswer, Move, Nonce, OwnFault, PlayerId, Progress};
use old_log::Resumed;
use peer_core::Peer;
use session_log::LogWriter;
use std::alloc::AllocError;
use wire_frames::{FedWhat, Frame, put_frame};

/// What came over the link.
#[derive(Clone, Copy)]
pub enum Came {
    /// The bytes end no further frame.
    Nothing,
    /// A frame of a turn, which the peer answered so.
    Frame(GotAnswer),
    /// A greeting, or a wish for frames: sending goes on from the place that it names.
    Asked,
    /// What no player of this session sends, or too much of it: the link is to be closed.
    Broken,
}

/// A peer that plays with one other player.
#[derive(Drop)]
pub struct Seat {
    peer: Peer,
    other: PlayerId,
    writer: LogWriter,
    // how many entries of the log are stored, and the place of the own frame that is sent next
    stored: usize,
    sent: u32,
    link: Link,
    ghost known: { other < players_of peer.game },
}

/// Appends the bytes of these entries, which come next in the log.
fn put_entries(
    writer: &mut LogWriter,
    entries: &[Entry],
    disk: &mut Vec<u8>,
) -> Result<(), AllocError>
    ensures bytes { OnOk result (disk.new.items ≡ disk.old.items ++ all_written writer.old entries.now) }
{
    for entry in entries {
        let mut bytes = [0; 96];
        let count = writer.put(entry, &mut bytes);
        disk.extend_from_slice(&bytes[..count])?;
    }
    Ok(())
}

/// Appends the bytes of the peer's frame at this place, if it made one.
fn put_made(peer: &Peer, place: u32, out: &mut Vec<u8>) -> Result<(), AllocError>
    ensures bytes { OnOk result (out.new.items ≡ out.old.items ++ made_bytes peer.now.entries place) }
{
    let mut bytes = [0; 64];
    match peer.put_made(place, &mut bytes) {
        None => Ok(()),
        Some(count) => out.extend_from_slice(&bytes[..count]),
    }
}

impl Seat {
    /// A seat for a peer that has logged nothing yet.
    pub fn new(peer: Peer, other: PlayerId) -> Seat
        requires { other < players_of peer.game }
    {
        let writer = LogWriter::new(peer.session(), peer.me());
        Seat::behind(peer, writer, other)
    }

    /// A seat for a peer that goes on from a log, whose entries are stored already.
    pub fn resumed(resumed: Resumed, other: PlayerId) -> Seat
        requires { other < players_of resumed.peer.game }
    {
        Seat::behind(resumed.peer, resumed.writer, other)
    }

    /// A seat for this peer, whose log is stored, and the writer behind that.
    fn behind(peer: Peer, writer: LogWriter, other: PlayerId) -> Seat
        requires { other < players_of peer.game }
    {
        let stored = peer.entries().len();
        Seat {
            peer,
            other,
            writer,
            stored,
            sent: 0,
            link: Link::new(),
        }
    }

    /// The peer.
    pub fn peer(&self) -> &Peer
        ensures { result.now ≡ self.now.peer }
    {
        &self.peer
    }

    /// Lets the peer's player choose.
    pub fn choose(&mut self, mv: Move, nonce: Nonce) -> Result<(), OwnFault> {
        self.peer.choose(mv, nonce)
    }

    /// Makes every frame that the protocol allows by now.
    pub fn advance(&mut self) -> Progress {
        self.peer.advance()
    }

    /// Appends the entries of the log that aren't stored yet to what the disk has.
    pub fn store(&mut self, disk: &mut Vec<u8>) -> Result<(), AllocError>
        ensures bytes { OnOk result (disk.new.items ≡ disk.old.items ++ all_written self.old.writer (drop self.old.stored self.old.peer.entries)) }
        ensures stored { OnOk result (self.new.stored ≡ length self.new.peer.entries) }
        ensures peer { self.new.peer ≡ self.old.peer }
    {
        let entries = self.peer.entries();
        let stored = self.stored.min(entries.len());
        put_entries(&mut self.writer, entries.split_at(stored).1, disk)?;
        self.stored = entries.len();
        Ok(())
    }

    /// Sends the own frames that weren't sent yet, by rising place, as far as their entries are
    /// stored: what goes out is what the stored entries say was made.
    pub fn send(&mut self, out: &mut Vec<u8>) -> Result<(), AllocError>
        ensures bytes { OnOk result (out.new.items ≡ out.old.items ++ bytes_from (take self.old.stored self.old.peer.entries) self.old.sent) }
        ensures peer { self.new.peer ≡ self.old.peer }
    {
        let until = self.peer.sendable(self.stored);
        while self.sent < until {
            put_made(&self.peer, self.sent, out)?;
            self.sent += 1;
        }
        Ok(())
    }

    /// The greeting that names the place of the frame that is wanted next.
    fn hello(&self) -> Frame {
        let id = *self.peer.session().id();
        let player = self.peer.me();
        let next = self.peer.player(self.other).next;
        Frame::Hello {
            id,
            player,
            pass: [0; 16],
            next,
        }
    }

    /// Begins a new link: greets the other player, and names the place of the frame that is wanted
    /// next. A real program also shows the pass that both agreed on.
    pub fn greet(&mut self, out: &mut Vec<u8>) -> Result<(), AllocError> {
        self.link = Link::new();
        let hello = self.hello();
        let mut bytes = [0; 64];
        let count = put_frame(&hello, &mut bytes);
        out.extend_from_slice(&bytes[..count])
    }

    /// Reads on in the bytes that came, up to the end of the first frame that ends in them, and
    /// says how many were used.
    pub fn hear(&mut self, bytes: &[u8], used: &mut usize) -> Came
        ensures { used.new ≤ length bytes.now }
    {
        match self.link.feed(bytes, used) {
            None | Some(FedWhat::Bad(_)) => Came::Broken,
            Some(FedWhat::More) => Came::Nothing,
            Some(FedWhat::Whole(frame)) => self.take(&frame),
        }
    }

    /// Takes a frame that came whole.
    fn take(&mut self, frame: &Frame) -> Came {
        match frame {
            Frame::Turn(frame) => Came::Frame(self.peer.got(self.other, frame)),
            Frame::Want { place } => {
                self.sent = *place;
                Came::Asked
            }
            Frame::Hello {
                id,
                player,
                next,
                ..
            } => {
                if id != self.peer.session().id() || *player != self.other {
                    return Came::Broken;
                }
                self.sent = *next;
                Came::Asked
            }
        }
    }
}
