//! The one socket of a depositor, to its logger.

ghost use Rattle.std.specs.Prelude.{◌≡◌, ℕ, ◌≤◌, ◌+◌, ◌<◌, ◌^◌, length, option_map, Some, None, IsFalse};
ghost use Rattle.definitions.specs.Lists.{is_empty};
ghost use Rattle.deposit_rules.specs.Lines as V;

use socket_lines::Unsent;
use socket_station::SocketId;
use wire_frames::{FedWhat, Frame, FrameReader};

/// How many bytes are read of a logger's socket at most: those of a WANT, and of the longest frame
/// that might follow it.
pub const MOST_ANSWER: u32 = 63;

/// A depositor's one socket, from its dial on; after its end too.
#[derive(Drop)]
pub struct DepositLine {
    /// The station's number of it; 0 before the first dial.
    pub socket: SocketId,
    pub is_open: bool,
    /// Whether a read answered that nothing is there, since the opening and the last poll that
    /// listed it.
    pub is_quiet: bool,
    /// Whether a write answered that nothing can be given, since the last poll that listed it.
    pub is_blocked: bool,
    /// Whether a frame came that is no first WANT, or a bad byte: the socket is to be shut.
    pub is_wrong: bool,
    pub reader: FrameReader,
    /// How many bytes were read of it.
    pub taken: u32,
    /// What is left to be given of the HELLO.
    pub unsent: Unsent,
    /// Which byte of the log goes out next, from 0: none before a WANT came.
    pub cursor: Option<u32>,
}

impl DepositLine {
    /// The line before the first dial.
    pub fn none() -> DepositLine
        ensures { result ≡ V.no_line }
    {
        DepositLine {
            socket: 0,
            is_open: false,
            is_quiet: false,
            is_blocked: false,
            is_wrong: false,
            reader: FrameReader::new(),
            taken: 0,
            unsent: Unsent::new(),
            cursor: None,
        }
    }

    /// The line of a socket that was dialled: this HELLO is due on it.
    pub fn dialled(socket: SocketId, hello: &Frame) -> DepositLine
        ensures { result ≡ V.new_line socket hello.now }
    {
        let mut line = DepositLine::none();
        line.socket = socket;
        line.is_open = true;
        line.unsent.put(hello);
        line
    }

    /// A frame came: the first WANT is obeyed, and for any other frame the socket is to be shut.
    fn hear(&mut self, frame: &Frame)
        ensures { self.new ≡ V.heard self.old frame.now }
    {
        if self.is_wrong {
            return;
        }
        match frame {
            Frame::Want { place } => match self.cursor {
                None => self.cursor = Some(*place),
                Some(_) => self.is_wrong = true,
            },
            Frame::Hello { .. } => self.is_wrong = true,
            Frame::Turn(_) => self.is_wrong = true,
        }
    }

    /// Reads on in what the logger says with these bytes, frame by frame.
    fn feed(&mut self, bytes: &[u8])
        requires { self.old.reader.place + length bytes.now < 2 ^ 64 }
        ensures line { self.new ≡ V.fed bytes.now self.old }
        ensures place { self.new.reader.place ≤ self.old.reader.place + length bytes.now }
    {
        let mut rest = bytes;
        'frames: loop {
            let fed = self.reader.feed(rest);
            rest = &rest[fed.used..];
            match fed.what {
                FedWhat::More => return,
                FedWhat::Bad(_) => {
                    self.is_wrong = true;
                    return;
                }
                FedWhat::Whole(frame) => self.hear(&frame),
            }
        }
    }

    /// Bytes came, one at least, and no more than may still be taken.
    pub fn take(&mut self, bytes: &[u8])
        requires room { length bytes.now ≤ V.room_of self.old }
        requires some { 0 < length bytes.now }
        requires place { self.old.reader.place ≤ self.old.taken }
        ensures line { self.new ≡ V.took bytes.now self.old }
        ensures place { self.new.reader.place ≤ self.new.taken }
    {
        self.taken += bytes.len() as u32;
        self.feed(bytes);
    }

    /// How many bytes may still be taken of the socket.
    pub fn room(&self) -> u32
        ensures { result ≡ V.room_of self.now }
    {
        MOST_ANSWER.saturating_sub(self.taken)
    }

    /// Whether a rule or the limit on what is read asks to shut the socket.
    pub fn asks_shut(&self) -> bool
        ensures { result ≡ V.asks_shut self.now }
    {
        self.is_wrong || self.room() == 0
    }

    /// So many of the bytes due were given: of the HELLO while any of it is left, and then of the
    /// log.
    pub fn give(&mut self, count: usize)
        requires hello { IsFalse (is_empty self.old.unsent) → count ≤ length self.old.unsent }
        requires log { (at : ℕ) → self.old.cursor ≡ Some at → at + count < 2 ^ 32 }
        requires count { count < 2 ^ 32 }
        ensures { self.new ≡ V.gave count self.old }
    {
        if self.unsent.is_empty() {
            self.go_on(count);
        } else {
            self.unsent.give(count);
        }
    }

    /// So many bytes of the log were given, if a WANT came.
    fn go_on(&mut self, count: usize)
        requires log { (at : ℕ) → self.old.cursor ≡ Some at → at + count < 2 ^ 32 }
        requires count { count < 2 ^ 32 }
        ensures { self.new ≡ record self.old { cursor = option_map (λ at. at + count) self.old.cursor } }
    {
        if let Some(at) = self.cursor {
            self.cursor = Some(at + count as u32);
        }
    }
}
