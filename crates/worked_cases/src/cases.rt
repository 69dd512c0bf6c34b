//! A case: what the program is run on, and what must come out.

use crate::files::Files;
use std::alloc::Global;

/// The calls of each object that are to fail, counted from 1.
#[derive(Drop)]
pub struct Fails {
    pub files: Vec<u32>,
    pub input: Vec<u32>,
    pub output: Vec<u32>,
    pub station: Option<u32>,
    pub post: Option<u32>,
}

/// What a case wants of a run, as far as it says so.
#[derive(Drop)]
pub struct Wants {
    /// What is written.
    pub writes: Option<Vec<u8>>,
    /// Lines that are written in this order, with others between them.
    pub among: Option<Vec<u8>>,
    /// The last lines that are written, with none between them.
    pub ends: Option<Vec<u8>>,
    /// How many lines are written.
    pub lines: Option<usize>,
    /// The status.
    pub status: Option<usize>,
    /// How many polls are made.
    pub polls: Option<usize>,
    /// How many bytes the log keeps.
    pub keeps: Option<usize>,
    /// How many bytes are given on the first socket.
    pub gives: Option<usize>,
    /// Which bytes are given on sockets.
    pub given: Vec<Given>,
    /// How many datagrams are sent.
    pub sends: Option<usize>,
    /// Which datagrams are sent.
    pub sent: Vec<Posted>,
    /// Which sockets are open at the end, by their numbers.
    pub open: Vec<u32>,
    /// Which sockets aren't open at the end.
    pub shut: Vec<u32>,
}

/// The bytes that a socket of this number is given, all of them.
#[derive(Drop)]
pub struct Given {
    pub socket: u32,
    pub bytes: Vec<u8>,
}

/// The datagram of this number goes to this port, and has these bytes.
#[derive(Drop)]
pub struct Posted {
    pub number: u32,
    pub port: u16,
    pub bytes: Vec<u8>,
}

/// A datagram that comes, and before which poll: that of 0 comes before the first.
#[derive(Drop)]
pub struct Mail {
    pub poll: u32,
    pub bytes: Vec<u8>,
}

/// What a socket brings, and how.
#[derive(Drop)]
pub struct Socket {
    pub bytes: Vec<u8>,
    /// How many bytes a piece has.
    pub size: usize,
    /// Whether each poll brings one piece, and not the opening all of them.
    pub is_slow: bool,
    /// Whether it ends after its bytes.
    pub is_lost: bool,
}

/// How a socket brings its bytes.
#[derive(Clone, Copy)]
pub enum How {
    /// One piece a poll.
    Slow,
    /// It ends behind the last of them.
    Lost,
}

/// What the program is run on.
#[derive(Drop)]
pub struct Run {
    pub words: Vec<Vec<u8>>,
    pub files: Files,
    pub input: Vec<u8>,
    pub fails: Fails,
    /// How many items the station has room for, and the post.
    pub room: u32,
    /// How many bytes the station has room for, and the post.
    pub carries: u32,
    /// Those that come to the station.
    pub sockets: Vec<Socket>,
    /// Those that the program dials.
    pub dialled: Vec<Socket>,
    /// The datagrams that come, in their order.
    pub mails: Vec<Mail>,
}

/// What lines with a mark say after a line of a case.
#[derive(Clone, Copy)]
pub enum Part {
    /// Nothing: no line with a mark may follow.
    Nothing,
    /// Words, one a line.
    Words,
    /// The last file.
    File,
    Input,
    /// What the last socket brings that comes to the station.
    Socket,
    /// What the last socket brings that the program dials.
    Dialled,
    /// What the last socket is given of which that is said.
    Given,
    /// What the last datagram has that comes.
    Mail,
    /// What the last datagram has that is sent, of which that is said.
    Sent,
    Writes,
    Among,
    Ends,
}

/// What the program is run on, and what is wanted of the run.
#[derive(Drop)]
pub struct Case {
    /// The line of its sentence.
    pub line: u32,
    pub sentence: String,
    pub run: Run,
    pub wants: Wants,
    /// What lines with a mark say now.
    pub part: Part,
}

impl Fails {
    /// No call fails.
    fn none(alloc: Global) -> Fails {
        Fails {
            files: Vec::new(alloc),
            input: Vec::new(alloc),
            output: Vec::new(alloc),
            station: None,
            post: None,
        }
    }
}

impl Wants {
    /// Nothing is wanted.
    fn nothing(alloc: Global) -> Wants {
        Wants {
            writes: None,
            among: None,
            ends: None,
            lines: None,
            status: None,
            polls: None,
            keeps: None,
            gives: None,
            given: Vec::new(alloc),
            sends: None,
            sent: Vec::new(alloc),
            open: Vec::new(alloc),
            shut: Vec::new(alloc),
        }
    }

    /// Whether nothing is wanted, so that each run comes out as the case says.
    pub fn is_nothing(&self) -> bool {
        let has_text = self.writes.is_some() || self.among.is_some() || self.ends.is_some();
        let has_end = self.lines.is_some() || self.status.is_some() || self.polls.is_some();
        let has_counts = self.keeps.is_some() || self.gives.is_some() || self.sends.is_some();
        let has_bytes = has_counts || !self.given.is_empty() || !self.sent.is_empty();
        let has_sockets = !self.open.is_empty() || !self.shut.is_empty();
        !has_text && !has_end && !has_bytes && !has_sockets
    }
}

/// How many items a station or a post has room for, where a case doesn't say it.
const USUAL_ROOM: u32 = 4000;

/// How many bytes a station or a post has room for, where a case doesn't say it.
const USUALLY_CARRIED: u32 = 16_384;

impl Run {
    /// A run of no words, without files and input.
    fn new(alloc: Global) -> Run {
        Run {
            words: Vec::new(alloc),
            files: Files::new(alloc),
            input: Vec::new(alloc),
            fails: Fails::none(alloc),
            room: USUAL_ROOM,
            carries: USUALLY_CARRIED,
            sockets: Vec::new(alloc),
            dialled: Vec::new(alloc),
            mails: Vec::new(alloc),
        }
    }
}

impl Socket {
    /// A socket that brings nothing yet, and then pieces of so many bytes.
    pub fn new(alloc: Global, size: usize) -> Socket {
        Socket {
            bytes: Vec::new(alloc),
            size,
            is_slow: false,
            is_lost: false,
        }
    }

    /// It brings its bytes so too.
    pub fn mark(&mut self, how: How) {
        match how {
            How::Slow => self.is_slow = true,
            How::Lost => self.is_lost = true,
        }
    }
}

impl Case {
    /// A case of this sentence, of which nothing else is said yet.
    pub fn new(alloc: Global, line: u32, sentence: String) -> Case {
        Case {
            line,
            sentence,
            run: Run::new(alloc),
            wants: Wants::nothing(alloc),
            part: Part::Nothing,
        }
    }
}
