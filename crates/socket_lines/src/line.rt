//! One socket.

ghost use Rattle.std.specs.Prelude.{◌≡◌, ◌≤◌, ◌<◌, ◌+◌, ◌^◌, Option, Some, None};
ghost use Rattle.definitions.specs.Lists.{is_empty};
ghost use Rattle.socket_lines.specs.declared.limits.TheConstants.{HELLO_BYTES};
ghost use Rattle.socket_lines.specs.Lines as L;

use crate::limits::HELLO_BYTES;
use crate::unsent::Unsent;
use definitions::{Place, PlayerId};
use socket_station::SocketId;
use wire_frames::FrameReader;

/// A socket, from its opening to the first poll behind its end.
#[derive(Drop)]
pub struct Line {
    /// Its number.
    pub socket: SocketId,
    pub is_open: bool,
    /// The player for whom it was dialled. One that was accepted has none.
    pub dialled: Option<PlayerId>,
    /// The player whose HELLO came.
    pub name: Option<PlayerId>,
    /// The frame that is begun in what was taken.
    pub reader: FrameReader,
    /// How many bytes were taken before it was named, its HELLO with them.
    pub taken: u32,
    /// Whether a read answered that nothing is there, after the opening and after the last poll that listed it.
    pub is_quiet: bool,
    /// Whether a write answered that nothing can be given, after the last poll that listed it.
    pub is_blocked: bool,
    /// Whether a rule or a limit asks that it be shut.
    pub is_wrong: bool,
    /// The next place that the HELLO will ask for, where a HELLO is due and none of its bytes was given.
    pub hello: Option<Place>,
    /// What was not given of a frame that is given in part.
    pub unsent: Unsent,
    /// The place of the own frame that is given in part.
    pub sending: Option<Place>,
    /// The place of the own frame that goes out next.
    pub cursor: Place,
    /// Where the cursor goes behind the own frame that is given in part, if a WANT came meanwhile.
    pub jump: Option<Place>,
}

impl Line {
    /// A socket that was accepted: nothing is due before its HELLO. One beyond the most that are accepted is wrong.
    pub fn accepted(socket: SocketId, is_wrong: bool) -> Line
        ensures { result ≡ L.accepted_line socket is_wrong }
    {
        Line {
            socket,
            is_open: true,
            dialled: None,
            name: None,
            reader: FrameReader::new(),
            taken: 0,
            is_quiet: false,
            is_blocked: false,
            is_wrong,
            hello: None,
            unsent: Unsent::new(),
            sending: None,
            cursor: 0,
            jump: None,
        }
    }

    /// A socket that was dialled for the player: a HELLO that asks for this place is due at once.
    pub fn dialled(socket: SocketId, player: PlayerId, next: Place) -> Line
        ensures { result ≡ L.dialled_line socket player next }
    {
        let mut line = Line::accepted(socket, false);
        line.dialled = Some(player);
        line.hello = Some(next);
        line
    }

    /// The player whose it is: the one whose HELLO came, or for whom it was dialled.
    pub fn player(&self) -> Option<PlayerId>
        ensures { result ≡ L.player_of self.now }
    {
        match self.name {
            Some(player) => Some(player),
            None => self.dialled,
        }
    }

    /// Whether it is open and named so.
    pub fn is_named(&self, player: PlayerId) -> bool
        ensures { result ≡ L.is_named player self.now }
    {
        self.is_open && self.name == Some(player)
    }

    /// Whether it is open, and was dialled for the player or is named so.
    pub fn serves(&self, player: PlayerId) -> bool
        ensures { result ≡ L.serves player self.now }
    {
        self.is_open && (self.dialled == Some(player) || self.name == Some(player))
    }

    /// Whether the HELLO of the player may name it: one that was dialled is named by the player dialled alone.
    pub fn lets_name(&self, player: PlayerId) -> bool
        ensures { result ≡ L.lets_name player self.now }
    {
        match self.dialled {
            Some(dialled) => dialled == player,
            None => true,
        }
    }

    /// How many bytes may still be taken before it has a name.
    pub fn unnamed_room(&self) -> u32
        ensures { result ≡ L.unnamed_room self.now }
    {
        HELLO_BYTES.saturating_sub(self.taken)
    }

    /// A HELLO named it, which asks for own frames from this place on. A HELLO that asks for the other place is due, unless it was due at the
    /// dial.
    pub fn take_name(&mut self, player: PlayerId, from: Place, next: Place)
        ensures { self.new ≡ L.named_line player from next self.old }
    {
        self.name = Some(player);
        self.cursor = from;
        if self.dialled.is_none() {
            self.hello = Some(next);
        }
    }

    /// A WANT moves the cursor, at once or behind the own frame that is given in part.
    pub fn move_to(&mut self, place: Place)
        ensures { self.new ≡ L.moved_to place self.old }
    {
        if self.sending.is_some() {
            self.jump = Some(place);
        } else {
            self.cursor = place;
        }
    }

    /// A rule or a limit asks to shut it.
    pub fn doom(&mut self)
        ensures { self.new ≡ L.doomed self.old }
    {
        self.is_wrong = true;
    }

    /// It ended, failed or was shut.
    pub fn close(&mut self)
        ensures { self.new ≡ L.closed self.old }
    {
        self.is_open = false;
    }

    /// A read found nothing.
    pub fn quiet(&mut self)
        ensures { self.new ≡ L.quieted self.old }
    {
        self.is_quiet = true;
    }

    /// A write was refused for now.
    pub fn block(&mut self)
        ensures { self.new ≡ L.blocked self.old }
    {
        self.is_blocked = true;
    }

    /// A poll listed it: it may be read and written again.
    pub fn wake(&mut self)
        ensures { self.new ≡ L.woken self.old }
    {
        self.is_quiet = false;
        self.is_blocked = false;
    }
}
