//! The names of the commands: how each is written, and how many words stand after it.

ghost use Rattle.std.specs.Prelude.{◌≡◌};
ghost use Rattle.command_names.specs.Names as N;

use definitions::limits::MOST_AUDITED;

/// The commands of the program.
#[derive(Clone, Copy, Debug, PartialEq, Eq)]
pub enum Name {
    /// What files of sealed frames show is printed.
    Accuse,
    /// What the logs of a session show is printed.
    Audit,
    /// A player's log is given to a live logger.
    Deposit,
    /// A peer is driven by the input.
    Drive,
    /// An exhibit is judged, by the players' roots where they are named.
    Judge,
    /// The match of a number is made.
    Make,
    /// A match is played over sockets.
    Peer,
    /// A match is played over datagrams.
    Post,
    /// The root of a player's keys is told.
    Root,
    /// The honest peers of a match are stepped by the input.
    Schedule,
    /// What a player made is sealed.
    Seal,
    /// A session is printed in version 2.
    Upgrade,
    /// The logs of all players are taken while they play.
    Watch,
}

/// All the names, each once, in the order in which clap has their commands.
pub const ALL: &[Name] = &[
    Name::Accuse,
    Name::Audit,
    Name::Deposit,
    Name::Drive,
    Name::Judge,
    Name::Make,
    Name::Peer,
    Name::Post,
    Name::Root,
    Name::Schedule,
    Name::Seal,
    Name::Upgrade,
    Name::Watch,
];

/// How the name of a command is written, and how many words stand after it.
#[derive(Clone, Copy)]
pub struct Form {
    /// The name as it is written.
    pub text: &'static str,
    /// The fewest words after the name.
    pub least: usize,
    /// The most words after the name.
    pub most: usize,
}

impl Form {
    /// The form of a name that is written so, with so many words at least and at most after it.
    fn new(text: &'static str, least: usize, most: usize) -> Form
        ensures { N.form_said result ≡ N.written text.now least most }
    {
        Form { text, least, most }
    }
}

impl Name {
    /// How the name is written, and how many words stand after it.
    pub fn form(self) -> Form
        ensures { N.form_said result ≡ N.form_of self }
    {
        match self {
            Name::Accuse => Form::new("accuse", 3, 2 + MOST_AUDITED),
            Name::Audit => Form::new("audit", 2, 1 + MOST_AUDITED),
            Name::Deposit => Form::new("deposit", 5, 5),
            Name::Drive => Form::new("drive", 2, 3),
            Name::Judge => Form::new("judge", 2, 3),
            Name::Make => Form::new("make", 1, 1),
            Name::Peer => Form::new("peer", 6, 7),
            Name::Post => Form::new("post", 6, 6),
            Name::Root => Form::new("root", 3, 3),
            Name::Schedule => Form::new("schedule", 1, 1),
            Name::Seal => Form::new("seal", 4, 4),
            Name::Upgrade => Form::new("upgrade", 1, 1),
            Name::Watch => Form::new("watch", 3, 3),
        }
    }

    /// Whether the command takes so many words.
    pub fn takes(self, count: usize) -> bool
        ensures { result ≡ N.takes self count }
    {
        let form = self.form();
        form.least <= count && count <= form.most
    }

    /// Whether the name is written so.
    fn is_written(self, text: &[u8]) -> bool
        ensures { result ≡ N.is_written text.now self }
    {
        text == self.form().text.as_bytes()
    }

    /// The command whose name is written so, if there is one.
    pub fn read(text: &[u8]) -> Option<Name>
        ensures { result ≡ N.named text.now }
    {
        for &name in ALL {
            if name.is_written(text) {
                return Some(name);
            }
        }
        None
    }
}
