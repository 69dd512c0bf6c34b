//! Each command, by the program's words, and what is done for it.

ghost use Rattle.std.specs.Prelude.{◌≡◌, Some, [], is_some, map, option_map};
ghost use Rattle.run_frame.specs.Outside.{outside};
ghost use Rattle.run_frame.specs.Runs.{Works};
ghost use Rattle.peer_runs.specs.Commands as C;
ghost use Rattle.peer_runs.specs.Commands.{command_said, law_of};

use accuse_command::{AccuseWords, read_accuse_words, run_accuse};
use command_names::Name;
use datagram_post::Post;
use deposit_command::{DepositWords, read_deposit_words, run_deposit};
use drive_command::{DriveWords, read_drive_words, run_drive};
use file_commands::{
    AuditWords, JudgeWords, SealedJudgeWords, read_audit_words, read_judge_words,
    read_sealed_judge_words, read_upgrade_words, run_audit, run_judge, run_sealed_judge,
    run_upgrade,
};
use key_commands::{KeyWords, SealWords, read_root_words, read_seal_words, run_root, run_seal};
use make_command::{read_make_words, run_make};
use peer_command::{PeerWords, read_peer_words, run_peer};
use post_command::{PostWords, read_post_words, run_post};
use rand_core::Rng;
use run_frame::Status;
use schedule_command::{read_schedule_words, run_schedule};
use socket_station::Station;
use station::{Shelf, Sink, Source, are_words};
use std::alloc::Global;
use watch_command::{WatchWords, read_watch_words, run_watch};

/// A command, with its words.
#[derive(Clone, Copy)]
pub enum Command<'a> {
    /// A peer is driven by the input.
    Drive(DriveWords<'a>),
    /// The session of this file is printed in version 2.
    Upgrade(&'a [u8]),
    /// The exhibit of a file is judged.
    Judge(JudgeWords<'a>),
    /// The exhibit of a file is judged with its seals, by the players' roots.
    SealedJudge(SealedJudgeWords<'a>),
    /// What the logs of files show is printed.
    Audit(AuditWords<'a>),
    /// What files of sealed frames show is printed.
    Accuse(AccuseWords<'a>),
    /// The honest peers of a match in the session of this file are stepped by the input.
    Schedule(&'a [u8]),
    /// The match of this number is made.
    Make(u64),
    /// A player plays with others over sockets.
    Peer(PeerWords<'a>),
    /// A player plays with others over datagrams.
    Post(PostWords<'a>),
    /// A player's log is given to a live logger.
    Deposit(DepositWords<'a>),
    /// The root of a player's keys is told.
    Root(KeyWords<'a>),
    /// Each frame that a player made is written with its seal.
    Seal(SealWords<'a>),
    /// The logs of all players are taken while they play, and what they show is printed.
    Watch(WatchWords<'a>),
}

/// The command to judge that these words say: by roots where three words stand there.
fn read_judging(words: &[Vec<u8>]) -> Option<Command<'_>>
    ensures { option_map command_said result ≡ C.judge_in (map (λ w. w.items) words.now) }
{
    match read_judge_words(words) {
        Some(words) => Some(Command::Judge(words)),
        None => Some(Command::SealedJudge(read_sealed_judge_words(words)?)),
    }
}

/// The command of this name with these words, if they are words of it.
pub fn read_in<'a>(name: Name, words: &'a [Vec<u8>]) -> Option<Command<'a>>
    ensures { option_map command_said result ≡ C.command_in name (map (λ w. w.items) words.now) }
{
    match name {
        Name::Accuse => Some(Command::Accuse(read_accuse_words(words)?)),
        Name::Audit => Some(Command::Audit(read_audit_words(words)?)),
        Name::Deposit => Some(Command::Deposit(read_deposit_words(words)?)),
        Name::Drive => Some(Command::Drive(read_drive_words(words)?)),
        Name::Judge => read_judging(words),
        Name::Make => Some(Command::Make(read_make_words(words)?)),
        Name::Peer => Some(Command::Peer(read_peer_words(words)?)),
        Name::Post => Some(Command::Post(read_post_words(words)?)),
        Name::Root => Some(Command::Root(read_root_words(words)?)),
        Name::Schedule => Some(Command::Schedule(read_schedule_words(words)?)),
        Name::Seal => Some(Command::Seal(read_seal_words(words)?)),
        Name::Upgrade => Some(Command::Upgrade(read_upgrade_words(words)?)),
        Name::Watch => Some(Command::Watch(read_watch_words(words)?)),
    }
}

/// The command whose name is written so, with these words.
#[tactic(auto, unfolding(crate::specs::Commands::command_named))]
fn read_named<'a>(name: &[u8], words: &'a [Vec<u8>]) -> Option<Command<'a>>
    ensures { option_map command_said result ≡ C.command_named name.now (map (λ w. w.items) words.now) }
{
    let name = Name::read(name)?;
    read_in(name, words)
}

/// Does what the command asks for, but for the last line of a refusal. Each command is handed only what it uses.
///
/// No call of the station or the post was made before.
pub fn obey<I: Source, O: Sink, H: Shelf, S: Station, D: Post, R: Rng>(
    alloc: Global,
    command: Command<'_>,
    input: &mut I,
    out: &mut O,
    shelf: &mut H,
    station: &mut S,
    post: &mut D,
    chance: &mut R,
) -> Status
    requires first { S.history station.old ≡ [] }
    requires unposted { D.history post.old ≡ [] }
    ensures { Works (law_of (Some (command_said command.entry)))
        (outside (I.state input.old) (O.state out.old) (H.state shelf.old) (S.history station.old) (D.history post.old) (R.stream chance.old))
        (outside (I.state input.new) (O.state out.new) (H.state shelf.new) (S.history station.new) (D.history post.new) (R.stream chance.new)) result }
{
    match command {
        Command::Drive(words) => run_drive(alloc, words, input, out, shelf),
        Command::Upgrade(session) => run_upgrade(alloc, session, out, shelf),
        Command::Judge(words) => run_judge(alloc, words, out, shelf),
        Command::SealedJudge(words) => run_sealed_judge(alloc, words, out, shelf),
        Command::Audit(words) => run_audit(alloc, words, out, shelf),
        Command::Accuse(words) => run_accuse(alloc, words, out, shelf),
        Command::Schedule(session) => run_schedule(alloc, session, input, out, shelf),
        Command::Make(number) => run_make(alloc, number, out),
        Command::Peer(words) => run_peer(alloc, words, out, shelf, station, chance),
        Command::Post(words) => run_post(alloc, words, out, shelf, post, chance),
        Command::Deposit(words) => run_deposit(alloc, words, out, shelf, station),
        Command::Root(words) => run_root(alloc, words, out, shelf),
        Command::Seal(words) => run_seal(alloc, words, out, shelf),
        Command::Watch(words) => run_watch(alloc, words, out, shelf, station),
    }
}

/// The command that the words are.
fn read_words(words: &[Vec<u8>]) -> Option<Command<'_>>
    ensures { option_map command_said result ≡ C.command_read (map (λ w. w.items) words.now) }
{
    match words {
        [] => None,
        [name, rest @ ..] => read_named(name.as_slice(), rest),
    }
}

/// The command that the program's words are.
#[tactic(auto, unfolding(crate::specs::Commands::command_of))]
pub(crate) fn read_command(words: &[Vec<u8>]) -> Option<Command<'_>>
    ensures { option_map command_said result ≡ C.command_of (map (λ w. w.items) words.now) }
{
    if are_words(words) {
        read_words(words)
    } else {
        None
    }
}

/// Whether the program's words are a command. That takes no memory, so that words that are none are told so whatever
/// the memory.
pub fn is_command(words: &[Vec<u8>]) -> bool
    ensures { result ≡ is_some (C.command_of (map (λ w. w.items) words.now)) }
{
    read_command(words).is_some()
}
