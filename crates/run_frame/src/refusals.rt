//! The last line of a run that did not come to its command's end.

ghost use Rattle.std.specs.Prelude.{◌≡◌};
ghost use Rattle.run_frame.specs.Statuses.{rule_name, why_word, text_word, bad_session_line, bad_log_line, bad_line_line, bad_seal_line, refusal_of};
ghost use Rattle.run_frame.specs.Ends.{Refuses};

use crate::statuses::{Status, TextName};
use arrayvec::ArrayVec;
use definitions::{LogWhy, SessionRule};
use itoa::Buffer;
use line_io::{put, text_of};
use station::Sink;

/// Room for a line of a refusal, which has at most 46 bytes.
const REFUSAL_ROOM: usize = 64;

/// A line of a refusal.
type RefusalLine = ArrayVec<u8, REFUSAL_ROOM>;

/// The name of a rule of session texts.
fn name_of_rule(rule: SessionRule) -> &'static [u8]
    ensures { result.now ≡ rule_name rule }
{
    match rule {
        SessionRule::S1 => b"S1",
        SessionRule::S2 => b"S2",
        SessionRule::S3 => b"S3",
        SessionRule::S4 => b"S4",
        SessionRule::S5 => b"S5",
        SessionRule::S6 => b"S6",
        SessionRule::S7 => b"S7",
        SessionRule::S8 => b"S8",
        SessionRule::S9 => b"S9",
        SessionRule::S10 => b"S10",
        SessionRule::S11 => b"S11",
        SessionRule::S12 => b"S12",
    }
}

/// The word for what is wrong with a log.
fn word_of_why(why: LogWhy) -> &'static [u8]
    ensures { result.now ≡ why_word why }
{
    match why {
        LogWhy::TooLong => b"too-long",
        LogWhy::Torn => b"torn",
        LogWhy::BadChain => b"bad-chain",
        LogWhy::BadEntry => b"bad-entry",
        LogWhy::NotReplayed => b"not-replayed",
    }
}

/// The word for a text.
fn word_of_text(text: TextName) -> &'static [u8]
    ensures { result.now ≡ text_word text }
{
    match text {
        TextName::Script => b"script",
        TextName::Roster => b"roster",
        TextName::Moves => b"moves",
        TextName::Evidence => b"evidence",
        TextName::Seed => b"seed",
        TextName::Roots => b"roots",
    }
}

/// The line that tells of a session text that is not in its grammar.
#[tactic(auto, unfolding(crate::specs::Statuses::bad_session_line))]
fn line_of_bad_session(line: u32, what: SessionRule) -> RefusalLine
    ensures { result.items ≡ bad_session_line line what }
{
    let mut text = ArrayVec::new();
    text.try_extend_from_slice(b"bad session ").unwrap();
    text.try_extend_from_slice(Buffer::new().format(line).as_bytes())
        .unwrap();
    text.push(b' ');
    text.try_extend_from_slice(name_of_rule(what)).unwrap();
    text.push(b'\n');
    text
}

/// The line that tells of a log that can't be used.
#[tactic(auto, unfolding(crate::specs::Statuses::bad_log_line))]
fn line_of_bad_log(log: u32, at: u32, why: LogWhy) -> RefusalLine
    ensures { result.items ≡ bad_log_line log at why }
{
    let mut text = ArrayVec::new();
    text.try_extend_from_slice(b"bad log ").unwrap();
    text.try_extend_from_slice(Buffer::new().format(log).as_bytes())
        .unwrap();
    text.try_extend_from_slice(b" at ").unwrap();
    text.try_extend_from_slice(Buffer::new().format(at).as_bytes())
        .unwrap();
    text.push(b' ');
    text.try_extend_from_slice(word_of_why(why)).unwrap();
    text.push(b'\n');
    text
}

/// The line that tells of a line that is not in its grammar.
#[tactic(auto, unfolding(crate::specs::Statuses::bad_line_line))]
fn line_of_bad_line(name: TextName, line: u32) -> RefusalLine
    ensures { result.items ≡ bad_line_line name line }
{
    let mut text = ArrayVec::new();
    text.try_extend_from_slice(b"bad line ").unwrap();
    text.try_extend_from_slice(word_of_text(name)).unwrap();
    text.push(b' ');
    text.try_extend_from_slice(Buffer::new().format(line).as_bytes())
        .unwrap();
    text.push(b'\n');
    text
}

/// The line that tells of a file that is none of sealed frames.
#[tactic(auto, unfolding(crate::specs::Statuses::bad_seal_line))]
fn line_of_bad_seal(file: u32, at: u32) -> RefusalLine
    ensures { result.items ≡ bad_seal_line file at }
{
    let mut text = ArrayVec::new();
    text.try_extend_from_slice(b"bad seal ").unwrap();
    text.try_extend_from_slice(Buffer::new().format(file).as_bytes())
        .unwrap();
    text.try_extend_from_slice(b" at ").unwrap();
    text.try_extend_from_slice(Buffer::new().format(at).as_bytes())
        .unwrap();
    text.push(b'\n');
    text
}

/// The line by which a status is told.
fn refusal_line(status: Status) -> RefusalLine
    ensures { result.items ≡ refusal_of status }
{
    match status {
        Status::NoMemory => text_of(b"no memory\n"),
        Status::Usage => text_of(b"usage\n"),
        Status::BadSession { line, what } => line_of_bad_session(line, what),
        Status::InputFault => text_of(b"input fault\n"),
        Status::BadLog { log, at, why } => line_of_bad_log(log, at, why),
        Status::BadLine { text, line } => line_of_bad_line(text, line),
        Status::BadSeal { file, at } => line_of_bad_seal(file, at),
        Status::Done
        | Status::OutputFault
        | Status::Caught
        | Status::GaveUp
        | Status::KeepFault
        | Status::PollFault
        | Status::OwnMove { .. } => text_of(b""),
    }
}

/// Writes the line by which the status is told, if it has one. Where the sink fails in it, that is the status.
pub fn refuse<O: Sink>(status: Status, out: &mut O) -> Status
    ensures { Refuses (O.state out.old) (O.state out.new) status result }
{
    match put(out, refusal_line(status).as_slice()) {
        Ok(()) => status,
        Err(fault) => Status::from(fault),
    }
}
