//! Logs that are spelled entry by entry.

use crate::book::Book;
use crate::faults::Fault;
use crate::lines::{Line, line_of, number};
use crate::openings::{fields_of, opening_of};
use crate::spelling::bytes_spelled;
use commitment::whole_turn;
use definitions::{Entry, TurnFrame};
use grid_world::read_session;
use session_log::LogWriter;

/// The frame of a turn at the front of the bytes, and what stands behind it.
fn front_frame(bytes: &[u8]) -> Option<(TurnFrame, &[u8])> {
    let count = usize::from(*bytes.get(2)?) + 3;
    if bytes.len() < count {
        return None;
    }
    let (front, rest) = bytes.split_at(count);
    let frame = whole_turn(front)?;
    Some((frame, rest))
}

/// The frames of turns that the text spells, one behind the other.
fn frames_of(book: &Book, text: &str) -> Result<Vec<TurnFrame>, Fault> {
    let bytes = bytes_spelled(book, text)?;
    let mut frames = Vec::new(book.alloc);
    let mut rest = bytes.as_slice();
    for _byte in 0..bytes.len() {
        if rest.is_empty() {
            break;
        }
        let Some((frame, behind)) = front_frame(rest) else {
            return Err(Fault::Wanted("frames of turns"));
        };
        frames.push(frame)?;
        rest = behind;
    }
    Ok(frames)
}

/// The choice of the words `TURN X Y NONCE`, or with a strike.
fn choice_of(book: &Book, words: &str) -> Result<Entry, Fault> {
    let mut fields = fields_of(book, words)?;
    // an opening names its player first, and a choice doesn't
    fields.insert(0, "0")?;
    let opening = opening_of(book, fields.as_slice())?;
    Ok(Entry::Chose {
        turn: opening.turn,
        mv: opening.mv,
        nonce: opening.nonce,
    })
}

/// Puts an entry's bytes behind those of the log.
fn put_entry(writer: &mut LogWriter, entry: &Entry, log: &mut Vec<u8>) -> Result<(), Fault> {
    let mut out = [0; 96];
    let count = writer.put(entry, &mut out);
    log.extend_from_slice(&out[..count.min(96)])?;
    Ok(())
}

/// Puts the choice of the words.
fn put_choice(
    book: &Book,
    writer: &mut LogWriter,
    words: &str,
    log: &mut Vec<u8>,
) -> Result<(), Fault> {
    let entry = choice_of(book, words)?;
    put_entry(writer, &entry, log)
}

/// Puts the frames of the text, each as one that the owner made.
fn put_made(
    book: &Book,
    writer: &mut LogWriter,
    text: &str,
    log: &mut Vec<u8>,
) -> Result<(), Fault> {
    for frame in frames_of(book, text)? {
        put_entry(writer, &Entry::Made(frame), log)?;
    }
    Ok(())
}

/// Puts the frames of the words `PLAYER FRAMES`, each as one that was received.
fn put_got(
    book: &Book,
    writer: &mut LogWriter,
    words: &str,
    log: &mut Vec<u8>,
) -> Result<(), Fault> {
    let line = line_of(words);
    let player = number(line.word)?;
    for frame in frames_of(book, line.rest)? {
        put_entry(writer, &Entry::Got(player, frame), log)?;
    }
    Ok(())
}

/// The bytes of the entries that a line says, as the log's writer puts them next.
pub fn entry_bytes(book: &Book, writer: &mut LogWriter, line: Line<'_>) -> Result<Vec<u8>, Fault> {
    let mut log = Vec::new(book.alloc);
    match line.word {
        "chose" => put_choice(book, writer, line.rest, &mut log)?,
        "made" => put_made(book, writer, line.rest, &mut log)?,
        "got" => put_got(book, writer, line.rest, &mut log)?,
        _ => return Err(Fault::Wanted("chose, made or got")),
    }
    Ok(log)
}

/// A writer of the log of the words `SESSION OWNER`. Frames are spelled over that session now.
pub fn writer_of(book: &mut Book, words: &str) -> Result<LogWriter, Fault> {
    let line = line_of(words);
    let owner = number(line.rest)?;
    book.go_over(line.word)?;
    let text = book.find(line.word)?;
    match read_session(book.alloc, text) {
        Err(_) => Err(Fault::Wanted("the name of a session's text")),
        Ok(session) => Ok(LogWriter::new(&session, owner)),
    }
}
