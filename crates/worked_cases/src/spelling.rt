//! Texts in which braces stand for bytes.

use crate::book::Book;
use crate::faults::Fault;
use crate::lines::{line_of, number};
use crate::openings::{even_nonce, fields_of, opening_of, pass_of};
use commitment::frame_of;
use definitions::What;
use hex::encode;
use wire_frames::{Frame, put_frame};

/// Puts the digits of these bytes behind the text.
fn put_digits(book: &Book, bytes: &[u8], out: &mut Vec<u8>) -> Result<(), Fault> {
    let digits = encode(book.alloc, bytes)?;
    out.extend_from_slice(digits.as_bytes())?;
    Ok(())
}

/// Puts the digits of this frame behind the text.
fn put_spelled_frame(book: &Book, frame: &Frame, out: &mut Vec<u8>) -> Result<(), Fault> {
    let mut bytes = [0; 64];
    let count = put_frame(frame, &mut bytes);
    put_digits(book, &bytes[..count.min(64)], out)
}

/// Puts a commitment or a reveal of the opening that the words say.
fn put_turn(book: &Book, what: What, words: &str, out: &mut Vec<u8>) -> Result<(), Fault> {
    let words = fields_of(book, words)?;
    let opening = opening_of(book, words.as_slice())?;
    let frame = frame_of(book.id(), what, &opening);
    put_spelled_frame(book, &Frame::Turn(frame), out)
}

/// Puts the greeting of the words `PLAYER PASS NEXT`.
fn put_greeting(book: &Book, words: &str, out: &mut Vec<u8>) -> Result<(), Fault> {
    let words = fields_of(book, words)?;
    let [player, pass, next] = words.as_slice() else {
        return Err(Fault::Wanted("H PLAYER PASS NEXT"));
    };
    let player = number(player)?;
    let pass = pass_of(pass)?;
    let next = number(next)?;
    let id = *book.id();
    let greeting = Frame::Hello {
        id,
        player,
        pass,
        next,
    };
    put_spelled_frame(book, &greeting, out)
}

/// Puts a want of the place.
fn put_want(book: &Book, place: &str, out: &mut Vec<u8>) -> Result<(), Fault> {
    let place = number(place)?;
    put_spelled_frame(book, &Frame::Want { place }, out)
}

/// Puts a byte.
fn put_byte(byte: u8, out: &mut Vec<u8>) -> Result<(), Fault> {
    out.push(byte)?;
    Ok(())
}

/// Puts a text so many times, by the words `COUNT TEXT`.
fn put_times(words: &str, out: &mut Vec<u8>) -> Result<(), Fault> {
    let line = line_of(words);
    let count = number::<u32>(line.word)?;
    for _time in 0..count {
        out.extend_from_slice(line.rest.as_bytes())?;
    }
    Ok(())
}

/// Puts the digits of the front of named bytes, or of what stands behind it, by the words `COUNT
/// NAME`.
fn put_part(book: &Book, words: &str, is_front: bool, out: &mut Vec<u8>) -> Result<(), Fault> {
    let line = line_of(words);
    let count = number::<u32>(line.word)? as usize;
    let bytes = book.find(line.rest)?;
    let at = count.min(bytes.len());
    let part = if is_front { &bytes[..at] } else { &bytes[at..] };
    put_digits(book, part, out)
}

/// Puts the digits of a nonce of equal bytes, or of named bytes.
fn put_named(book: &Book, name: &str, out: &mut Vec<u8>) -> Result<(), Fault> {
    match even_nonce(name) {
        Some(nonce) => put_digits(book, &nonce, out),
        None => {
            let bytes = book.find(name)?;
            put_digits(book, bytes, out)
        }
    }
}

/// Puts what the words between two braces stand for.
fn put_braced(book: &Book, words: &str, out: &mut Vec<u8>) -> Result<(), Fault> {
    let line = line_of(words);
    match line.word {
        "C" => put_turn(book, What::Commit, line.rest, out),
        "R" => put_turn(book, What::Reveal, line.rest, out),
        "H" => put_greeting(book, line.rest, out),
        "W" => put_want(book, line.rest, out),
        "blank" => put_byte(b' ', out),
        "lf" => put_byte(b'\n', out),
        "times" => put_times(line.rest, out),
        "front" => put_part(book, line.rest, true, out),
        "behind" => put_part(book, line.rest, false, out),
        _ => put_named(book, words, out),
    }
}

/// Puts what stands behind a brace that opens: what it stands for, and the text behind the one
/// that closes.
fn put_piece(book: &Book, piece: &str, out: &mut Vec<u8>) -> Result<(), Fault> {
    match piece.split_once('}') {
        None => Err(Fault::Wanted("a } behind each {")),
        Some((words, text)) => {
            put_braced(book, words, out)?;
            out.extend_from_slice(text.as_bytes())?;
            Ok(())
        }
    }
}

/// The text with what its braces stand for.
pub fn spelled(book: &Book, text: &str) -> Result<Vec<u8>, Fault> {
    let mut out = Vec::new(book.alloc);
    let mut pieces = text.split('{');
    if let Some(front) = pieces.next() {
        out.extend_from_slice(front.as_bytes())?;
    }
    for piece in pieces {
        put_piece(book, piece, &mut out)?;
    }
    Ok(out)
}

/// The text as a line with its LF.
fn line_spelled(book: &Book, text: &str) -> Result<Vec<u8>, Fault> {
    let mut line = spelled(book, text)?;
    line.push(b'\n')?;
    Ok(line)
}

/// The bytes that the digits of the text say.
pub fn bytes_spelled(book: &Book, text: &str) -> Result<Vec<u8>, Fault> {
    let digits = spelled(book, text)?;
    match hex::decode(book.alloc, digits.as_slice()) {
        Ok(bytes) => Ok(bytes),
        Err(_) => Err(Fault::Wanted("hexadecimal digits, two a byte")),
    }
}

/// The bytes so many times.
fn times(book: &Book, count: u32, bytes: &[u8]) -> Result<Vec<u8>, Fault> {
    let mut all = Vec::new(book.alloc);
    for _time in 0..count {
        all.extend_from_slice(bytes)?;
    }
    Ok(all)
}

/// The line of the words `COUNT TEXT`, so many times.
fn lines_spelled(book: &Book, words: &str) -> Result<Vec<u8>, Fault> {
    let words = line_of(words);
    let count = number(words.word)?;
    let line = line_spelled(book, words.rest)?;
    times(book, count, line.as_slice())
}

/// The text with this number for each `#`.
fn counted(book: &Book, text: &str, number: u32) -> Result<String, Fault> {
    let digits = format!(in book.alloc; "{number}")?;
    let mut out = String::new(book.alloc);
    let mut pieces = text.split('#');
    if let Some(front) = pieces.next() {
        out.push_str(front)?;
    }
    for piece in pieces {
        out.push_str(digits.as_str())?;
        out.push_str(piece)?;
    }
    Ok(out)
}

/// Puts the line of a text with this number for each `#`.
fn put_counted(book: &Book, text: &str, number: u32, out: &mut Vec<u8>) -> Result<(), Fault> {
    let text = counted(book, text, number)?;
    let line = line_spelled(book, text.as_str())?;
    out.extend_from_slice(line.as_slice())?;
    Ok(())
}

/// The lines of the words `FROM TO TEXT`, one for each number.
fn lines_counted(book: &Book, words: &str) -> Result<Vec<u8>, Fault> {
    let from = line_of(words);
    let to = line_of(from.rest);
    let first = number::<u32>(from.word)?;
    let last = number::<u32>(to.word)?;
    let mut out = Vec::new(book.alloc);
    for number in first..=last {
        put_counted(book, to.rest, number, &mut out)?;
    }
    Ok(out)
}

/// The bytes of the words `COUNT DIGITS`, so many times.
fn all_bytes_spelled(book: &Book, words: &str) -> Result<Vec<u8>, Fault> {
    let words = line_of(words);
    let count = number(words.word)?;
    let bytes = bytes_spelled(book, words.rest)?;
    times(book, count, bytes.as_slice())
}

/// The bytes that a line with a mark says: `| TEXT` a line with its LF, `/ TEXT` a text without
/// one, `x DIGITS` bytes, `|* COUNT TEXT` and `x* COUNT DIGITS` the same so many times, and
/// `|# FROM TO TEXT` a line for each number, which stands for each `#`. None where it has no mark.
pub fn marked(book: &Book, mark: &str, text: &str) -> Result<Option<Vec<u8>>, Fault> {
    let bytes = match mark {
        "|" => line_spelled(book, text)?,
        "|*" => lines_spelled(book, text)?,
        "|#" => lines_counted(book, text)?,
        "/" => spelled(book, text)?,
        "x" => bytes_spelled(book, text)?,
        "x*" => all_bytes_spelled(book, text)?,
        _ => return Ok(None),
    };
    Ok(Some(bytes))
}
