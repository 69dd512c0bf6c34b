//! Which words of a command name files, and what is wrong with these.

use crate::usage::name_in;
use command_names::Name;
use machine_host::text_of;
use std::fs;
use std::io::{Error, ErrorKind};

/// Whether the word at this place after the command's name, from 0, names a file that is read.
fn is_read(name: Name, place: usize) -> bool {
    match name {
        Name::Accuse | Name::Audit | Name::Judge => true,
        Name::Deposit => matches!(place, 0 | 1 | 4),
        Name::Drive | Name::Root => matches!(place, 0 | 2),
        Name::Make => false,
        Name::Peer => matches!(place, 0 | 1 | 2 | 6),
        Name::Post => matches!(place, 0..=2),
        Name::Schedule | Name::Upgrade => place == 0,
        Name::Seal => matches!(place, 0 | 2 | 3),
        Name::Watch => matches!(place, 0 | 1),
    }
}

/// Whether that file is a text.
fn is_text(name: Name, place: usize) -> bool {
    match name {
        Name::Accuse | Name::Deposit | Name::Watch => matches!(place, 0 | 1),
        Name::Audit | Name::Drive | Name::Root | Name::Seal => place == 0,
        Name::Schedule | Name::Upgrade => place == 0,
        Name::Judge => true,
        Name::Make => false,
        Name::Peer | Name::Post => matches!(place, 0..=2),
    }
}

/// What the machine says of a file, in words.
pub(crate) fn reason_of(error: &Error) -> &'static str {
    match error.kind() {
        ErrorKind::NotFound => "there is no such file",
        ErrorKind::PermissionDenied => "the machine doesn't allow it",
        ErrorKind::NotADirectory => "what stands before a slash in its name is no folder",
        ErrorKind::FilesystemLoop => "its links go round in a circle",
        ErrorKind::InvalidFilename => "its name is too long",
        _ => "the machine can't",
    }
}

/// Why the file at this path can't be read, if it can't.
fn fault_of(rt: &HostRuntime, path: &str) -> Option<&'static str> {
    match fs::metadata(rt, path) {
        Err(error) => Some(reason_of(&error)),
        Ok(found) if found.is_dir() => Some("it is a folder"),
        Ok(found) if !found.is_file() => Some("it is no plain file, which can be read at places"),
        Ok(_) => match fs::open(rt, path) {
            Err(error) => Some(reason_of(&error)),
            Ok(_) => None,
        },
    }
}

/// Says which file couldn't be read, and why: the first one of the words' files that still can't.
pub(crate) fn tell_unread(rt: &HostRuntime, words: &[Vec<u8>]) {
    let (Some(name), [_, rest @ ..]) = (name_in(words), words) else {
        return;
    };
    for (place, word) in rest.iter().enumerate() {
        if !is_read(name, place) {
            continue;
        }
        let Ok(path) = text_of(word.as_slice()) else {
            let _unsaid = eprintln!(rt; "lethwyrn: a file's name isn't UTF-8, and names none");
            return;
        };
        if let Some(why) = fault_of(rt, path) {
            let _unsaid = eprintln!(rt; "lethwyrn: {path} can't be read: {why}");
            return;
        }
    }
    let _unsaid = eprintln!(rt; "lethwyrn: the input or a file couldn't be read to its end");
}

/// The most bytes of a text that are looked at.
const MOST_LOOKED_AT: u64 = 16_777_216;

/// The number of the first line, from 1, that ends in CR and LF.
fn carriage_return_in(text: &[u8]) -> Option<usize> {
    let at = text.windows(2).position(|two| two == b"\r\n".as_slice())?;
    Some(text[..at].iter().filter(|byte| **byte == b'\n').count() + 1)
}

/// Says what an editor may have put into a text that no text of the program has.
fn tell_text(rt: &HostRuntime, path: &str) {
    let Ok(found) = fs::metadata(rt, path) else {
        return;
    };
    if found.len() > MOST_LOOKED_AT {
        return;
    }
    let Ok(text) = fs::read(rt, path) else {
        return;
    };
    if text.as_slice().starts_with(b"\xef\xbb\xbf".as_slice()) {
        let _unsaid = eprintln!(rt;
            "lethwyrn: {path} begins with a byte order mark: save it without one"
        );
    }
    if let Some(line) = carriage_return_in(text.as_slice()) {
        let _unsaid = eprintln!(rt;
            "lethwyrn: {path} has CR and LF at the end of line {line}: save it with LF alone"
        );
    }
    if text.as_slice().is_empty() {
        let _unsaid = eprintln!(rt; "lethwyrn: {path} is empty");
    }
}

/// Says of the words' texts what an editor may have put into them.
pub(crate) fn tell_texts(rt: &HostRuntime, words: &[Vec<u8>]) {
    let (Some(name), [_, rest @ ..]) = (name_in(words), words) else {
        return;
    };
    for (place, word) in rest.iter().enumerate() {
        if is_text(name, place)
            && let Ok(path) = text_of(word.as_slice())
        {
            tell_text(rt, path);
        }
    }
}
