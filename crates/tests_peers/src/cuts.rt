//! A session log that is cut at each byte, or has any one bit turned.

use crate::frames::{commit, front, goes, put_entry, reveal, session_of};
use definitions::Entry;
use grid_world::Session;
use session_log::{LogReader, LogWriter, Next};
use std::alloc::{AllocError, Global};
use std::test::Fail;

const PATH: &[u8] =
    b"playout 1\ngrid 12 1\nrules 1 1 0\ncharge 1 2 1\nturns 8\nplayers 2\nplayer 0 0 0\n\
    player 1 9 0\nend\n";

/// The entry of this number in the log: a turn of player 1, who stays, and the next turn's
/// commitment.
fn entry_of(session: &Session, number: usize) -> Entry {
    let first = goes(1, 0, 9, 0);
    let second = goes(1, 1, 9, 1);
    let frame = match number {
        0 => commit(session, &first),
        1 => reveal(session, &first),
        _ => commit(session, &second),
    };
    Entry::Got(1, frame)
}

/// The log of player 0 who received these three.
fn log_of(alloc: Global, session: &Session) -> Result<Vec<u8>, AllocError> {
    let mut writer = LogWriter::new(session, 0);
    let mut log = Vec::new(alloc);
    for number in 0..3 {
        let entry = entry_of(session, number);
        put_entry(&mut log, &mut writer, &entry)?;
    }
    Ok(log)
}

/// The first answers of a log's reader.
fn answers(session: &Session, log: &[u8]) -> [Next; 5] {
    // no log here is longer
    let log = front(log, 1000);
    let mut reader = LogReader::new(session);
    let mut answers = [Next::End; 5];
    'answers: for answer in &mut answers {
        *answer = reader.next(session, log);
    }
    answers
}

/// Whether a log's reader reads so many entries, and then answers this again and again.
fn tells(session: &Session, log: &[u8], entries: usize, last: Next) -> bool {
    let mut expected = [last; 5];
    for number in 0..entries.min(3) {
        expected[number] = Next::Entry(entry_of(session, number));
    }
    answers(session, log) == expected
}

/// How many entries stand whole within so many bytes, and where they end: after the owner's byte
/// they have 76, 81 and 76.
fn whole_within(bytes: usize) -> (usize, u32) {
    if bytes >= 234 {
        (3, 234)
    } else if bytes >= 158 {
        (2, 158)
    } else if bytes >= 77 {
        (1, 77)
    } else {
        (0, 1)
    }
}

/// What the front of so many bytes tells: how many entries, and what is answered after them.
fn told_of_front(bytes: usize) -> (usize, Next) {
    let (entries, end) = whole_within(bytes);
    let last = match bytes {
        0 | 77 | 158 | 234 => Next::End,
        1 => Next::Torn(0),
        _ => Next::Torn(end),
    };
    (entries, last)
}

#[test]
fn each_front_of_a_log_is_read_as_far_as_it_goes(rt: HostRuntime) -> Result<(), Fail> {
    let alloc = rt.alloc();
    let session = session_of(alloc, PATH)?;
    let log = log_of(alloc, &session)?;
    assert_eq!(rt; log.len(), 234);
    for bytes in 0..235 {
        let (entries, last) = told_of_front(bytes);
        let tells = tells(&session, front(log.as_slice(), bytes), entries, last);
        assert!(rt; tells, "{bytes}");
    }
    Ok(())
}

/// What a log tells whose owner is another one, and now this one: the session has two players.
fn told_of_owner(byte: u8) -> Next {
    if byte < 2 {
        Next::BadChain(1)
    } else {
        Next::BadEntry(0)
    }
}

/// What a log tells whose byte of this number is another one, and now this one. An entry's first
/// two bytes are the length of its body, and 35 bytes are the length, the kind and the digest: one
/// that is told to be too long is torn, and any other isn't chained.
fn told_of_change(at: usize, byte: u8) -> (usize, Next) {
    if at == 0 {
        return (0, told_of_owner(byte));
    }
    let (entries, begin) = whole_within(at);
    let number = at.saturating_sub(begin as usize);
    let end = begin.saturating_add(35).saturating_add(u32::from(byte));
    let is_torn = number == 0 || number == 1 && end > 234;
    let last = if is_torn {
        Next::Torn(begin)
    } else {
        Next::BadChain(begin)
    };
    (entries, last)
}

/// Whether the log tells what it must with each bit of the byte turned that it has there.
fn tells_each_bit(
    alloc: Global,
    session: &Session,
    log: &[u8],
    at: usize,
) -> Result<bool, AllocError> {
    let mut changed = Vec::from_slice(alloc, log)?;
    for bit in [1, 2, 4, 8, 16, 32, 64, 128u8] {
        let Some(place) = changed.as_mut_slice().get_mut(at) else {
            return Ok(false);
        };
        let own = *place;
        let byte = own ^ bit;
        *place = byte;
        let (entries, last) = told_of_change(at, byte);
        if !tells(session, changed.as_slice(), entries, last) {
            return Ok(false);
        }
        if let Some(place) = changed.as_mut_slice().get_mut(at) {
            *place = own;
        }
    }
    Ok(true)
}

#[test]
fn a_turned_bit_is_told_at_its_entry(rt: HostRuntime) -> Result<(), Fail> {
    let alloc = rt.alloc();
    let session = session_of(alloc, PATH)?;
    let log = log_of(alloc, &session)?;
    for at in 0..log.len() {
        let tells = tells_each_bit(alloc, &session, log.as_slice(), at)?;
        assert!(rt; tells, "{at}");
    }
    Ok(())
}
