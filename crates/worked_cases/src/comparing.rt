//! How a run differs from what a case wants.

use crate::cases::{Given, Posted, Wants};
use crate::playing::Ran;
use hex::encode;
use std::alloc::{AllocError, Global};
use std::str;

/// The lines of the bytes, each with its LF if it has one.
fn lines_of(alloc: Global, bytes: &[u8]) -> Result<Vec<&[u8]>, AllocError> {
    bytes.split_inclusive(|byte| *byte == b'\n').collect(alloc)
}

/// A line for the reader: its text, or its digits where it is no text.
fn shown(alloc: Global, line: Option<&&[u8]>) -> Result<String, AllocError> {
    let Some(line) = line else {
        return String::from_str(alloc, "(nothing more)");
    };
    match str::from_utf8(line) {
        Ok(text) => format!(in alloc; "{text:?}"),
        Err(_) => encode(alloc, line),
    }
}

/// Two lines that differ, as a text.
fn two_lines(
    alloc: Global,
    at: usize,
    wanted: Option<&&[u8]>,
    came: Option<&&[u8]>,
) -> Result<String, AllocError> {
    let number = at.saturating_add(1);
    let wanted = shown(alloc, wanted)?;
    let came = shown(alloc, came)?;
    format!(in alloc; "  line {number} of these: wanted {wanted}, and {came} came\n")
}

/// The first of the lines that differ, if some do.
fn lines_differ(
    alloc: Global,
    wanted: &[&[u8]],
    came: &[&[u8]],
) -> Result<Option<String>, AllocError> {
    for at in 0..wanted.len().max(came.len()) {
        let due = wanted.get(at);
        let own = came.get(at);
        if due != own {
            let text = two_lines(alloc, at, due, own)?;
            return Ok(Some(text));
        }
    }
    Ok(None)
}

/// The first line in which the texts differ, if they do.
fn text_differs(alloc: Global, wanted: &[u8], came: &[u8]) -> Result<Option<String>, AllocError> {
    let wanted = lines_of(alloc, wanted)?;
    let came = lines_of(alloc, came)?;
    lines_differ(alloc, wanted.as_slice(), came.as_slice())
}

/// The first of the last lines that differs, if one does, where as many are looked at as are
/// wanted.
fn end_differs(alloc: Global, wanted: &[u8], came: &[u8]) -> Result<Option<String>, AllocError> {
    let wanted = lines_of(alloc, wanted)?;
    let came = lines_of(alloc, came)?;
    let from = came.len().saturating_sub(wanted.len());
    let end = &came.as_slice()[from..];
    lines_differ(alloc, wanted.as_slice(), end)
}

/// How many of the wanted lines came, in their order, with others between them.
fn in_order(wanted: &[&[u8]], came: &[&[u8]]) -> usize {
    let mut next = 0usize;
    for line in came {
        if wanted.get(next) == Some(line) {
            next = next.saturating_add(1);
        }
    }
    next
}

/// The first of the wanted lines that doesn't come after those before it, if there is one.
fn lines_lack(alloc: Global, wanted: &[u8], came: &[u8]) -> Result<Option<String>, AllocError> {
    let wanted = lines_of(alloc, wanted)?;
    let came = lines_of(alloc, came)?;
    let next = in_order(wanted.as_slice(), came.as_slice());
    let line = wanted.get(next);
    if line.is_none() {
        return Ok(None);
    }
    let line = shown(alloc, line)?;
    let text = format!(in alloc; "  no line {line} came in its place\n")?;
    Ok(Some(text))
}

/// How the written text differs from what is wanted of its lines, if it does.
fn writes_otherwise(
    alloc: Global,
    wants: &Wants,
    text: &[u8],
) -> Result<Option<String>, AllocError> {
    if let Some(wanted) = &wants.writes
        && let Some(said) = text_differs(alloc, wanted.as_slice(), text)?
    {
        return Ok(Some(said));
    }
    if let Some(wanted) = &wants.among
        && let Some(said) = lines_lack(alloc, wanted.as_slice(), text)?
    {
        return Ok(Some(said));
    }
    match &wants.ends {
        None => Ok(None),
        Some(wanted) => end_differs(alloc, wanted.as_slice(), text),
    }
}

/// How a count differs from what is wanted, if it does.
fn counts_otherwise(
    alloc: Global,
    what: &str,
    wanted: Option<usize>,
    came: usize,
) -> Result<Option<String>, AllocError> {
    match wanted {
        Some(count) if count != came => {
            let text = format!(in alloc; "  {what}: wanted {count}, and {came} came\n")?;
            Ok(Some(text))
        }
        _ => Ok(None),
    }
}

/// The counts of a run beside those that are wanted.
fn counts_of(wants: &Wants, ran: &Ran) -> [(&'static str, Option<usize>, usize); 6] {
    let lines = ran.text.iter().filter(|byte| **byte == b'\n').count();
    [
        ("lines", wants.lines, lines),
        ("status", wants.status, usize::from(ran.status)),
        ("polls", wants.polls, ran.polls as usize),
        ("keeps", wants.keeps, ran.kept),
        ("gives", wants.gives, ran.given),
        ("sends", wants.sends, ran.sent),
    ]
}

/// The first of these sockets that is open where it isn't wanted so, or the other way round.
fn socket_differs(
    alloc: Global,
    sockets: &[u32],
    open: &[u32],
    is_wanted_open: bool,
) -> Result<Option<String>, AllocError> {
    for socket in sockets {
        if open.contains(socket) != is_wanted_open {
            let stands = if is_wanted_open {
                "isn't open"
            } else {
                "is open"
            };
            let text = format!(in alloc; "  socket {socket} {stands}\n")?;
            return Ok(Some(text));
        }
    }
    Ok(None)
}

/// The first socket that stands otherwise than it is wanted, as a text, if there is one.
fn sockets_otherwise(
    alloc: Global,
    wants: &Wants,
    open: &[u32],
) -> Result<Option<String>, AllocError> {
    if let Some(said) = socket_differs(alloc, wants.open.as_slice(), open, true)? {
        return Ok(Some(said));
    }
    socket_differs(alloc, wants.shut.as_slice(), open, false)
}

/// The first place at which the bytes differ, or the end of the shorter ones.
fn first_difference(wanted: &[u8], came: &[u8]) -> usize {
    let least = wanted.len().min(came.len());
    for at in 0..least {
        if wanted.get(at) != came.get(at) {
            return at;
        }
    }
    least
}

/// How many bytes are shown of those that a socket was given otherwise.
const MOST_SHOWN: usize = 40;

/// The digits of the bytes from that place on, as many as are shown.
fn digits_from(alloc: Global, bytes: &[u8], at: usize) -> Result<String, AllocError> {
    let rest = bytes.get(at..).unwrap_or(b"");
    if rest.is_empty() {
        return String::from_str(alloc, "nothing more");
    }
    encode(alloc, &rest[..rest.len().min(MOST_SHOWN)])
}

/// How bytes differ from those that are wanted of this, if they do.
fn bytes_differ(
    alloc: Global,
    what: &str,
    number: u32,
    due: &[u8],
    came: &[u8],
) -> Result<Option<String>, AllocError> {
    if due == came {
        return Ok(None);
    }
    let at = first_difference(due, came);
    let due = digits_from(alloc, due, at)?;
    let own = digits_from(alloc, came, at)?;
    let text = format!(in alloc;
        "  {what} {number} from byte {at} on: wanted {due}, and {own} came\n"
    )?;
    Ok(Some(text))
}

/// How a socket was given otherwise than it is wanted, if it was.
fn socket_given_otherwise(
    alloc: Global,
    wanted: &Given,
    ran: &Ran,
) -> Result<Option<String>, AllocError> {
    match ran.given_on(alloc, wanted.socket)? {
        Some(came) => {
            let due = wanted.bytes.as_slice();
            bytes_differ(alloc, "socket", wanted.socket, due, came.as_slice())
        }
        None => {
            let socket = wanted.socket;
            let text = format!(in alloc; "  there is no socket {socket}\n")?;
            Ok(Some(text))
        }
    }
}

/// The first socket that was given otherwise than it is wanted, as a text, if there is one.
fn given_otherwise(alloc: Global, wants: &Wants, ran: &Ran) -> Result<Option<String>, AllocError> {
    for wanted in &wants.given {
        if let Some(said) = socket_given_otherwise(alloc, wanted, ran)? {
            return Ok(Some(said));
        }
    }
    Ok(None)
}

/// How a datagram was sent otherwise than it is wanted, if it was.
fn datagram_sent_otherwise(
    alloc: Global,
    wanted: &Posted,
    ran: &Ran,
) -> Result<Option<String>, AllocError> {
    let number = wanted.number;
    let Some((port, came)) = ran.sent_at(number) else {
        let text = format!(in alloc; "  there is no datagram {number}\n")?;
        return Ok(Some(text));
    };
    let due = wanted.port;
    if port != due {
        let text = format!(in alloc;
            "  datagram {number}: wanted to port {due}, and it went to {port}\n"
        )?;
        return Ok(Some(text));
    }
    bytes_differ(alloc, "datagram", number, wanted.bytes.as_slice(), came)
}

/// The first datagram that was sent otherwise than it is wanted, as a text, if there is one.
fn sent_otherwise(alloc: Global, wants: &Wants, ran: &Ran) -> Result<Option<String>, AllocError> {
    for wanted in &wants.sent {
        if let Some(said) = datagram_sent_otherwise(alloc, wanted, ran)? {
            return Ok(Some(said));
        }
    }
    Ok(None)
}

/// The first thing in which a run differs from what the case wants, as a text, if there is one.
pub fn differs(alloc: Global, wants: &Wants, ran: &Ran) -> Result<Option<String>, AllocError> {
    if let Some(said) = writes_otherwise(alloc, wants, ran.text.as_slice())? {
        return Ok(Some(said));
    }
    for (what, wanted, came) in counts_of(wants, ran) {
        if let Some(said) = counts_otherwise(alloc, what, wanted, came)? {
            return Ok(Some(said));
        }
    }
    if let Some(said) = given_otherwise(alloc, wants, ran)? {
        return Ok(Some(said));
    }
    if let Some(said) = sent_otherwise(alloc, wants, ran)? {
        return Ok(Some(said));
    }
    sockets_otherwise(alloc, wants, ran.open.as_slice())
}
