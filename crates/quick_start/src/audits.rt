//! Audits of logs, and the exhibits that an audit prints, each judged anew from its text and the
//! session alone.

use crate::runs::{Ran, run_line, run_words};
use std::{fs, io};

/// The first line of an exhibit.
const HEAD: &str = "evidence 1\n";

/// The text of an audit in parts: its lines without the exhibits, and each exhibit.
#[derive(Drop)]
struct Parts {
    lines: String,
    exhibits: Vec<String>,
}

/// The exhibit that has this text between its first line and its last one.
fn exhibit_of(rt: &HostRuntime, text: &str) -> io::Result<String> {
    Ok(format!(in rt.alloc(); "{HEAD}{text}\nend\n")?)
}

/// Takes what stands behind the first line of an exhibit: the rest of it, up to the first `end`,
/// and the lines behind that.
fn take_behind(rt: &HostRuntime, parts: &mut Parts, text: &str) -> io::Result<()> {
    match text.split_once("\nend\n") {
        None => parts.lines.push_str(text)?,
        Some((exhibit, lines)) => {
            let exhibit = exhibit_of(rt, exhibit)?;
            parts.exhibits.push(exhibit)?;
            parts.lines.push_str(lines)?;
        }
    }
    Ok(())
}

/// Takes the exhibits behind the first line of the first one.
fn take_exhibits(rt: &HostRuntime, parts: &mut Parts, text: &str) -> io::Result<()> {
    for piece in text.split(HEAD) {
        take_behind(rt, parts, piece)?;
    }
    Ok(())
}

/// The parts of an audit's text.
fn parts_of(rt: &HostRuntime, text: &str) -> io::Result<Parts> {
    let lines = String::new(rt.alloc());
    let exhibits = Vec::new(rt.alloc());
    let mut parts = Parts { lines, exhibits };
    match text.split_once(HEAD) {
        None => parts.lines.push_str(text)?,
        Some((lines, rest)) => {
            parts.lines.push_str(lines)?;
            take_exhibits(rt, &mut parts, rest)?;
        }
    }
    Ok(parts)
}

/// Adds a word.
fn put_word(rt: &HostRuntime, words: &mut Vec<Vec<u8>>, word: &[u8]) -> io::Result<()> {
    let word = Vec::from_slice(rt.alloc(), word)?;
    words.push(word)?;
    Ok(())
}

/// The words of a command over the session of that file, as far as it.
fn words_for(rt: &HostRuntime, command: &[u8], session: &[u8]) -> io::Result<Vec<Vec<u8>>> {
    let mut words = Vec::new(rt.alloc());
    put_word(rt, &mut words, command)?;
    put_word(rt, &mut words, session)?;
    Ok(words)
}

/// What `judge` says of an exhibit, which is left in a file of that name.
fn judge(rt: &HostRuntime, session: &[u8], name: &str, exhibit: &str) -> io::Result<Ran> {
    fs::write(rt, name, exhibit)?;
    let mut words = words_for(rt, b"judge", session)?;
    put_word(rt, &mut words, name.as_bytes())?;
    run_words(rt, words.as_slice())
}

/// Whether an exhibit shows what it says, by `judge`.
fn is_shown(rt: &HostRuntime, exhibit: &str) -> io::Result<bool> {
    let ran = judge(rt, b"session", "evidence", exhibit)?;
    Ok(ran.text.as_str() == "yes\n")
}

/// How many of the exhibits show what they say.
fn count_shown(rt: &HostRuntime, exhibits: &[String]) -> io::Result<usize> {
    let mut shown: usize = 0;
    for exhibit in exhibits {
        if is_shown(rt, exhibit.as_str())? {
            shown = shown.saturating_add(1);
        }
    }
    Ok(shown)
}

/// Shows of a finding whom it names, the turn and the kind, without the places in the logs, which
/// are others each time.
fn show_finding(rt: &HostRuntime, words: &str) -> io::Result<()> {
    print!(rt; "    finding")?;
    for word in words.split(' ').take(3) {
        print!(rt; " {word}")?;
    }
    println!(rt; "")
}

/// Shows the lines of an audit.
fn show_lines(rt: &HostRuntime, lines: &str) -> io::Result<()> {
    println!(rt; "the audit of their logs says:")?;
    for line in lines.lines() {
        match line.strip_prefix("finding ") {
            Some(words) => show_finding(rt, words)?,
            None => println!(rt; "    {line}")?,
        }
    }
    Ok(())
}

/// Judges the exhibits, and says how many of them show what they say.
fn show_judged(rt: &HostRuntime, exhibits: &[String]) -> io::Result<()> {
    let count = exhibits.len();
    if count == 0 {
        return Ok(());
    }
    let shown = count_shown(rt, exhibits)?;
    println!(rt;
        "evidence judged again without the logs: {shown} of {count} exhibits show what they say"
    )
}

/// Audits the logs of a match and shows what they show together, without the exhibits; each of
/// these is judged.
pub(crate) fn show_audit(rt: &HostRuntime, logs: &str) -> io::Result<()> {
    let line = format!(in rt.alloc(); "audit session {logs}")?;
    let audit = run_line(rt, line.as_str())?;
    let parts = parts_of(rt, audit.text.as_str())?;
    show_lines(rt, parts.lines.as_str())?;
    show_judged(rt, parts.exhibits.as_slice())
}

/// Judges an exhibit, which is left in the file `evidence.N`, and writes what is said of it.
fn settle_one(rt: &HostRuntime, session: &[u8], number: usize, exhibit: &str) -> io::Result<()> {
    let name = format!(in rt.alloc(); "evidence.{number}")?;
    let said = judge(rt, session, name.as_str(), exhibit)?;
    print!(rt; "judge {name}: {}", said.text)
}

/// Judges the exhibits of an audit's text one by one.
fn settle_all(rt: &HostRuntime, session: &[u8], text: &str) -> io::Result<()> {
    let parts = parts_of(rt, text)?;
    let mut number: usize = 0;
    for exhibit in parts.exhibits.as_slice() {
        number = number.saturating_add(1);
        settle_one(rt, session, number, exhibit.as_str())?;
    }
    Ok(())
}

/// The words of an audit of these logs.
fn audit_words(rt: &HostRuntime, session: &[u8], logs: &[Vec<u8>]) -> io::Result<Vec<Vec<u8>>> {
    let mut words = words_for(rt, b"audit", session)?;
    for log in logs {
        put_word(rt, &mut words, log.as_slice())?;
    }
    Ok(words)
}

/// Audits logs by the words of `audit`, writes what that writes, and then what `judge` says of
/// each exhibit. The status is the audit's.
pub(crate) fn settle(rt: &HostRuntime, session: &[u8], logs: &[Vec<u8>]) -> io::Result<u8> {
    let words = audit_words(rt, session, logs)?;
    let audit = run_words(rt, words.as_slice())?;
    print!(rt; "{}", audit.text)?;
    settle_all(rt, session, audit.text.as_str())?;
    Ok(audit.status)
}
