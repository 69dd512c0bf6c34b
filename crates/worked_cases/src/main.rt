//! Worked cases: a player of texts, each of which says what the program is run on and what must
//! come out.
//!
//! `worked_cases FILE..` plays the cases in these files, by the one call that the program makes,
//! over objects in memory. A case is text: words, files, an input and the calls that fail; and
//! then what is written, and the status. `docs/CASES.md` has the lines of a file. Where all come
//! out as they say, it prints how many there are in each file, and ends with status 0. Else it
//! prints which case comes out otherwise, with the first line that differs, or which line of a
//! file can't be understood, and ends with status 1. It touches the files that it is given and the
//! standard output. Its contracts say that it is safe and comes to an end, and no more.
#![tactic(auto)]

mod book;
mod bringing;
mod cases;
mod comparing;
mod faults;
mod files;
mod lines;
mod logs;
mod openings;
mod playing;
mod posts;
mod reading;
mod saying;
mod sockets;
mod spelling;

use reading::{Played, play_text};
use station::words_of;
use std::process::ExitCode;
use std::{fs, io, str};

/// Plays the cases of a file, and prints what came of them.
fn play_file(rt: &HostRuntime, name: &[u8]) -> io::Result<Played> {
    let path = str::from_utf8(name).unwrap_or("");
    let text = fs::read_to_string(rt, path)?;
    let played = play_text(rt.alloc(), path, text.as_str())?;
    print!(rt; "{}", played.report)?;
    if played.is_right {
        println!(rt; "{path} {} cases", played.count)?;
    }
    Ok(played)
}

/// Plays the cases of all these files, and says whether all came out as they say.
fn play_files(rt: &HostRuntime) -> io::Result<bool> {
    let names = words_of(rt)?;
    let mut count = 0u32;
    let mut is_right = true;
    for name in &names {
        let played = play_file(rt, name.as_slice())?;
        count = count.saturating_add(played.count);
        is_right = is_right && played.is_right;
    }
    println!(rt; "{count} cases in {} files", names.len())?;
    Ok(is_right)
}

fn main(rt: HostRuntime) -> io::Result<ExitCode> {
    let is_right = play_files(&rt)?;
    Ok(ExitCode::from(u8::from(!is_right)))
}
