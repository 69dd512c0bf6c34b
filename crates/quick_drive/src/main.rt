//! The program `quick_drive`: what `./play NAME PLAYER` runs where nothing is proved and built yet. It drives a peer as `drive` of the program
//! `lethwyrn` does, and has nothing else in it, since each further command would have to be compiled before the first line is shown.
//!
//! Its words are those after `drive`: `SESSION PLAYER`, or `SESSION PLAYER OLD`. What `drive_command` promises of `run_drive` is promised of it.
#![tactic(auto)]

use drive_command::{DriveWords, read_drive_words, run_drive};
use file_shelf::FileShelf;
use machine_files::MachineFiles;
use run_frame::{Status, refuse};
use station::{StdSink, StdSource, words_of};
use std::io;
use std::process::ExitCode;

/// The status where the machine refuses the program its words or memory for them.
const REFUSED: u8 = 15;

/// Drives a peer by the standard input.
fn drive_by<W: io::Write>(rt: &HostRuntime, words: DriveWords<'_>, out: &mut StdSink<W>) -> Status {
    let mut input = StdSource::new(rt.reader());
    let mut shelf = FileShelf::new(rt.alloc(), MachineFiles::new(rt));
    run_drive(rt.alloc(), words, &mut input, out, &mut shelf)
}

fn main(rt: HostRuntime) -> ExitCode {
    let Ok(words) = words_of(&rt) else {
        return ExitCode::from(REFUSED);
    };
    let mut out = StdSink::new(io::writer(&rt));
    let status = match read_drive_words(words.as_slice()) {
        Some(words) => drive_by(&rt, words, &mut out),
        None => Status::Usage,
    };
    ExitCode::from(refuse(status, &mut out).code())
}
