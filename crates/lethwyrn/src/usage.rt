//! How the commands are written, for whoever gave words that are none.

use command_names::{ALL, Name};

/// The words after the name of a command.
fn words_after(name: Name) -> &'static str {
    match name {
        Name::Accuse => "SESSION ROOTS FILE..",
        Name::Audit => "SESSION LOG..",
        Name::Deposit => "SESSION ROSTER PLAYER POLLS LOG",
        Name::Drive => "SESSION PLAYER [OLD]",
        Name::Judge => "SESSION EVIDENCE [ROOTS]",
        Name::Make => "N",
        Name::Peer => "SESSION ROSTER MOVES PLAYER POLLS LOG [OLD]",
        Name::Post => "SESSION ROSTER MOVES PLAYER POLLS LOG",
        Name::Root => "SESSION PLAYER SEED",
        Name::Schedule => "SESSION",
        Name::Seal => "SESSION PLAYER SEED LOG",
        Name::Upgrade => "SESSION",
        Name::Watch => "SESSION ROSTER POLLS",
    }
}

/// The command that the first word names, if it names one.
pub(crate) fn name_in(words: &[Vec<u8>]) -> Option<Name> {
    match words {
        [] => None,
        [name, ..] => Name::read(name.as_slice()),
    }
}

/// Says how a command is written.
fn tell_form(rt: &HostRuntime, name: Name) {
    let (text, words) = (name.form().text, words_after(name));
    // A word that can't be written changes nothing of the run.
    let _unsaid = eprintln!(rt; "    lethwyrn {text} {words}");
}

/// Says how the command is written that the words name, or how all are.
pub(crate) fn tell_usage(rt: &HostRuntime, words: &[Vec<u8>]) {
    match name_in(words) {
        Some(name) => {
            let _unsaid = eprintln!(rt; "lethwyrn: it is written so:");
            tell_form(rt, name);
            let _unsaid = eprintln!(rt;
                "PLAYER is the number of one of the session's players, POLLS one from 1 to 10000000"
            );
        }
        None => {
            let _unsaid = eprintln!(rt; "lethwyrn: the commands are written so:");
            for name in ALL {
                tell_form(rt, *name);
            }
        }
    }
}
