//! A word of warning where others can read a seed.

use key_commands::{read_root_words, read_seal_words};
use machine_host::text_of;
use std::fs;
use std::os::unix::fs::PermissionsExt;

/// The rights to read of all but a file's owner.
const OTHERS_READ: u32 = 0o044;

/// The name of the seed's file, where the words are of a command that reads one.
fn seed_named(words: &[Vec<u8>]) -> Option<&[u8]> {
    match words {
        [name, rest @ ..] => {
            if name.as_slice() == b"root".as_slice() {
                Some(read_root_words(rest)?.seed)
            } else if name.as_slice() == b"seal".as_slice() {
                Some(read_seal_words(rest)?.keys.seed)
            } else {
                None
            }
        }
        [] => None,
    }
}

/// Whether the file of this name is there, and others than its owner can read it.
fn is_open_to_others(rt: &HostRuntime, name: &[u8]) -> bool {
    let Ok(path) = text_of(name) else {
        return false;
    };
    match fs::metadata(rt, path) {
        Ok(metadata) => metadata.permissions().mode() & OTHERS_READ != 0,
        Err(_) => false,
    }
}

/// Says on the error stream that others can read the seed that the words name, where they can. Whoever
/// reads it can seal in the player's name.
pub(crate) fn warn_of_open_seed(rt: &HostRuntime, words: &[Vec<u8>]) {
    if let Some(name) = seed_named(words)
        && is_open_to_others(rt, name)
    {
        // A warning that can't be written changes nothing of the run.
        let _unsaid = eprintln!(rt;
            "lethwyrn: others than its owner can read the seed (chmod 600 closes it)"
        );
    }
}
