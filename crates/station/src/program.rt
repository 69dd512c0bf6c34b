//! What the machine tells a program when it starts it.

use std::io;

/// The words behind the program's name, as bytes, in their order. Each error of the machine that refuses them is given as it is, and want of
/// memory for them as `OutOfMemory`.
pub fn words_of(rt: &HostRuntime) -> io::Result<Vec<Vec<u8>>> {
    let mut words = Vec::new(rt.alloc());
    for word in std::env::args(rt)?.skip(1) {
        words.push(Vec::from_slice(rt.alloc(), word.as_bytes())?)?;
    }
    Ok(words)
}
