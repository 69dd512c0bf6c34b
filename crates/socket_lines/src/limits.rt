//! The limits of the loop, each with one name.

/// The most bytes that are read of a player. Where they are spent, its sockets are shut, and none is named or dialled for it any more.
pub const MOST_BYTES: u32 = 16_777_216;

/// The most bytes that are read of a socket that has no name: those of a HELLO.
pub const HELLO_BYTES: u32 = 56;

/// The most sockets that are accepted. Those that come later are shut at once.
pub const MOST_ACCEPTED: u32 = 256;

/// The most WANT frames of a player that are obeyed. Those that come later are passed over.
pub const MOST_WANTS: u32 = 64;
