//! The limits of the protocol and of its texts, each with one name.

/// How many places past the next one of its player a frame may have that is taken into a log.
pub const WINDOW: u32 = 8;

/// The fewest players of a session.
pub const FEWEST_PLAYERS: u8 = 2;

/// The most players of a session.
pub const MOST_PLAYERS: u8 = 64;

/// The most players of a session of version 1.
pub const MOST_PLAYERS_AT_FIRST: u8 = 16;

/// The most turns of a session.
pub const MOST_TURNS: u32 = 8192;

/// The most turns of a session of version 1.
pub const MOST_TURNS_AT_FIRST: u32 = 4096;

/// The most turns of a session's players together: the number of players times the number of turns.
pub const MOST_TURNS_OF_ALL: u32 = 393_216;

/// The most turns that players commit ahead of their reveals. In version 1 it is one.
pub const MOST_AHEAD: u32 = 8;

/// The most cells of a side of the grid.
pub const WIDEST_SIDE: u16 = 1024;

/// The most cells of a side of the grid in a session of version 1.
pub const WIDEST_SIDE_AT_FIRST: u16 = 256;

/// The last version of session texts.
pub const LAST_VERSION: u8 = 2;

/// The most king steps that a player walks in a turn.
pub const MOST_SPEED: u8 = 8;

/// The greatest square distance at which a player strikes.
pub const FARTHEST_REACH: u8 = 8;

/// The greatest square distance from the cell struck at which a player is hit.
pub const WIDEST_BLAST: u8 = 2;

/// The greatest charge that a session may speak of.
pub const MOST_CHARGE: u8 = 255;

/// The most entries of an honest log that has no finding, in the session of which it is the longest.
pub const MOST_ENTRIES: u32 = 794_624;

/// The most logs that the command `audit` takes, after its session.
pub const MOST_AUDITED: usize = 16;

/// The most bytes of a log.
pub const LONGEST_LOG: usize = 67_108_864;

/// How many bytes of a log's file are read: one more than a log may have tells that it is too long.
pub const LOG_FRONT: usize = 67_108_865;

/// How many bytes of a file decide what a session's text says.
pub const SESSION_FRONT: usize = 16_777_216;

/// The most lines of a script that are answered.
pub const MOST_LINES: u32 = 1_048_576;

/// The most bytes of a script's line, its end not counted.
pub const LONGEST_LINE: usize = 1024;

/// The most bytes that a script's line brings from a player: two digits of the line spell one.
pub const LONGEST_PIECE: usize = 512;

/// The greatest number by which a line may name a player.
pub const GREATEST_PLAYER: u8 = 255;

/// The most players whose needs are listed at once.
pub const MOST_NEEDS: usize = 64;

/// The most frames of an evidence text: a commitment and a reveal for each turn of the longest session.
pub const MOST_EVIDENCE_FRAMES: usize = 16_384;

/// How many bytes of a file decide what an evidence text says.
pub const EVIDENCE_FRONT: usize = 2_097_152;
