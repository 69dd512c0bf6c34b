//! The limits of texts of sealed exhibits.

/// The most frames of a sealed exhibit that a text may say.
pub const MOST_SEALED_FRAMES: usize = 512;

/// How many bytes of a file decide which sealed exhibit it says.
pub const SEALED_FRONT: usize = 33_554_432;
