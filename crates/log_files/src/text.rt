//! The bytes of a log.

use std::marker::Model;

/// The bytes of one log.
#[derive(Drop)]
pub struct LogText {
    bytes: Vec<u8>,
}

impl Model for LogText {
    ghost use Rattle.std.specs.Prelude.{ℕ, List};

    ghost Value = { List ℕ };

    ghost view = { λ t. t.bytes.items };
}

impl LogText {
    ghost use Rattle.std.specs.Prelude.{◌≡◌};

    /// These bytes, whether they are a log or not.
    pub fn new(bytes: Vec<u8>) -> LogText
        ensures { result ≡ bytes.items }
    {
        LogText { bytes }
    }

    /// The bytes.
    pub fn bytes(&self) -> &[u8]
        ensures { result.now ≡ self.now }
    {
        &self.bytes
    }
}
