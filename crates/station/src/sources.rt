//! Bytes to be read.

ghost use Rattle.std.specs.Prelude.{◌≡◌, ◌<◌, length};
ghost use Rattle.station.specs.Sources.{SourceState, TakesWithin, after_pull};

/// What a source or a shelf answers.
#[derive(Clone, Copy, Debug, PartialEq, Eq)]
pub enum Pull {
    /// So many bytes, at least 1, now stand at the front of the buffer. The rest of the buffer may be anything.
    Took(usize),
    /// Nothing is left. The buffer may be anything.
    Ended,
    /// The call failed, and the count of faults rose. The buffer may be anything.
    Failed,
}

/// Gives bytes from first to last.
pub trait Source {
    /// What its calls answered so far.
    ghost state: { Self → SourceState };

    /// Takes the next bytes that are left, at least one and at most as many as the buffer has room for.
    fn read(&mut self, buf: &mut [u8]) -> Pull
        requires { 0 < length buf.old }
        ensures within { TakesWithin result buf.new }
        ensures after { state self.new ≡ after_pull (state self.old) result buf.new };
}
