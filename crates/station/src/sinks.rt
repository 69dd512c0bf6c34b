//! Bytes to be written.

ghost use Rattle.std.specs.Prelude.{◌≡◌, ◌<◌, length};
ghost use Rattle.station.specs.Sinks.{SinkState, GivesWithin, after_push};

/// What a sink answers.
#[derive(Clone, Copy, Debug, PartialEq, Eq)]
pub enum Push {
    /// So many of the first bytes, at least 1, were appended.
    Gave(usize),
    /// The call failed, nothing was appended, and the count of faults rose.
    Failed,
}

/// Takes bytes, each behind those before it.
pub trait Sink {
    /// What its calls answered so far.
    ghost state: { Self → SinkState };

    /// Appends the first of these bytes, at least one.
    fn write(&mut self, bytes: &[u8]) -> Push
        requires { 0 < length bytes.now }
        ensures within { GivesWithin result bytes.now }
        ensures after { state self.new ≡ after_push (state self.old) result bytes.now };
}
