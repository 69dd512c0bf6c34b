//! How many items of each kind were told.

ghost use Rattle.std.specs.Prelude.{◌≡◌};
ghost use Rattle.history_book.specs.Tallies.{no_tally, called, polled, shut};

/// How many calls were answered, `shut` not counted, how many items were told, and how many of these are of polls. A count stays at
/// its last value.
#[derive(Clone, Copy)]
pub(crate) struct Tally {
    pub calls: u64,
    pub told: u64,
    pub polls: u32,
}

impl Tally {
    /// Nothing was told.
    pub(crate) fn new() -> Tally
        ensures { result ≡ no_tally }
    {
        Tally {
            calls: 0,
            told: 0,
            polls: 0,
        }
    }

    /// A call was answered.
    pub(crate) fn call(&mut self)
        ensures { self.new ≡ called self.old }
    {
        self.calls = self.calls.saturating_add(1);
        self.told = self.told.saturating_add(1);
    }

    /// A poll was answered.
    pub(crate) fn poll(&mut self)
        ensures { self.new ≡ polled self.old }
    {
        self.call();
        self.polls = self.polls.saturating_add(1);
    }

    /// A socket was shut.
    pub(crate) fn shut(&mut self)
        ensures { self.new ≡ shut self.old }
    {
        self.told = self.told.saturating_add(1);
    }
}
