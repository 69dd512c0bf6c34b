//! The room that is left for the history.

ghost use Rattle.std.specs.Prelude.{◌≡◌};
ghost use Rattle.history_book.specs.Rooms.{HasRoomFor, fits, spent_by, cut_at};

/// How many items and bytes more have room, and how many items were told when a call first found too little.
#[derive(Clone, Copy)]
pub(crate) struct Room {
    pub items: usize,
    pub bytes: usize,
    pub spent: Option<u64>,
}

impl Room {
    /// Whether one more item of so many bytes has room. None has once a call found too little.
    pub(crate) fn fits(&self, bytes: usize) -> bool
        ensures { result ≡ fits self.now bytes }
    {
        self.spent.is_none() && 0 < self.items && bytes <= self.bytes
    }

    /// A call found too little room, behind so many items. The first such call counts.
    pub(crate) fn cut(&mut self, told: u64)
        ensures { self.new ≡ cut_at told self.old }
    {
        if self.spent.is_none() {
            self.spent = Some(told);
        }
    }

    /// An item of so many bytes takes its room, unless a call found too little before.
    pub(crate) fn spend(&mut self, bytes: usize)
        requires { HasRoomFor self.old bytes }
        ensures { self.new ≡ spent_by bytes self.old }
    {
        if self.spent.is_none() {
            self.items -= 1;
            self.bytes -= bytes;
        }
    }
}
