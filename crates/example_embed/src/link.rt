//! The bytes that come over one link, read as frames.

ghost use Rattle.std.specs.Prelude.{◌≡◌, ◌≤◌, length};

use std::mem::replace;
use wire_frames::{FedWhat, FrameReader};

/// How many bytes are read of one link: far more than a whole match has.
const MOST: u64 = 16_777_216;

/// A reader of one link, and how many bytes it used. A link that comes again after it was lost
/// begins anew.
#[derive(Drop)]
pub struct Link {
    reader: FrameReader,
    used: u64,
    ghost few: { used ≤ 16777216 },
    ghost place: { reader.place ≡ used },
}

impl Link {
    /// A link over which nothing came yet.
    pub fn new() -> Link {
        Link {
            reader: FrameReader::new(),
            used: 0,
        }
    }

    /// Reads on with these bytes up to the end of the first frame that ends in them, and says how
    /// many bytes were used and what was found. None where the link has brought too many.
    pub fn feed(&mut self, bytes: &[u8], used: &mut usize) -> Option<FedWhat>
        ensures { used.new ≤ length bytes.now }
    {
        *used = 0;
        if bytes.len() as u64 > MOST - self.used {
            return None;
        }
        let fed = self.reader.feed(bytes);
        self.used += fed.used as u64;
        *used = fed.used;
        Some(fed.what)
    }
}
