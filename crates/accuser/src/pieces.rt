//! One piece of a file of sealed frames.

ghost use Rattle.std.specs.Prelude.{◌≡◌, ◌<◌, ◌≤◌, ◌+◌, length};
ghost use Rattle.accuser.specs.Feeds.{IsAt};
ghost use Rattle.accuser.specs.Opened as O;
ghost use Rattle.accuser.specs.Taking.{IsOf, Leaves};

use crate::feed::Feed;
use crate::taker::{FrontFault, Taker};
use auditor::MOST_LOGS;
use definitions::limits::{LOG_FRONT, LONGEST_LOG};
use grid_world::Session;
use sealed_evidence::Roots;
use station::{Pull, Shelf};

/// Why a file of sealed frames wasn't taken whole.
#[derive(Clone, Copy, Debug, PartialEq, Eq)]
pub(crate) enum FileFault {
    /// At this byte, counted from 0, no sealed frame stands; it is `LONGEST_LOG` where the file is
    /// longer than that.
    Bad(u32),
    /// The shelf failed.
    Failed,
    /// Memory was wanting.
    Memory,
}

impl From<FrontFault> for FileFault {
    ghost from_gives = { λ fault of_file. of_file ≡ O.of_front fault };

    fn from(fault: FrontFault) -> FileFault {
        match fault {
            FrontFault::Stuck(at) => FileFault::Bad(at),
            FrontFault::Memory => FileFault::Memory,
        }
    }
}

/// Asks for the bytes of a file from this place on, as many as the buffer has room for, and takes
/// them. It says how many they were, or None where the file has ended.
///
/// Bad comes where with these bytes the file is too long, Failed where the shelf failed, and Memory
/// where memory was wanting.
pub(crate) fn take_piece<H: Shelf>(
    shelf: &mut H,
    name: &[u8],
    taker: &mut Taker,
    session: &Session,
    roots: &Roots,
    file: u32,
    feed: &mut Feed,
    at: usize,
    buf: &mut [u8],
) -> Result<Option<usize>, FileFault>
    requires file { file < MOST_LOGS }
    requires room { 0 < length buf.old }
    requires few { at + length buf.old ≤ LOG_FRONT }
    requires of_session { IsOf session.now taker.old }
    requires so_far { IsAt session.now roots.now taker.old file feed.old at }
    ensures so { O.IsPiece session.now roots.now (H.state shelf.old) (H.state shelf.new) name.now taker.old taker.new file feed.old feed.new at result }
    ensures leaves { Leaves session.now taker.old taker.new file }
{
    match shelf.read_at(name, at as u64, buf) {
        Pull::Failed => Err(FileFault::Failed),
        Pull::Ended => Ok(None),
        Pull::Took(count) => {
            if count > LONGEST_LOG - at {
                return Err(FileFault::Bad(LONGEST_LOG as u32));
            }
            match feed.take(taker, session, roots, file, &buf[..count]) {
                Ok(()) => Ok(Some(count)),
                Err(_) => Err(FileFault::Memory),
            }
        }
    }
}
