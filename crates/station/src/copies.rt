//! Bytes copied into a buffer.

ghost use Rattle.std.specs.Prelude.{◌≡◌, ◌<◌, Some, length, drop};
ghost use Rattle.station.specs.Copies.{Copied, pull_of};
ghost use Rattle.station.specs.Pieces.{GivesAt};
ghost use Rattle.station.specs.Sources.{pulled, TakesWithin};

use crate::sources::Pull;

/// Copies as many of the first bytes as fit.
pub(crate) fn copy_front(from: &[u8], buf: &mut [u8]) -> Pull
    requires { 0 < length buf.old }
    ensures within { TakesWithin result buf.new }
    ensures copied { Copied from.now result buf.new }
    ensures answer { result ≡ pull_of from.now (length buf.old) }
{
    if from.is_empty() {
        return Pull::Ended;
    }
    let count = buf.len().min(from.len());
    buf[..count].copy_from_slice(&from[..count]);
    Pull::Took(count)
}

/// Copies as many of the bytes from that place on as fit.
pub(crate) fn copy_at(content: &[u8], at: u64, buf: &mut [u8]) -> Pull
    requires { 0 < length buf.old }
    ensures within { TakesWithin result buf.new }
    ensures gives { GivesAt (Some content.now) at (pulled result buf.new) }
    ensures copied { Copied (drop at content.now) result buf.new }
    ensures answer { result ≡ pull_of (drop at content.now) (length buf.old) }
{
    let at = (at as usize).min(content.len());
    copy_front(&content[at..], buf)
}
