//! What the words of the command say.

ghost use Rattle.std.specs.Prelude.{◌≤◌};

/// What the words say: the files of the session and of the roster, and how many polls are granted,
/// from 1 on.
#[derive(Clone, Copy)]
pub struct WatchWords<'a> {
    pub session: &'a [u8],
    pub roster: &'a [u8],
    pub polls: u32,
    // so the last call of a logger whose polls were all made is a poll
    ghost granted: { 1 ≤ polls },
}
