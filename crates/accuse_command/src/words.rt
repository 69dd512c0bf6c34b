//! What the words of the command say.

ghost use Rattle.std.specs.Prelude.{◌≤◌, length};
ghost use Rattle.definitions.specs.declared.limits.TheConstants.{MOST_AUDITED};

/// What the words say: the session's file, that of the players' roots, and the files of sealed
/// frames, from 1 to `MOST_AUDITED`.
#[derive(Clone, Copy)]
pub struct AccuseWords<'a> {
    pub session: &'a [u8],
    pub roots: &'a [u8],
    pub files: &'a [Vec<u8>],
    // no more than a report is made on
    ghost few: { length files.now ≤ MOST_AUDITED },
}
