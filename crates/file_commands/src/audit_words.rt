//! What the words of the command say.

ghost use Rattle.std.specs.Prelude.{◌≤◌, length};
ghost use Rattle.definitions.specs.declared.limits.TheConstants.{MOST_AUDITED};

/// What the words say: the session's file, and the files of logs, from 1 to `MOST_AUDITED`.
#[derive(Clone, Copy)]
pub struct AuditWords<'a> {
    pub session: &'a [u8],
    pub logs: &'a [Vec<u8>],
    // no more than an auditor takes
    ghost few: { length logs.now ≤ MOST_AUDITED },
}
