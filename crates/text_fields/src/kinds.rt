//! The names of the kinds of findings.

ghost use Rattle.std.specs.Prelude.{◌≡◌};
ghost use Rattle.text_fields.specs.Kinds as K;

use definitions::Kind;

/// The name of a kind of finding.
pub fn name_of_kind(kind: Kind) -> &'static [u8]
    ensures { result.now ≡ K.kind_name kind }
{
    match kind {
        Kind::TwoCommits => b"two-commits",
        Kind::BadOpening => b"bad-opening",
        Kind::Collision => b"collision",
        Kind::Illegal => b"illegal",
    }
}
