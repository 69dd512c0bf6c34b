//! Whether different reveals of a turn have one digest, by a table of digests.

ghost use Rattle.std.specs.Prelude.{◌≡◌, true, false, List, IfOk, OnOk};
ghost use Rattle.definition_laws.specs.Members.{Has};
ghost use Rattle.frame_index.specs.Clashes as C;
ghost use Rattle.frame_index.specs.declared.seen.Seen.{Seen};

use crate::seen::Seen;
use definitions::TurnFrame;
use std::alloc::{AllocError, Global};
use std::collections::BTreeMap;

/// Whether another reveal stands in the table under the digest of this one; if not, this one does.
fn clashes(table: &mut BTreeMap<[u8; 32], TurnFrame>, one: &Seen) -> Result<bool, AllocError>
    ensures noted { IfOk result (λ found. found ≡ false → C.IsNoted (C.look table.old) (C.look table.new) one.now) }
    ensures clash { IfOk result (λ found. found ≡ true → C.IsClash (C.look table.old) one.now) }
    ensures stays { OnOk result ((seen : List Seen) → Has seen one.now → C.IsFrom seen (C.look table.old) → C.IsFrom seen (C.look table.new)) }
{
    if one.frame.is_commit() {
        return Ok(false);
    }
    if let Some(frame) = table.get(&one.digest.bytes) {
        return Ok(*frame != one.frame);
    }
    table.insert(one.digest.bytes, one.frame)?;
    Ok(false)
}

/// Whether no two different reveals have one digest. The table takes memory from `alloc` for each reveal, and the time is
/// linear in what is looked at.
pub(crate) fn are_apart(alloc: Global, seen: &[Seen]) -> Result<bool, AllocError>
    ensures apart { IfOk result (λ apart. apart ≡ true → C.AreApart seen.now) }
    ensures clash { IfOk result (λ apart. apart ≡ false → C.HaveClash seen.now) }
{
    let mut table = BTreeMap::new(alloc);
    for one in seen {
        if clashes(&mut table, one)? {
            return Ok(false);
        }
    }
    Ok(true)
}
