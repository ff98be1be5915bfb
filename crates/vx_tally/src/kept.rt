//! Records as a tally keeps them, found by the marks of their ids.

ghost use Rattle.std.specs.Prelude.{◌≡◌};
ghost use Rattle.std.specs.Option.{option_map};
ghost use Rattle.std.specs.BTreeMap.{IsOrdered};
ghost use Rattle.vx_tally.specs.Kept.{mark_of, first_equal, key_cmp};

use crate::report::CvrRecord;
use std::collections::BTreeMap;
use std::hash::{FoldHasher, Hasher};

/// Records, each under the mark of its id and the number by which it was added.
pub(crate) type KeptRecords = BTreeMap<(u64, u64), CvrRecord>;

/// The mark of an id, the same for equal ids.
#[tactic(auto, unfolding(crate::specs::Kept::mark_of))]
pub(crate) fn mark_of(id: &str) -> u64
    ensures { result ≡ mark_of id.now }
{
    let mut hasher = FoldHasher::default();
    hasher.write(id.as_bytes());
    hasher.finish()
}

/// The key of the first record that is equal, where all numbers are below the next.
pub(crate) fn key_of(records: &KeptRecords, next: u64, cvr: &CvrRecord) -> Option<(u64, u64)>
    ensures first { result ≡ option_map (λ one. one.0) (first_equal cvr.now next records.now.entries) }
    ensures ordered { IsOrdered key_cmp records.now }
{
    let mark = mark_of(cvr.unique.as_str());
    for (key, one) in records.range((mark, 0)..(mark, next)) {
        if cvr.is_same(one) {
            return Some(*key);
        }
    }
    None
}
