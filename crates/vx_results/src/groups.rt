//! Groups: units, each with kinds.

ghost use Rattle.std.specs.Prelude.{◌≡◌, ◌++◌, IfOk, OnOk};
ghost use Rattle.vx_results.specs.Groups as spec;

use std::alloc::Global;
use vx_base::OutOfMemory;

/// The sheets of a kind in a unit.
#[derive(Clone, Copy)]
pub(crate) struct Group {
    /// The place of the unit among the report's.
    pub(crate) unit: u32,
    /// The number of the kind.
    pub(crate) kind: u32,
}

/// Puts a unit with each kind behind other groups.
fn push_unit(groups: &mut Vec<Group>, kinds: &[u32], unit: u32) -> Result<(), OutOfMemory>
    ensures { OnOk result (groups.new.items ≡ groups.old.items ++ spec.unit_groups kinds.now unit) }
{
    for kind in kinds {
        groups.push(Group { unit, kind: *kind })?;
    }
    Ok(())
}

/// Units, each with the kinds.
pub(crate) fn groups_of(
    alloc: Global,
    kinds: &[u32],
    units: &[u32],
) -> Result<Vec<Group>, OutOfMemory>
    ensures { IfOk result (λ groups. groups.items ≡ spec.groups_of kinds.now units.now) }
{
    let mut groups = Vec::new(alloc);
    for unit in units {
        push_unit(&mut groups, kinds, *unit)?;
    }
    Ok(groups)
}
