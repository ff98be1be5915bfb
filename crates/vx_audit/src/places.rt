//! Places of contests and of selections, in order.

ghost use Rattle.std.specs.Prelude.{◌≡◌, ◌++◌, IfOk, OnOk};
ghost use Rattle.vx_audit.specs.Ascending.{IsAscending, counted_places};
ghost use Rattle.vx_audit.specs.Places.{AreLookedAt};

use crate::hand::Hand;
use std::alloc::Global;
use vx_base::OutOfMemory;
use vx_tally::CvrRecord;

/// Puts places into ascending order, each once.
pub(crate) fn put_in_order(places: &mut Vec<u32>)
    ensures { IsAscending places.old.items places.new.items }
{
    places.sort_unstable();
    places.dedup();
}

/// Puts the contests of a record behind others.
fn push_counted(contests: &mut Vec<u32>, one: &CvrRecord) -> Result<(), OutOfMemory>
    ensures { OnOk result (contests.new.items ≡ contests.old.items ++ counted_places one.now) }
{
    for counted in one.contests.as_slice() {
        contests.push(counted.contest)?;
    }
    Ok(())
}

/// The contests that the record at a place has, or of which there is a line, in order.
pub(crate) fn looked_at(
    alloc: Global,
    hand: &Hand,
    at: u32,
    one: &CvrRecord,
) -> Result<Vec<u32>, OutOfMemory>
    ensures { IfOk result (λ contests. AreLookedAt hand.now at one.now contests.items) }
{
    let mut contests = Vec::new(alloc);
    push_counted(&mut contests, one)?;
    hand.push_contests(at, &mut contests)?;
    put_in_order(&mut contests);
    Ok(contests)
}
