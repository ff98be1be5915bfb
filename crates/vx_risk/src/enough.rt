ghost use Rattle.std.specs.Prelude.{◌≡◌, IfOk};
ghost use Rattle.vx_risk.specs.Enough.{enough_of};

use crate::draws::{denominator_factor, numerator_factor};
use crate::natural::Natural;
use std::alloc::Global;
use vx_base::OutOfMemory;

/// The most draws that are looked at.
const MOST_DRAWS: u32 = 10_000;

/// The least number of draws, from 1 to 10,000, with which the bound is at most `limit` thousandths
/// where no draw has an overstatement. The only refusal is want of memory.
pub fn enough_draws(
    alloc: Global,
    records: u32,
    margin: u64,
    limit: u32,
) -> Result<Option<u32>, OutOfMemory>
    ensures { IfOk result (λ enough. enough ≡ enough_of records margin limit) }
{
    let above = numerator_factor(records, margin);
    let below = denominator_factor(records, 0);
    let mut numerator = Natural::from_number(alloc, 1000)?;
    let mut denominator = Natural::from_number(alloc, limit as u64)?;
    for drawn in 0..MOST_DRAWS {
        numerator.times(above)?;
        denominator.times(below)?;
        if numerator.is_at_most(&denominator) {
            return Ok(Some(drawn + 1));
        }
    }
    Ok(None)
}
