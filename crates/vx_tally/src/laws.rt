//! What is true of sums. This function does nothing; its contract is the law.

ghost use Rattle.vx_tally.specs.Laws.{SumsAreOfAnyOrder};

/// The same records in any order sum up to the same.
pub fn sums_are_of_any_order()
    ensures { SumsAreOfAnyOrder }
{}
