//! Laws of what hands have read. These functions do nothing; their contracts are the laws.

ghost use Rattle.vx_audit.specs.Laws.{BallotsAreFoundInOrder, HandsAreReadAlike};

/// What hands have read is the same where each ballot is found at the same place.
#[tactic(auto, using(crate::proofs::Found::read_alike))]
pub fn hands_are_read_alike()
    ensures { HandsAreReadAlike }
{}

/// A ballot is found among the records as far as one by putting the id of that one behind those before it.
#[tactic(auto, using(crate::proofs::Found::found_in_order))]
pub fn ballots_are_found_in_order()
    ensures { BallotsAreFoundInOrder }
{}
