//! Laws of election definitions. These functions do nothing; their contracts are the laws.

ghost use Rattle.vx_election.specs.Laws.{DefinedElectionsAreValid};

/// Every election that bytes define is valid.
pub fn defined_elections_are_valid()
    ensures { DefinedElectionsAreValid }
{}
