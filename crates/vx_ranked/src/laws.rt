//! Laws of groups that were read, and of rankings. These functions do nothing; their contracts are the laws.

ghost use Rattle.vx_ranked.specs.Groups.{ReadGroupsAreGroups};
ghost use Rattle.vx_ranked.specs.Marked.{UndecidedSheetsAreRankedAsMarked};

/// A group that was read has 1 to 10 contests, the first of which has a candidate.
pub fn read_groups_are_groups()
    ensures { ReadGroupsAreGroups }
{}

/// The ranking of a sheet of whose contests nothing was decided, where it has one, is that of its marks: at each
/// rank its marked options are selected, and none was ruled.
pub fn undecided_sheets_are_ranked_as_marked()
    ensures { UndecidedSheetsAreRankedAsMarked }
{}
