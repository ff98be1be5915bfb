//! What the rows of a history have. This function does nothing; its contract is the law.

ghost use Rattle.vx_results.specs.Laws.{RowsFit};

/// Each row of a history of a valid election has a card that is there, and contests that ascend, with options
/// that are there; and there are at most 1,000,000 of them.
pub fn rows_fit()
    ensures { RowsFit }
{}
