//! Laws of rankings and of their rounds. These functions do nothing; their contracts are the laws.

ghost use Rattle.vx_rounds.specs.Laws.{CountsEnd, RankingsAreShort};

/// Rankings that name each candidate at most once can be counted.
pub fn rankings_are_short()
    ensures { RankingsAreShort }
{}

/// The rounds of a count come to a last one, in which no candidate goes out; in each before it one
/// does. So the definition's number of rounds never cuts a count off.
pub fn counts_end()
    ensures { CountsEnd }
{}
