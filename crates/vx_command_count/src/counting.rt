use crate::tally::Tally;
use vx_journal::{Journal, drop_journal};

/// How far a count has come: the journal, and the sheets so far.
pub(crate) struct Counting<'e> {
    pub(crate) journal: Journal<'e>,
    pub(crate) tally: Tally,
}

/// Lets a count go, with its journal.
pub(crate) fn drop_counting(counting: Counting<'_>) {
    let Counting {
        journal,
        tally: _tally,
    } = counting;
    drop_journal(journal);
}
