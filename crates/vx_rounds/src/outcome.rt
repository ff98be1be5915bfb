use vx_base::ListOf;

/// Candidates by their numbers, ascending, each with the number of ballots that count for it.
pub type Counts = ListOf<(u32, u64)>;

/// Rounds in their order.
pub type RoundList = ListOf<Round>;

/// One round: the counts of the standing candidates, the number of ballots that count for none, and
/// the candidate that goes out, which is none in the last round alone.
#[derive(Debug, Drop)]
pub struct Round {
    pub counts: Counts,
    pub exhausted: u64,
    pub out: Option<u32>,
}

/// All rounds of a count, and who won in the last of them.
#[derive(Debug, Drop)]
pub struct Rounds {
    pub rounds: RoundList,
    pub winner: Option<u32>,
}
