use vx_base::ListOf;

/// A ballot on a candidate's pile, and the place of its ranking that names the candidate.
#[derive(Clone, Copy, Debug, Drop)]
pub(crate) struct PiledBallot {
    pub(crate) ballot: u32,
    pub(crate) place: u32,
}

/// A pile of ballots for each candidate, whether it stands, and how many ballots are exhausted.
#[derive(Drop)]
pub(crate) struct Piles {
    pub(crate) piles: Vec<ListOf<PiledBallot>>,
    pub(crate) standing: Vec<bool>,
    pub(crate) exhausted: u64,
}
