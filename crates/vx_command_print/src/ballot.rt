use vx_grid::Kind;

/// Which ballots are printed.
#[derive(Clone, Copy, Debug, PartialEq, Eq)]
pub struct Ballot {
    /// The card's number in its election, from 0.
    pub card: u32,
    pub kind: Kind,
    /// Whether it is a test ballot.
    pub test: bool,
}
