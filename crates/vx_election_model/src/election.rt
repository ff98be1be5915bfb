use crate::contest::Contests;
use crate::named::NamedList;
use crate::reason::ReasonSet;
use crate::style::Styles;
use vx_grid::{Paper, Thresholds};
use vx_json::Text;

/// An election as its definition gives it.
#[derive(Debug, Drop)]
pub struct Election {
    pub title: Text,
    /// The day of the election, as `YYYY-MM-DD`.
    pub date: Text,
    pub parties: NamedList,
    pub districts: NamedList,
    pub precincts: NamedList,
    pub contests: Contests,
    pub styles: Styles,
    /// The scores, in pixels, from which a bubble is marginal and marked.
    pub thresholds: Thresholds,
    /// For which reasons a contest waits for a person.
    pub reasons: ReasonSet,
    /// The paper that its ballots are printed on.
    pub paper: Paper,
    /// The SHA-256 of the bytes of the definition.
    pub digest: [u8; 32],
}

fn shared<T: Send + Sync>() {}

/// Threads may share an election and hand it over.
pub fn election_is_shared() {
    shared::<Election>()
}

/// Lets an election go. That this is safe is proved here; a crate that calls it needn't prove it again.
pub fn drop_election(_election: Election) {}
