//! Groups of contests that are ranked together.

use vx_base::ListOf;
use vx_election_model::Indexes;
use vx_json::Text;

/// A ranked contest: the contests of its ranks.
#[derive(Drop)]
pub struct Group {
    /// Its own id in the file.
    pub id: Text,
    /// The places of its contests in the election's list, rank 1 first.
    pub contests: Indexes,
}

/// Groups of a file, in its order.
pub type Groups = ListOf<Group>;

/// Lets groups go. That this is safe is proved here; a crate that calls it needn't prove it again.
pub fn drop_groups(_groups: Groups) {}
