use vx_election_model::Election;
use vx_layout::CardPlans;

/// What stays the same over a count: the election with the plans of its cards, the batch, and how many
/// workers read its images.
#[derive(Clone, Copy)]
pub(crate) struct Setting<'a> {
    pub(crate) election: &'a Election,
    pub(crate) plans: &'a CardPlans,
    pub(crate) batch: &'a str,
    pub(crate) workers: u32,
}
