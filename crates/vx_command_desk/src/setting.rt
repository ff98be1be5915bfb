use vx_center::Center;
use vx_election_model::Election;
use vx_layout::CardPlans;

/// What stays the same over the sheets: the election with the plans of its cards, what the journal keeps, and the
/// batch.
#[derive(Drop)]
pub(crate) struct Setting<'a> {
    pub(crate) election: &'a Election,
    pub(crate) plans: &'a CardPlans,
    pub(crate) center: &'a Center<'a>,
    pub(crate) batch: &'a str,
}
