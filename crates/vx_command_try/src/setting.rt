use vx_election_model::Election;
use vx_layout::CardPlans;

/// What stays the same over a `try`: the election with the plans of its cards.
#[derive(Clone, Copy)]
pub(crate) struct Setting<'a> {
    pub(crate) election: &'a Election,
    pub(crate) plans: &'a CardPlans,
}
