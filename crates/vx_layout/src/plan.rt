use crate::pages::PagePlans;
use vx_base::ListOf;

/// A card as planned pages.
#[derive(Debug, Drop)]
pub struct CardPlan {
    /// The card's number in its election, from 0.
    pub card: u32,
    /// An even number of pages, at least 2.
    pub pages: PagePlans,
    /// How many characters of the texts are drawn as the hollow box.
    pub hollow: u32,
}

fn shared<T: Send + Sync>() {}

/// Threads may share a plan and hand it over.
pub fn card_plan_is_shared() {
    shared::<CardPlan>()
}

/// A list of planned cards.
pub type CardPlans = ListOf<CardPlan>;

/// Lets a planned card go. That this is safe is proved here; a crate that calls it needn't prove it again.
pub fn drop_plan(_plan: CardPlan) {}

/// Lets planned cards go, as `drop_plan` does one.
pub fn drop_plans(_plans: CardPlans) {}
