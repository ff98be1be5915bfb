//! Laws of draws, findings, leads and figures. These functions do nothing; their contracts are the laws.

ghost use Rattle.vx_sampling.specs.Laws.{LargerSamplesBeginAlike, EachDrawCounts, MarginIsTheLeastLead, MetIsTheBound};

/// A larger sample begins with the draws of a smaller one of the same seed and as many records: who draws more
/// has drawn all that was drawn before.
pub fn larger_samples_begin_alike()
    ensures { LargerSamplesBeginAlike }
{}

/// Each draw is a finding of its own: a record that is drawn twice counts twice.
pub fn each_draw_counts()
    ensures { EachDrawCounts }
{}

/// A contest is told as met exactly where the bound over all its draws is at most the limit.
pub fn met_is_the_bound()
    ensures { MetIsTheBound }
{}

/// A contest's figures are made with the least lead of a winner over a loser, by the votes of the records. All
/// write-in slots together are one more loser. No pair is closer, and some pair is as close.
pub fn margin_is_the_least_lead()
    ensures { MarginIsTheLeastLead }
{}
