use vx_base::ListOf;

/// What a bubble was read as.
#[derive(Clone, Copy, Debug, PartialEq, Eq)]
pub enum State {
    /// The score reaches the definite threshold.
    Marked,
    /// The score lies between the two thresholds, and a person has to decide.
    Marginal,
    /// The score is below the marginal threshold.
    Clear,
}

/// The two scores, in dark pixels added to a bubble, that tell the states apart.
#[derive(Clone, Copy, Debug, PartialEq, Eq)]
pub struct Thresholds {
    /// The least score that is Marginal.
    pub marg: u32,
    /// The least score that is Marked.
    pub def: u32,
}

/// What bubbles were read as, in their order.
pub type States = ListOf<State>;
