use vx_base::ListOf;
use vx_scan_model::PageReading;

/// Which bubble a line names: the contest's number in the election, and the option's in the contest.
#[derive(Clone, Copy, Debug, PartialEq, Eq)]
pub struct BubbleName {
    pub contest: u32,
    pub option: u32,
}

/// What the block of a page says.
#[derive(Debug, Drop)]
pub struct SaidReading {
    /// The number of the line of its first bubble, counted from 1 over the whole text.
    pub first_bubble: u32,
    /// Which bubbles its lines name, in their order.
    pub names: ListOf<BubbleName>,
    /// The reading that it says.
    pub reading: PageReading,
}

/// What a text says of a page.
#[derive(Debug, Drop)]
pub enum SaidPage {
    /// That it couldn't be read.
    NoReading,
    /// Its reading.
    Reading(SaidReading),
}
