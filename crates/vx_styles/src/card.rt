use vx_base::ListOf;

/// A card: the pages that the voters of a precinct get under a ballot style.
#[derive(Clone, Copy, Debug, PartialEq, Eq)]
pub struct Card {
    /// The place of its style in the election's list.
    pub style: u32,
    /// The place of its precinct in the election's list.
    pub precinct: u32,
}

/// A list of cards. A card's number is its place, from 0.
pub type CardList = ListOf<Card>;
