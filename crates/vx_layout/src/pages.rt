use crate::bubbles::Bubbles;
use crate::lines::TextLines;
use vx_base::ListOf;
use vx_grid::Paper;

/// What is printed on one page of a card, but for the page code and the timing marks.
#[derive(Debug, Drop)]
pub struct PagePlan {
    /// The page's number on its card, from 1.
    pub page: u32,
    /// How many pages the card has.
    pub of: u32,
    /// The election's paper.
    pub paper: Paper,
    /// In the order of contests and options.
    pub bubbles: Bubbles,
    /// In the order of blocks, rows and lines, the foot line last.
    pub texts: TextLines,
}

/// A list of pages.
pub type PagePlans = ListOf<PagePlan>;
