use crate::fault::PageFault;
use vx_base::ListOf;
use vx_code::PageCode;
use vx_grid::{Border, States};

/// Scores of bubbles, in their order.
pub type Scores = ListOf<u32>;

/// What a scan of a page is read as.
#[derive(Debug, Drop)]
pub struct PageReading {
    /// What the page says of itself.
    pub code: PageCode,
    /// The places of its timing marks, in pixels of the scan, and the paper that has them.
    pub border: Border,
    /// The scores of its bubbles, in the plan's order.
    pub scores: Scores,
    /// What its bubbles are read as, in the plan's order.
    pub states: States,
    /// Whether the scan is the page turned by 180 degrees; the places are then those of the scan
    /// turned back.
    pub turned: bool,
}

fn crosses_threads<T: Send + Sync>() {}

/// Threads may share a reading or a fault and hand it over.
pub fn reading_is_shared() {
    crosses_threads::<PageReading>();
    crosses_threads::<PageFault>()
}
