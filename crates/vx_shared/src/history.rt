use vx_base::ListOf;
use vx_events::{Event, Reply};

/// A call of a shared center: what came in, and what was answered.
#[derive(Debug, Drop)]
pub struct Entry {
    pub event: Event,
    pub reply: Reply,
}

/// Calls, in order.
pub type Entries = ListOf<Entry>;
