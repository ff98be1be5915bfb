use vx_base::ListOf;

/// Places in a list, counted from 0.
pub type Indexes = ListOf<u32>;
