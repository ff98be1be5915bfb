use vx_base::ListOf;

/// A bubble of a page: which option of which contest it stands for, and its grid point.
#[derive(Clone, Copy, Debug, PartialEq, Eq)]
pub struct Bubble {
    /// The contest's place in the election's list.
    pub contest: u32,
    /// The option's place in its contest: the choices, then the write-in slots.
    pub option: u32,
    /// The grid column of its centre.
    pub col: u32,
    /// The grid row of its centre.
    pub row: u32,
}

/// A list of bubbles.
pub type Bubbles = ListOf<Bubble>;
