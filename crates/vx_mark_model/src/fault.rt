use vx_grid::{Point, Side};

/// Why a scan's border can't be followed.
#[derive(Clone, Copy, Debug, PartialEq, Eq)]
pub enum BorderFault {
    /// No place of the corner's region is accepted.
    NoCorner,
    /// The mark on this side, with this column of a row or row of a column, isn't found near the
    /// place where it is expected.
    NoMark(Side, u32, Point),
    /// The bottom row leads to the first place, and the right column ended at the second.
    OpenBorder(Point, Point),
}
