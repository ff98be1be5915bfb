/// A side of the page, by its line of timing marks.
#[derive(Clone, Copy, Debug, PartialEq, Eq)]
pub enum Side {
    Top,
    Right,
    Left,
    Bottom,
}
