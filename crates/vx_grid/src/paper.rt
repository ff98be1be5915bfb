ghost use Rattle.std.specs.Prelude.{◌≡◌, ◌≤◌};
ghost use Rattle.vx_grid.specs.Paper.{last_row as last_row_of, page_height as page_height_of, first_y as first_y_of};

/// The paper that an election's ballots are printed on.
#[derive(Clone, Copy, Debug, PartialEq, Eq)]
pub enum Paper {
    /// 8.5 by 11 inches.
    Letter,
    /// 8.5 by 14 inches.
    Legal,
}

/// The width of a page in pixels, on either paper.
pub const PAGE_WIDTH: u32 = 1700;

/// The height of a page in pixels.
pub fn page_height(paper: Paper) -> u32
    ensures exact { result ≡ page_height_of paper }
    ensures bound { result ≤ 2800 }
{
    match paper {
        Paper::Letter => 2200,
        Paper::Legal => 2800,
    }
}

/// The last grid row: 40 or 51.
pub fn last_row(paper: Paper) -> u32
    ensures exact { result ≡ last_row_of paper }
    ensures bound { (40 ≤ result) × (result ≤ 51) }
{
    match paper {
        Paper::Letter => 40,
        Paper::Legal => 51,
    }
}

/// The pixel row of the centre of grid row 0.
pub(crate) fn first_y(paper: Paper) -> u32
    ensures exact { result ≡ first_y_of paper }
    ensures bound { (60 ≤ result) × (result ≤ 74) }
{
    match paper {
        Paper::Letter => 60,
        Paper::Legal => 74,
    }
}
