ghost use Rattle.std.specs.Prelude.{◌≡◌};
ghost use Rattle.vx_refusals.specs.Texts.{paper_word as paper_word_of};

use std::fmt;
use vx_grid::{Paper, Point};

/// Why a reading is no certificate of a scan: the first test that fails, in the
/// order of `specs/Tests.antt` of `vx_check`.
#[derive(Clone, Copy, PartialEq, Eq)]
pub enum CheckFault {
    /// Timing mark `k` isn't at its said place: so many pixels are wrong there.
    MarkAt(u32, Point, u32),
    /// Timing mark `k` is said to be so many columns and rows away from where it is expected, more
    /// than 10 or 6. The number of the paper's marks in the place of `k` tells that the border stays
    /// open: how far the last mark of the right column is from where the bottom row leads.
    StepAt(u32, i32, i32),
    /// The first timing mark is said to be here, outside the region of corners.
    CornerAt(Point),
    /// The boxes don't show this bit of the said code, 0 to 41; or 42: the said code is out of its
    /// ranges, has another version or tag, or names no planned page.
    CodeAt(u32),
    /// The said score of this bubble and the counted one; none where a list has ended.
    ScoreAt(u32, Option<u32>, Option<u32>),
    /// The said state of this bubble isn't that of its score, is missing or is too much.
    StateAt(u32),
    /// The scan has so many columns and rows, which aren't allowed.
    FrameSize(u32, u32),
    /// The said border is of this paper, and the election's is the other one.
    PaperAt(Paper),
}

/// A value that may be missing.
#[derive(Clone, Copy)]
struct Value(Option<u32>);

impl fmt::Display for Value {
    ghost use Rattle.std.specs.Prelude.{Some};
    ghost use Rattle.vx_refusals.specs.Texts.{value_text};

    ghost output = { λ value. Some (value_text value.0) };

    fn fmt<W: fmt::Write>(&self, f: &mut fmt::Formatter<W>) -> fmt::Result {
        match self.0 {
            None => f.write_str("-"),
            Some(value) => write!(f, "{value}"),
        }
    }
}

fn paper_word(paper: Paper) -> &'static str
    ensures { result.now ≡ paper_word_of paper }
{
    match paper {
        Paper::Letter => "letter",
        Paper::Legal => "legal",
    }
}

/// The fault's number, and its values with blanks between; a missing value is `-`.
impl fmt::Display for CheckFault {
    ghost use Rattle.std.specs.Prelude.{Some};
    ghost use Rattle.vx_refusals.specs.Texts.{check_text};

    ghost output = { λ fault. Some (check_text fault) };

    fn fmt<W: fmt::Write>(&self, f: &mut fmt::Formatter<W>) -> fmt::Result {
        match self {
            CheckFault::MarkAt(k, place, deficit) => {
                write!(f, "1 {k} {} {} {deficit}", place.u, place.v)
            }
            CheckFault::StepAt(k, du, dv) => write!(f, "2 {k} {du} {dv}"),
            CheckFault::CornerAt(place) => write!(f, "3 {} {}", place.u, place.v),
            CheckFault::CodeAt(bit) => write!(f, "4 {bit}"),
            CheckFault::ScoreAt(j, said, counted) => {
                write!(f, "5 {j} {} {}", Value(*said), Value(*counted))
            }
            CheckFault::StateAt(j) => write!(f, "6 {j}"),
            CheckFault::FrameSize(width, height) => write!(f, "7 {width} {height}"),
            CheckFault::PaperAt(said) => {
                let said = paper_word(*said);
                write!(f, "8 {said}")
            }
        }
    }
}

/// The same text.
impl fmt::Debug for CheckFault {
    fn fmt<W: fmt::Write>(&self, f: &mut fmt::Formatter<W>) -> fmt::Result {
        fmt::Display::fmt(self, f)
    }
}
