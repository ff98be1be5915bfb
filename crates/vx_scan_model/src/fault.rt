ghost use Rattle.std.specs.Prelude.{◌≡◌};
ghost use Rattle.vx_scan_model.specs.declared.fault.PageFault.TheVariants as fault;
ghost use Rattle.vx_scan_model.specs.FaultTexts.{side_name};

use std::alloc::AllocError;
use std::fmt;
use vx_code::CodeFault;
use vx_grid::Side;
use vx_mark_model::BorderFault;

/// Why a scan can't be read: its first fault, in this order.
#[derive(Clone, Copy, Debug, PartialEq, Eq)]
pub enum PageFault {
    /// A scan has 1600 to 2000 columns and 2100 to 2400 rows, or 2700 to 3000 on legal paper, and this
    /// one has so many of each.
    FrameSize(u32, u32),
    /// Its border of timing marks can't be followed.
    Border(BorderFault),
    /// Its boxes are no code.
    Code(CodeFault),
    /// Its code has the tag of another election.
    OtherElection(u32),
    /// The election has no card with its number.
    NoCard(u32),
    /// The card has no page with its number.
    NoPage(u32),
    /// Memory ran out.
    OutOfMemory,
}

impl From<AllocError> for PageFault {
    ghost from_gives = { λ _ e. e ≡ fault.OutOfMemory };

    fn from(_e: AllocError) -> PageFault {
        PageFault::OutOfMemory
    }
}

/// A side of the page, in a word.
fn side_word(side: Side) -> &'static str
    ensures { result.now ≡ side_name side }
{
    match side {
        Side::Top => "top",
        Side::Right => "right",
        Side::Left => "left",
        Side::Bottom => "bottom",
    }
}

/// The fault's number, its name, and its values with blanks between.
impl fmt::Display for PageFault {
    ghost use Rattle.std.specs.Prelude.{Some};
    ghost use Rattle.vx_scan_model.specs.FaultTexts.{fault_text};

    ghost output = { λ fault. Some (fault_text fault) };

    fn fmt<W: fmt::Write>(&self, f: &mut fmt::Formatter<W>) -> fmt::Result {
        match self {
            PageFault::FrameSize(width, height) => write!(f, "1 FrameSize {width} {height}"),
            PageFault::Border(BorderFault::NoCorner) => f.write_str("2.1 NoCorner"),
            PageFault::Border(BorderFault::NoMark(side, index, at)) => {
                let side = side_word(*side);
                write!(f, "2.2 NoMark {side} {index} {} {}", at.u, at.v)
            }
            PageFault::Border(BorderFault::OpenBorder(end, found)) => {
                write!(
                    f,
                    "2.3 OpenBorder {} {} {} {}",
                    end.u, end.v, found.u, found.v
                )
            }
            PageFault::Code(CodeFault::BadPair(bit, left, right)) => {
                write!(f, "3.1 BadPair {bit} {left} {right}")
            }
            PageFault::Code(CodeFault::BadVersion(version)) => {
                write!(f, "3.2 BadVersion {version}")
            }
            PageFault::OtherElection(tag) => write!(f, "4 OtherElection {tag}"),
            PageFault::NoCard(card) => write!(f, "5 NoCard {card}"),
            PageFault::NoPage(page) => write!(f, "6 NoPage {page}"),
            PageFault::OutOfMemory => f.write_str("out of memory"),
        }
    }
}
