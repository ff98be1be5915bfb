ghost use Rattle.std.specs.Prelude.{◌≡◌};
ghost use Rattle.vx_sheet.specs.declared.fault.SheetFault.TheVariants as fault;

use std::alloc::AllocError;
use std::fmt;
use vx_code::PageCode;
use vx_grid::kind_word;

/// Why two readings are no sheet: the first fault, in this order.
#[derive(Clone, Copy, Debug, PartialEq, Eq)]
pub enum SheetFault {
    /// They are of these two cards.
    CardsDiffer(u32, u32),
    /// These two pages aren't the front and the back of one sheet: 2n - 1 and 2n, in either order.
    PagesNotFacing(u32, u32),
    /// One is of another kind than the other, or one alone is of a test ballot.
    KindsDiffer(PageCode, PageCode),
    /// Memory ran out.
    OutOfMemory,
}

impl From<AllocError> for SheetFault {
    ghost from_gives = { λ _ e. e ≡ fault.OutOfMemory };

    fn from(_e: AllocError) -> SheetFault {
        SheetFault::OutOfMemory
    }
}

/// The fault's number, its name, and its values with blanks between.
impl fmt::Display for SheetFault {
    ghost use Rattle.std.specs.Prelude.{Some};
    ghost use Rattle.vx_sheet.specs.FaultTexts.{fault_text};

    ghost output = { λ fault. Some (fault_text fault) };

    fn fmt<W: fmt::Write>(&self, f: &mut fmt::Formatter<W>) -> fmt::Result {
        match self {
            SheetFault::CardsDiffer(first, second) => write!(f, "1 CardsDiffer {first} {second}"),
            SheetFault::PagesNotFacing(first, second) => {
                write!(f, "2 PagesNotFacing {first} {second}")
            }
            SheetFault::KindsDiffer(first, second) => {
                let first = kind_word(first.kind, first.test);
                let second = kind_word(second.kind, second.test);
                write!(f, "3 KindsDiffer {first} {second}")
            }
            SheetFault::OutOfMemory => f.write_str("out of memory"),
        }
    }
}
