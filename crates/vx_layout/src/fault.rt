ghost use Rattle.std.specs.Prelude.{◌≡◌};
ghost use Rattle.vx_layout.specs.declared.fault.LayoutFault.TheVariants as fault;

use std::alloc::AllocError;
use std::fmt;
use vx_json::Text;

/// Why a card can't be printed.
#[derive(Debug, Drop)]
pub enum LayoutFault {
    /// A contest's block has this many rows, and a text column of the paper has fewer: 28, or 39 on
    /// legal paper. The contest by its id.
    ContestTooTall(Text, u32),
    /// The name of an option of a contest, by its id, has this many characters, and 58 fit.
    TextTooLong(Text, u32),
    /// The card has this many pages, and a page's number is below 64.
    TooManyPages(u32),
    /// The election has so many cards, and none with this number.
    NoCard(u32),
    OutOfMemory,
}

/// The first card of an election that can't be planned, and why.
#[derive(Debug, Drop)]
pub struct CardFault {
    /// The card's number, from 0.
    pub card: u32,
    pub fault: LayoutFault,
}

impl From<AllocError> for LayoutFault {
    ghost from_gives = { λ _ e. e ≡ fault.OutOfMemory };

    fn from(_e: AllocError) -> LayoutFault {
        LayoutFault::OutOfMemory
    }
}

impl From<AllocError> for CardFault {
    ghost from_gives = { λ _ e. e ≡ record { card = 0; fault = fault.OutOfMemory } };

    fn from(_e: AllocError) -> CardFault {
        CardFault {
            card: 0,
            fault: LayoutFault::OutOfMemory,
        }
    }
}

/// The fault's number, and its values with blanks between.
impl fmt::Display for LayoutFault {
    ghost use Rattle.std.specs.Prelude.{Some};
    ghost use Rattle.vx_layout.specs.FaultTexts.{layout_fault_text};

    ghost output = { λ fault. Some (layout_fault_text fault) };

    fn fmt<W: fmt::Write>(&self, f: &mut fmt::Formatter<W>) -> fmt::Result {
        match self {
            LayoutFault::ContestTooTall(id, rows) => write!(f, "1 {} {rows}", id.as_str()),
            LayoutFault::TextTooLong(id, size) => write!(f, "2 {} {size}", id.as_str()),
            LayoutFault::TooManyPages(count) => write!(f, "3 {count}"),
            LayoutFault::NoCard(cards) => write!(f, "4 {cards}"),
            LayoutFault::OutOfMemory => f.write_str("out of memory"),
        }
    }
}
