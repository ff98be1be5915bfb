ghost use Rattle.std.specs.Prelude.{◌≡◌};
ghost use Rattle.vx_command.specs.Halts.{bitmap_halt, card_halt, election_halt, taking_halt};

use crate::causes::SheetCause;
use std::alloc::AllocError;
use vx_election::ElectionFault;
use vx_io::TakeFault;
use vx_layout::{CardFault, LayoutFault};
use vx_pbm::PbmFault;
use vx_refusals::{CertFault, DecisionFault, JournalStop};

/// Why a command halts before its work is done. Words are counted from 0. A further cause is a variant here
/// and of `Status`, which has its number and its line.
#[derive(Drop)]
pub enum Halt {
    /// The inputs hold nothing under that word.
    NoInput(u32),
    /// That input has so many bytes, more than the limit.
    TooLong(u32, u64),
    /// The election definition is refused.
    Election(ElectionFault),
    /// The first card that can't be laid out, and why.
    Layout(u32, LayoutFault),
    /// The scan input of that word leaves the grammar of bitmaps.
    Pbm(u32, PbmFault),
    /// The readings aren't certified.
    NotCertified(CertFault),
    /// That line of the script is refused. Lines are counted from 1.
    Decision(u32, DecisionFault),
    /// The journal's record of that index, from 0, stops its reading.
    Journal(u64, JournalStop),
    /// The items up to the one of that word may have so many events, more than a shared center takes.
    TooManyEvents(u32, u64),
    /// The images of the sheet with that number, from 1, are no sheet.
    NoSheet(u64, SheetCause),
    /// That line of what hands read isn't one, names what the report hasn't, or repeats a pair. Lines are
    /// counted from 1.
    Hand(u32),
    /// The inputs failed.
    ReadFault,
    /// The sink failed.
    WriteFault,
    /// The keeper failed.
    KeeperFault,
    /// There was no memory.
    NoMemory,
}

impl From<AllocError> for Halt {
    ghost use Rattle.std.specs.Prelude.{◌≡◌};
    ghost use Rattle.vx_command.specs.declared.halt.Halt.TheVariants as halts;

    ghost from_gives = { λ _ halt. halt ≡ halts.NoMemory };

    fn from(_refused: AllocError) -> Halt {
        Halt::NoMemory
    }
}

/// Why a command halts whose input of a word wasn't taken.
pub fn halt_of_taking(word: u32, fault: TakeFault) -> Halt
    ensures { result ≡ taking_halt word fault }
{
    match fault {
        TakeFault::Failed => Halt::ReadFault,
        TakeFault::NoInput => Halt::NoInput(word),
        TakeFault::TooLong(size) => Halt::TooLong(word, size),
        TakeFault::OutOfMemory => Halt::NoMemory,
    }
}

/// Why a command halts whose election definition is refused.
pub fn halt_of_election(fault: ElectionFault) -> Halt
    ensures { result ≡ election_halt fault }
{
    match fault {
        ElectionFault::OutOfMemory => Halt::NoMemory,
        fault => Halt::Election(fault),
    }
}

/// Why a command halts that needs a card which can't be laid out.
pub fn halt_of_card(fault: CardFault) -> Halt
    ensures { result ≡ card_halt fault }
{
    let CardFault { card, fault } = fault;
    match fault {
        LayoutFault::OutOfMemory => Halt::NoMemory,
        fault => Halt::Layout(card, fault),
    }
}

/// Why a command halts where the scan input of a word leaves the grammar of bitmaps.
pub fn halt_of_bitmap(word: u32, fault: PbmFault) -> Halt
    ensures { result ≡ bitmap_halt word fault }
{
    match fault {
        PbmFault::OutOfMemory => Halt::NoMemory,
        fault => Halt::Pbm(word, fault),
    }
}
