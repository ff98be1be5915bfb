ghost use Rattle.std.specs.Prelude.{◌≡◌, Err, IfErr};
ghost use Rattle.vx_ranked.specs.Status.{ended_of, number_of, IsStop};

use crate::fault::RankedFault;
use std::fmt;
use vx_command::Halt;
use vx_election::ElectionFault;
use vx_layout::LayoutFault;
use vx_refusals::JournalStop;

/// What a `ranked` ends with. Words are counted from 0.
#[derive(Drop)]
pub enum RankedStatus {
    /// The rounds of all groups were written.
    Ok,
    /// The words aren't a `ranked`.
    Usage,
    /// The inputs hold nothing under that word.
    NoInput(u32),
    /// That input has so many bytes, more than the limit.
    TooLong(u32, u64),
    /// The election definition is refused.
    Election(ElectionFault),
    /// The first card that can't be laid out, and why.
    Layout(u32, LayoutFault),
    /// The journal's record of that index, from 0, stops its reading.
    Journal(u64, JournalStop),
    /// The inputs failed.
    ReadFault,
    /// The sink failed.
    WriteFault,
    /// The keeper failed.
    KeeperFault,
    /// There was no memory.
    NoMemory,
    /// The file of ranked contests is refused.
    Ranked(RankedFault),
}

impl RankedStatus {
    /// The number that the program ends with.
    pub fn number(&self) -> u8
        ensures { result ≡ number_of self.now }
    {
        match self {
            RankedStatus::Ok => 0,
            RankedStatus::Usage => 1,
            RankedStatus::NoInput(_) => 2,
            RankedStatus::TooLong(_, _) => 3,
            RankedStatus::Election(_) => 4,
            RankedStatus::Layout(_, _) => 5,
            RankedStatus::Journal(_, _) => 9,
            RankedStatus::ReadFault => 10,
            RankedStatus::WriteFault => 11,
            RankedStatus::KeeperFault => 12,
            RankedStatus::NoMemory => 13,
            RankedStatus::Ranked(_) => 16,
        }
    }
}

/// The status of a `ranked` that halts.
fn status_of_halt(cause: Halt) -> RankedStatus
    requires { IsStop cause }
    ensures { ended_of result ≡ Err cause }
{
    match cause {
        Halt::NoInput(word) => RankedStatus::NoInput(word),
        Halt::TooLong(word, size) => RankedStatus::TooLong(word, size),
        Halt::Election(fault) => RankedStatus::Election(fault),
        Halt::Layout(card, fault) => RankedStatus::Layout(card, fault),
        Halt::Journal(index, stop) => RankedStatus::Journal(index, stop),
        Halt::ReadFault => RankedStatus::ReadFault,
        Halt::WriteFault => RankedStatus::WriteFault,
        Halt::KeeperFault => RankedStatus::KeeperFault,
        Halt::NoMemory => RankedStatus::NoMemory,
        _ => unreachable!(),
    }
}

/// The status of a `ranked` that came to its end, where its file may have been refused, or halted before it.
pub(crate) fn status_of(ended: Result<Option<RankedFault>, Halt>) -> RankedStatus
    requires { IfErr ended IsStop }
    ensures same { ended_of result ≡ ended }
    ensures no_usage { result ≡ RankedStatus.Usage → ⊥ }
{
    match ended {
        Ok(None) => RankedStatus::Ok,
        Ok(Some(fault)) => RankedStatus::Ranked(fault),
        Err(cause) => status_of_halt(cause),
    }
}

/// The status in words.
impl fmt::Display for RankedStatus {
    ghost use Rattle.std.specs.Prelude.{Some};
    ghost use Rattle.vx_ranked.specs.Status.{line_of};

    ghost output = { λ status. Some (line_of status) };

    fn fmt<W: fmt::Write>(&self, f: &mut fmt::Formatter<W>) -> fmt::Result {
        match self {
            RankedStatus::Ok => f.write_str("ok"),
            RankedStatus::Usage => f.write_str("usage"),
            RankedStatus::NoInput(word) => write!(f, "no input {word}"),
            RankedStatus::TooLong(word, size) => write!(f, "too long {word} {size}"),
            RankedStatus::Election(fault) => write!(f, "election {fault}"),
            RankedStatus::Layout(card, fault) => write!(f, "layout {card} {fault}"),
            RankedStatus::Journal(index, stop) => write!(f, "journal {index} {stop}"),
            RankedStatus::ReadFault => f.write_str("read fault"),
            RankedStatus::WriteFault => f.write_str("write fault"),
            RankedStatus::KeeperFault => f.write_str("keeper fault"),
            RankedStatus::NoMemory => f.write_str("no memory"),
            RankedStatus::Ranked(fault) => write!(f, "ranked {fault}"),
        }
    }
}

/// What the program writes to standard error as it ends with a status: a line, but nothing where all was
/// written.
#[derive(Clone, Copy)]
pub struct RankedMessage<'s>(pub &'s RankedStatus);

impl<'s> fmt::Display for RankedMessage<'s> {
    ghost use Rattle.std.specs.Prelude.{Some};
    ghost use Rattle.vx_ranked.specs.Status.{message_of};

    ghost output = { λ message. Some (message_of message.0.now) };

    fn fmt<W: fmt::Write>(&self, f: &mut fmt::Formatter<W>) -> fmt::Result {
        match self.0 {
            RankedStatus::Ok => Ok(()),
            status => write!(f, "vx: {status}\n"),
        }
    }
}
