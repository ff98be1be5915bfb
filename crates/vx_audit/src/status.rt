ghost use Rattle.std.specs.Prelude.{◌≡◌, Err};
ghost use Rattle.vx_audit.specs.Status.{answer_of, hand_status, number_of, report_status, IsStop};

use crate::HandFault;
use std::fmt;
use vx_command::Halt;
use vx_tally::ReportFault;

/// What a `totals` or an `audit` ends with. Words are counted from 0.
#[derive(Drop)]
pub enum AuditStatus {
    /// The text was written.
    Ok,
    /// The words are neither a `totals` nor an `audit`.
    Usage,
    /// The inputs hold nothing under that word.
    NoInput(u32),
    /// That input has so many bytes, more than the limit.
    TooLong(u32, u64),
    /// The inputs failed.
    ReadFault,
    /// The sink failed.
    WriteFault,
    /// There was no memory.
    NoMemory,
    /// The report is refused.
    Report(ReportFault),
    /// That line of what hands read is the first that isn't one of its form, names what the report hasn't, or
    /// repeats a contest of a ballot. Lines are counted from 1.
    Hand(u32),
}

impl AuditStatus {
    /// The number that the program ends with.
    pub fn number(&self) -> u8
        ensures { result ≡ number_of self.now }
    {
        match self {
            AuditStatus::Ok => 0,
            AuditStatus::Usage => 1,
            AuditStatus::NoInput(_) => 2,
            AuditStatus::TooLong(_, _) => 3,
            AuditStatus::ReadFault => 10,
            AuditStatus::WriteFault => 11,
            AuditStatus::NoMemory => 13,
            AuditStatus::Report(_) => 14,
            AuditStatus::Hand(_) => 15,
        }
    }
}

/// The status where a step halts the command.
pub(crate) fn status_of_halt(cause: Halt) -> AuditStatus
    requires { IsStop cause }
    ensures { answer_of result ≡ Err cause }
{
    match cause {
        Halt::NoInput(word) => AuditStatus::NoInput(word),
        Halt::TooLong(word, size) => AuditStatus::TooLong(word, size),
        Halt::ReadFault => AuditStatus::ReadFault,
        Halt::WriteFault => AuditStatus::WriteFault,
        Halt::NoMemory => AuditStatus::NoMemory,
        _ => unreachable!(),
    }
}

/// The status where the report is refused.
pub(crate) fn status_of_report(fault: ReportFault) -> AuditStatus
    ensures { result ≡ report_status fault }
{
    match fault {
        ReportFault::OutOfMemory => AuditStatus::NoMemory,
        fault => AuditStatus::Report(fault),
    }
}

/// The status where what hands read is refused.
pub(crate) fn status_of_hand(fault: HandFault) -> AuditStatus
    ensures { result ≡ hand_status fault }
{
    match fault {
        HandFault::BadLine(line) => AuditStatus::Hand(line),
        HandFault::OutOfMemory => AuditStatus::NoMemory,
    }
}

/// The status in words.
impl fmt::Display for AuditStatus {
    ghost use Rattle.std.specs.Prelude.{Some};
    ghost use Rattle.vx_audit.specs.Status.{line_of};

    ghost output = { λ status. Some (line_of status) };

    fn fmt<W: fmt::Write>(&self, f: &mut fmt::Formatter<W>) -> fmt::Result {
        match self {
            AuditStatus::Ok => f.write_str("ok"),
            AuditStatus::Usage => f.write_str("usage"),
            AuditStatus::NoInput(word) => write!(f, "no input {word}"),
            AuditStatus::TooLong(word, size) => write!(f, "too long {word} {size}"),
            AuditStatus::ReadFault => f.write_str("read fault"),
            AuditStatus::WriteFault => f.write_str("write fault"),
            AuditStatus::NoMemory => f.write_str("no memory"),
            AuditStatus::Report(fault) => write!(f, "report {fault}"),
            AuditStatus::Hand(line) => write!(f, "hand {line}"),
        }
    }
}

/// What the program writes to standard error as it ends with a status: a line, but nothing where all was
/// written.
#[derive(Clone, Copy)]
pub struct AuditMessage<'s>(pub &'s AuditStatus);

impl<'s> fmt::Display for AuditMessage<'s> {
    ghost use Rattle.std.specs.Prelude.{Some};
    ghost use Rattle.vx_audit.specs.Status.{message_of};

    ghost output = { λ message. Some (message_of message.0.now) };

    fn fmt<W: fmt::Write>(&self, f: &mut fmt::Formatter<W>) -> fmt::Result {
        match self.0 {
            AuditStatus::Ok => Ok(()),
            status => write!(f, "vx: {status}\n"),
        }
    }
}
