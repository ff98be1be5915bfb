ghost use Rattle.std.specs.Prelude.{◌≡◌, Err};
ghost use Rattle.vx_command.specs.Status.{answer_of, halted_status, number_of, status_of as status_of_answer};

use crate::causes::SheetCause;
use crate::halt::Halt;
use std::fmt;
use vx_election::ElectionFault;
use vx_layout::LayoutFault;
use vx_pbm::PbmFault;
use vx_refusals::{CertFault, DecisionFault, JournalStop};

/// What the program ends with. Words are counted from 0, lines from 1.
#[derive(Drop)]
pub enum Status {
    /// The command did its work.
    Ok,
    /// The words aren't a command.
    Usage,
    /// The inputs hold nothing under that word.
    NoInput(u32),
    /// That input has so many bytes, more than the limit.
    TooLong(u32, u64),
    /// The election definition is refused.
    Election(ElectionFault),
    /// The first card that can't be laid out, and why.
    Layout(u32, LayoutFault),
    /// The scan input of that word leaves the grammar of bitmaps.
    Pbm(u32, PbmFault),
    /// The readings aren't certified.
    NotCertified(CertFault),
    /// That line of the script is refused.
    Decision(u32, DecisionFault),
    /// The journal's record of that index, from 0, stops its reading.
    Journal(u64, JournalStop),
    /// The inputs failed.
    ReadFault,
    /// The sink failed.
    WriteFault,
    /// The keeper failed.
    KeeperFault,
    /// There was no memory.
    NoMemory,
    /// That line of what hands read isn't one, names what the report hasn't, or repeats a pair.
    Hand(u32),
    /// The items up to the one of that word may have so many events, more than a shared center takes.
    TooManyEvents(u32, u64),
    /// The images of the sheet with that number, from 1, are no sheet.
    NoSheet(u64, SheetCause),
}

impl Status {
    /// The number that the program ends with.
    pub fn number(&self) -> u8
        ensures { result ≡ number_of self.now }
    {
        match self {
            Status::Ok => 0,
            Status::Usage => 1,
            Status::NoInput(_) => 2,
            Status::TooLong(_, _) => 3,
            Status::Election(_) => 4,
            Status::Layout(_, _) => 5,
            Status::Pbm(_, _) => 6,
            Status::NotCertified(_) => 7,
            Status::Decision(_, _) => 8,
            Status::Journal(_, _) => 9,
            Status::ReadFault => 10,
            Status::WriteFault => 11,
            Status::KeeperFault => 12,
            Status::NoMemory => 13,
            Status::Hand(_) => 15,
            Status::TooManyEvents(_, _) => 18,
            Status::NoSheet(_, _) => 19,
        }
    }
}

/// The status of a command that halts.
fn status_of_halt(cause: Halt) -> Status
    ensures exact { result ≡ halted_status cause }
    ensures answer { answer_of result ≡ Err cause }
{
    match cause {
        Halt::NoInput(word) => Status::NoInput(word),
        Halt::TooLong(word, size) => Status::TooLong(word, size),
        Halt::Election(fault) => Status::Election(fault),
        Halt::Layout(card, fault) => Status::Layout(card, fault),
        Halt::Pbm(word, fault) => Status::Pbm(word, fault),
        Halt::NotCertified(fault) => Status::NotCertified(fault),
        Halt::Decision(line, fault) => Status::Decision(line, fault),
        Halt::Journal(index, stop) => Status::Journal(index, stop),
        Halt::TooManyEvents(word, count) => Status::TooManyEvents(word, count),
        Halt::NoSheet(number, cause) => Status::NoSheet(number, cause),
        Halt::Hand(line) => Status::Hand(line),
        Halt::ReadFault => Status::ReadFault,
        Halt::WriteFault => Status::WriteFault,
        Halt::KeeperFault => Status::KeeperFault,
        Halt::NoMemory => Status::NoMemory,
    }
}

/// The status that a command's answer ends the program with.
pub fn status_of(answer: Result<(), Halt>) -> Status
    ensures exact { result ≡ status_of_answer answer }
    ensures answer { answer_of result ≡ answer }
{
    match answer {
        Ok(()) => Status::Ok,
        Err(cause) => status_of_halt(cause),
    }
}

/// The status in words.
impl fmt::Display for Status {
    ghost use Rattle.std.specs.Prelude.{Some};
    ghost use Rattle.vx_command.specs.Status.{line_of};

    ghost output = { λ status. Some (line_of status) };

    fn fmt<W: fmt::Write>(&self, f: &mut fmt::Formatter<W>) -> fmt::Result {
        match self {
            Status::Ok => f.write_str("ok"),
            Status::Usage => f.write_str("usage"),
            Status::NoInput(word) => write!(f, "no input {word}"),
            Status::TooLong(word, size) => write!(f, "too long {word} {size}"),
            Status::Election(fault) => write!(f, "election {fault}"),
            Status::Layout(card, fault) => write!(f, "layout {card} {fault}"),
            Status::Pbm(word, fault) => write!(f, "pbm {word} {fault}"),
            Status::NotCertified(fault) => write!(f, "not certified {fault}"),
            Status::Decision(line, fault) => write!(f, "decision line {line} {fault}"),
            Status::Journal(index, stop) => write!(f, "journal {index} {stop}"),
            Status::TooManyEvents(word, count) => write!(f, "too many events {word} {count}"),
            Status::NoSheet(number, cause) => write!(f, "sheet {number} {cause}"),
            Status::Hand(line) => write!(f, "hand {line}"),
            Status::ReadFault => f.write_str("read fault"),
            Status::WriteFault => f.write_str("write fault"),
            Status::KeeperFault => f.write_str("keeper fault"),
            Status::NoMemory => f.write_str("no memory"),
        }
    }
}

/// What the program writes to standard error as it ends with a status: a line, but nothing where the
/// command did its work.
#[derive(Clone, Copy)]
pub struct Message<'s>(pub &'s Status);

impl<'s> fmt::Display for Message<'s> {
    ghost use Rattle.std.specs.Prelude.{Some};
    ghost use Rattle.vx_command.specs.Status.{message_of};

    ghost output = { λ message. Some (message_of message.0.now) };

    fn fmt<W: fmt::Write>(&self, f: &mut fmt::Formatter<W>) -> fmt::Result {
        match self.0 {
            Status::Ok => Ok(()),
            status => write!(f, "vx: {status}\n"),
        }
    }
}
