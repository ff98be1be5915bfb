ghost use Rattle.std.specs.Prelude.{◌≡◌, Err};
ghost use Rattle.vx_command_gray.specs.Status.{answer_of, number_of, IsStop};

use std::fmt;
use vx_command::Halt;
use vx_gray::PgmFault;

/// What a `gray` ends with. Words are counted from 0.
#[derive(Debug, Drop)]
pub enum GrayStatus {
    /// All images were written as bitmaps.
    Ok,
    /// The words aren't a `gray`.
    Usage,
    /// The inputs hold nothing under that word.
    NoInput(u32),
    /// That input has so many bytes, more than the limit.
    TooLong(u32, u64),
    /// The inputs failed.
    ReadFault,
    /// The sink failed.
    WriteFault,
    /// There was no memory.
    NoMemory,
    /// The scan input of that word leaves the grammar of raw grayscale images.
    Pgm(u32, PgmFault),
}

impl GrayStatus {
    /// The number that the program ends with.
    pub fn number(&self) -> u8
        ensures { result ≡ number_of self.now }
    {
        match self {
            GrayStatus::Ok => 0,
            GrayStatus::Usage => 1,
            GrayStatus::NoInput(_) => 2,
            GrayStatus::TooLong(_, _) => 3,
            GrayStatus::ReadFault => 10,
            GrayStatus::WriteFault => 11,
            GrayStatus::NoMemory => 13,
            GrayStatus::Pgm(_, _) => 17,
        }
    }
}

/// The status where a step of a `gray` halts it.
pub(crate) fn status_of_halt(cause: Halt) -> GrayStatus
    requires { IsStop cause }
    ensures { answer_of result ≡ Err cause }
{
    match cause {
        Halt::NoInput(word) => GrayStatus::NoInput(word),
        Halt::TooLong(word, size) => GrayStatus::TooLong(word, size),
        Halt::ReadFault => GrayStatus::ReadFault,
        Halt::WriteFault => GrayStatus::WriteFault,
        Halt::NoMemory => GrayStatus::NoMemory,
        _ => unreachable!(),
    }
}

/// The status in words.
impl fmt::Display for GrayStatus {
    ghost use Rattle.std.specs.Prelude.{Some};
    ghost use Rattle.vx_command_gray.specs.Status.{line_of};

    ghost output = { λ status. Some (line_of status) };

    fn fmt<W: fmt::Write>(&self, f: &mut fmt::Formatter<W>) -> fmt::Result {
        match self {
            GrayStatus::Ok => f.write_str("ok"),
            GrayStatus::Usage => f.write_str("usage"),
            GrayStatus::NoInput(word) => write!(f, "no input {word}"),
            GrayStatus::TooLong(word, size) => write!(f, "too long {word} {size}"),
            GrayStatus::ReadFault => f.write_str("read fault"),
            GrayStatus::WriteFault => f.write_str("write fault"),
            GrayStatus::NoMemory => f.write_str("no memory"),
            GrayStatus::Pgm(word, fault) => write!(f, "pgm {word} {fault}"),
        }
    }
}

/// What the program writes to standard error as it ends with a status: a line, but nothing where all was
/// written.
#[derive(Clone, Copy)]
pub struct GrayMessage<'s>(pub &'s GrayStatus);

impl<'s> fmt::Display for GrayMessage<'s> {
    ghost use Rattle.std.specs.Prelude.{Some};
    ghost use Rattle.vx_command_gray.specs.Status.{message_of};

    ghost output = { λ message. Some (message_of message.0.now) };

    fn fmt<W: fmt::Write>(&self, f: &mut fmt::Formatter<W>) -> fmt::Result {
        match self.0 {
            GrayStatus::Ok => Ok(()),
            status => write!(f, "vx: {status}\n"),
        }
    }
}
