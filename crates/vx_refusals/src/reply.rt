use std::fmt;

/// What is answered to an event. All but the first are refusals, which change nothing.
#[derive(Clone, Copy, PartialEq, Eq)]
pub enum Reply {
    /// The event is kept.
    Done,
    /// A sheet with that key was added before, at this place in the order of adding, from 0.
    Repeated(u32),
    /// No sheet with that key was added.
    NoSheet,
    /// Another station, this one, holds the sheet.
    HeldBy(u32),
    /// No station holds the sheet.
    NotHeld,
    /// The sheet hasn't this contest.
    NotOnSheet(u32),
    /// The least number that is no option of the contest, or that names no candidate of it.
    NotAnOption(u32),
    /// So many options are selected, and the contest has so many seats.
    OverSeats(u32, u32),
    /// The least option that was read as marginal.
    StillMarginal(u32),
    /// The contest has no such write-in slot, or the slot isn't selected.
    NoWriteIn(u32),
    /// So many events are kept, and no more may be.
    Full(u32),
}

/// The refusal's number, its words and its values.
impl fmt::Display for Reply {
    ghost use Rattle.std.specs.Prelude.{Some};
    ghost use Rattle.vx_refusals.specs.ReplyTexts.{reply_text};

    ghost output = { λ reply. Some (reply_text reply) };

    fn fmt<W: fmt::Write>(&self, f: &mut fmt::Formatter<W>) -> fmt::Result {
        match self {
            Reply::Done => f.write_str("done"),
            Reply::Repeated(place) => write!(f, "1 repeated {place}"),
            Reply::NoSheet => f.write_str("2 no sheet"),
            Reply::HeldBy(station) => write!(f, "3 held by {station}"),
            Reply::NotHeld => f.write_str("4 not held"),
            Reply::NotOnSheet(contest) => write!(f, "5 not on sheet {contest}"),
            Reply::NotAnOption(option) => write!(f, "6 not an option {option}"),
            Reply::OverSeats(given, seats) => write!(f, "7 over seats {given} {seats}"),
            Reply::StillMarginal(option) => write!(f, "8 still marginal {option}"),
            Reply::NoWriteIn(slot) => write!(f, "9 no write-in {slot}"),
            Reply::Full(most) => write!(f, "10 full {most}"),
        }
    }
}

/// The same text.
impl fmt::Debug for Reply {
    fn fmt<W: fmt::Write>(&self, f: &mut fmt::Formatter<W>) -> fmt::Result {
        fmt::Display::fmt(self, f)
    }
}
