use crate::reply::Reply;
use std::fmt;

/// Why a journal's record stops its reading.
#[derive(Clone, Copy, PartialEq, Eq)]
pub enum JournalStop {
    /// It is no record; so many of its bytes begin one.
    Bad(u32),
    /// The counting machine refuses its event.
    Refused(Reply),
    /// It is the header of another election.
    OtherElection,
    /// Its event doesn't fit the election.
    Unfit,
}

/// The cause and its values.
impl fmt::Display for JournalStop {
    ghost use Rattle.std.specs.Prelude.{Some};
    ghost use Rattle.vx_refusals.specs.Texts.{journal_text};

    ghost output = { λ stop. Some (journal_text stop) };

    fn fmt<W: fmt::Write>(&self, f: &mut fmt::Formatter<W>) -> fmt::Result {
        match self {
            JournalStop::Bad(at) => write!(f, "bad {at}"),
            JournalStop::Refused(reply) => write!(f, "{reply}"),
            JournalStop::OtherElection => f.write_str("other election"),
            JournalStop::Unfit => f.write_str("unfit"),
        }
    }
}

/// The same text.
impl fmt::Debug for JournalStop {
    fn fmt<W: fmt::Write>(&self, f: &mut fmt::Formatter<W>) -> fmt::Result {
        fmt::Display::fmt(self, f)
    }
}
