use crate::reply::Reply;
use std::fmt;

/// Why a line of a script is refused.
#[derive(Clone, Copy, PartialEq, Eq)]
pub enum DecisionFault {
    /// It leaves the grammar of scripts.
    Bad,
    /// The counting machine refuses its event.
    Refused(Reply),
}

/// `bad`, or the refusal.
impl fmt::Display for DecisionFault {
    ghost use Rattle.std.specs.Prelude.{Some};
    ghost use Rattle.vx_refusals.specs.Texts.{decision_text};

    ghost output = { λ fault. Some (decision_text fault) };

    fn fmt<W: fmt::Write>(&self, f: &mut fmt::Formatter<W>) -> fmt::Result {
        match self {
            DecisionFault::Bad => f.write_str("bad"),
            DecisionFault::Refused(reply) => write!(f, "{reply}"),
        }
    }
}

/// The same text.
impl fmt::Debug for DecisionFault {
    fn fmt<W: fmt::Write>(&self, f: &mut fmt::Formatter<W>) -> fmt::Result {
        fmt::Display::fmt(self, f)
    }
}
