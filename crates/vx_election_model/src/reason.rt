ghost use Rattle.std.specs.Prelude.{◌≡◌};
ghost use Rattle.vx_election_model.specs.Reasons.{has_reason};

use std::marker::Model;

/// Why a person has to look at a contest of a sheet.
#[derive(Clone, Copy, Debug, PartialEq, Eq)]
pub enum Reason {
    /// More options are marked than there are seats.
    Overvote,
    /// Fewer options are marked than there are seats.
    Undervote,
    /// An option is read as marginal.
    MarginalMark,
    /// No option of the whole sheet is marked or marginal.
    BlankBallot,
    /// A write-in slot is marked.
    WriteIn,
}

/// A set of reasons. Contracts see, for each reason in the order of `Reason`, whether it is in.
#[derive(Clone, Copy, Debug, PartialEq, Eq)]
pub struct ReasonSet {
    held: [bool; 5],
}

impl Model for ReasonSet {
    ghost use Rattle.std.specs.Prelude.{List, Bool};

    ghost Value = { List Bool };

    ghost view = { λ set. set.held };

    ghost inverse = { λ held. record { held = held } };
}

impl ReasonSet {
    /// The reasons whose place in the order of `Reason` is true; takes no memory.
    pub fn of(held: [bool; 5]) -> ReasonSet
        ensures { result ≡ held }
    {
        ReasonSet { held }
    }

    /// Whether the reason is in the set.
    pub fn has(&self, reason: Reason) -> bool
        ensures { result ≡ has_reason self.now reason }
    {
        self.held[reason as usize]
    }
}
