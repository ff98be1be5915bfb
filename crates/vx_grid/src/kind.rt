ghost use Rattle.std.specs.Prelude.{◌≡◌};
ghost use Rattle.vx_grid.specs.Kinds.{kind_word as kind_word_of};

/// How a ballot was cast. The page code prints it in two bits, in this order from 0.
#[derive(Clone, Copy, Debug, PartialEq, Eq)]
pub enum Kind {
    Precinct,
    Absentee,
    Provisional,
    Other,
}

/// A kind of ballots in a word, with `test-` before it for test ballots.
pub fn kind_word(kind: Kind, test: bool) -> &'static str
    ensures { result.now ≡ kind_word_of kind test }
{
    match (kind, test) {
        (Kind::Precinct, false) => "precinct",
        (Kind::Absentee, false) => "absentee",
        (Kind::Provisional, false) => "provisional",
        (Kind::Other, false) => "other",
        (Kind::Precinct, true) => "test-precinct",
        (Kind::Absentee, true) => "test-absentee",
        (Kind::Provisional, true) => "test-provisional",
        (Kind::Other, true) => "test-other",
    }
}
