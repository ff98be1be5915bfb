//! Names of members of the definition, and whether a text is a name.

ghost use Rattle.std.specs.Prelude.{◌≡◌, bytes_eq};
ghost use Rattle.vx_election.specs.Names as names;

#[tactic(auto, unfolding(crate::specs::Names::allow_write_ins))]
pub(crate) fn allow_write_ins() -> &'static str
    ensures { result.now ≡ names.allow_write_ins }
{
    "allowWriteIns"
}

#[tactic(auto, unfolding(crate::specs::Names::description))]
pub(crate) fn description() -> &'static str
    ensures { result.now ≡ names.description }
{
    "description"
}

#[tactic(auto, unfolding(crate::specs::Names::ballot_styles))]
pub(crate) fn ballot_styles() -> &'static str
    ensures { result.now ≡ names.ballot_styles }
{
    "ballotStyles"
}

#[tactic(auto, unfolding(crate::specs::Names::mark_thousandths))]
pub(crate) fn mark_thousandths() -> &'static str
    ensures { result.now ≡ names.mark_thousandths }
{
    "vxMarkThousandths"
}

/// Whether a text is that word.
pub(crate) fn is_word(text: &str, word: &str) -> bool
    ensures { result ≡ bytes_eq text.now word.now }
{
    text == word
}
