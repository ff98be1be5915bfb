ghost use Rattle.std.specs.Prelude.{◌≡◌, ◌≢◌, Bool, MatchOption, bytes_eq};
ghost use Rattle.vx_grid.specs.declared.kind.Kind.{Kind as KindOf};
ghost use Rattle.vx_grid.specs.declared.kind.Kind.TheVariants.{Other};
ghost use Rattle.vx_grid.specs.Kinds.{kind_name, kind_word};

use vx_grid::Kind;

/// Whether a word is that one.
fn is_word(word: &str, other: &str) -> bool
    ensures { result ≡ bytes_eq word.now other.now }
{
    word == other
}

/// The kind that a word names, but `other`, which no command takes.
fn plain_kind(word: &str) -> Option<Kind>
    ensures { MatchOption result
        ((kind : KindOf) → kind ≢ Other → word.now ≢ kind_name kind)
        (λ kind. (kind ≢ Other) × (word.now ≡ kind_name kind)) }
{
    if is_word(word, "precinct") {
        Some(Kind::Precinct)
    } else if is_word(word, "absentee") {
        Some(Kind::Absentee)
    } else if is_word(word, "provisional") {
        Some(Kind::Provisional)
    } else {
        None
    }
}

/// A kind's word, perhaps with `test-` before it: the kind, and whether it is a test ballot's.
pub fn kind_and_test(word: &str) -> Option<(Kind, bool)>
    ensures { MatchOption result
        ((kind : KindOf) (test : Bool) → kind ≢ Other → word.now ≢ kind_word kind test)
        (λ found. (found.0 ≢ Other) × (word.now ≡ kind_word found.0 found.1)) }
{
    match word.strip_prefix("test-") {
        Some(rest) => Some((plain_kind(rest)?, true)),
        None => Some((plain_kind(word)?, false)),
    }
}
