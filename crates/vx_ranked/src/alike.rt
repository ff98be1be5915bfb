//! Which contests can be ranked, and which are alike.

ghost use Rattle.std.specs.Prelude.{◌≡◌, ◌<◌, IfSome, length, bytes_eq};
ghost use Rattle.std.specs.Cmp.Lexicographic.{pointwise};
ghost use Rattle.vx_election_model.specs.Lists.{choice_ids};
ghost use Rattle.vx_ranked.specs.Alike as words;

use vx_election_model::{Choice, Contest};

/// The first contest with an id.
pub(crate) fn place_of(contests: &[Contest], id: &str) -> Option<usize>
    ensures place { result ≡ words.place_of contests.now id.now }
    ensures within { IfSome result (λ place. place < length contests.now) }
{
    contests
        .iter()
        .position(|contest| contest.id.as_str() == id)
}

/// Whether two lists have the same ids in the same order.
fn have_same_ids(one: &[Choice], other: &[Choice]) -> bool
    ensures { result ≡ pointwise bytes_eq (choice_ids one.now) (choice_ids other.now) }
{
    if one.len() != other.len() {
        return false;
    }
    for index in 0..one.len() {
        if one[index].id.as_str() != other[index].id.as_str() {
            return false;
        }
    }
    true
}

fn can_be_ranked(contest: &Contest) -> bool
    ensures { result ≡ words.can_be_ranked contest.now }
{
    !contest.is_yes_no && contest.seats == 1 && !contest.write_ins && contest.choices.len() > 0
}

fn have_same_party(one: Option<u32>, other: Option<u32>) -> bool
    ensures { result ≡ words.have_same_party one other }
{
    match (one, other) {
        (None, None) => true,
        (Some(party), Some(other)) => party == other,
        _ => false,
    }
}

fn are_alike(one: &Contest, other: &Contest) -> bool
    ensures { result ≡ words.are_alike one.now other.now }
{
    have_same_ids(one.choices.as_slice(), other.choices.as_slice())
        && one.district == other.district
        && have_same_party(one.party, other.party)
}

/// Whether a contest is like the one at a place, where there is a place.
fn is_like_first(contests: &[Contest], first: Option<u32>, contest: &Contest) -> bool
    ensures { result ≡ words.is_like_first contests.now first contest.now }
{
    let Some(first) = first else {
        return true;
    };
    match contests.get(first as usize) {
        Some(first) => are_alike(first, contest),
        None => false,
    }
}

/// Whether the contest at a place can stand behind those of its group.
pub(crate) fn fits_group(contests: &[Contest], found: &[u32], place: u32) -> bool
    ensures { result ≡ words.fits_group contests.now found.now place }
{
    match contests.get(place as usize) {
        Some(contest) => {
            can_be_ranked(contest) && is_like_first(contests, found.first().copied(), contest)
        }
        None => false,
    }
}
