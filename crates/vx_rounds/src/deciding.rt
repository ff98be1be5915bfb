ghost use Rattle.std.specs.Prelude.{◌≡◌, ◌*◌, ◌^◌, ◌<◌, ◌≤◌, ◌==◌, length, reverse, find, nat_lt, option_map, All, Any};
ghost use Rattle.vx_rounds.specs.Rounds.{total_of, winner_of, out_of};

/// What a round comes to: who won, or who goes out.
#[derive(Clone, Copy, Debug, Drop)]
pub(crate) struct Decision {
    pub(crate) winner: Option<u32>,
    pub(crate) out: Option<u32>,
}

/// The number of ballots that count for a candidate.
fn total(counts: &[(u32, u64)]) -> u64
    requires few { length counts.now < 2 ^ 32 }
    requires small { All (λ count. count.1 < 2 ^ 32) counts.now }
    ensures { result ≡ total_of counts.now }
{
    let mut total = 0;
    for (_, count) in counts {
        total += *count;
    }
    total
}

/// The candidate with more than half of the total.
fn winner(counts: &[(u32, u64)], total: u64) -> Option<u32>
    requires { All (λ count. count.1 < 2 ^ 32) counts.now }
    ensures { result ≡ option_map (λ count. count.0)
        (find (λ count. nat_lt total (2 * count.1)) counts.now) }
{
    counts
        .iter()
        .find(|count| 2 * count.1 > total)
        .map(|count| count.0)
}

/// The least count of all, and `most` where there is none or none is less.
fn least(counts: &[(u32, u64)], most: u64) -> u64
    requires { All (λ count. count.1 ≤ most) counts.now }
    ensures none_less { All (λ count. result ≤ count.1) counts.now }
    ensures met { 0 < length counts.now → Any (λ count. count.1 ≡ result) counts.now }
{
    let mut least = most;
    for (_, count) in counts {
        if *count < least {
            least = *count;
        }
    }
    least
}

/// The last candidate with this count.
fn last_with(counts: &[(u32, u64)], least: u64) -> Option<u32>
    ensures { result ≡ option_map (λ count. count.0)
        (find (λ count. count.1 == least) (reverse counts.now)) }
{
    counts
        .iter()
        .rev()
        .find(|count| count.1 == least)
        .map(|count| count.0)
}

/// What a round with these counts comes to.
pub(crate) fn decide(counts: &[(u32, u64)]) -> Decision
    requires few { length counts.now < 2 ^ 32 }
    requires small { All (λ count. count.1 < 2 ^ 32) counts.now }
    ensures winner { result.winner ≡ winner_of counts.now }
    ensures out { result.out ≡ out_of counts.now }
{
    let total = total(counts);
    let winner = winner(counts, total);
    if total == 0 || winner.is_some() {
        return Decision { winner, out: None };
    }
    let out = last_with(counts, least(counts, total));
    Decision { winner, out }
}
