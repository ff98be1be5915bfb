ghost use Rattle.std.specs.Prelude.{◌≡◌, ◌≤◌};
ghost use Rattle.vx_risk.specs.Bound.{numerator_by, denominator_by};

/// What a contest's bound is computed of: how many records there are, its margin in votes, how many
/// draws there are, and how many of them overstate the margin by one vote and by two. A record that
/// is drawn twice counts twice. A draw overstates by none, one or two.
#[derive(Clone, Copy, Debug)]
pub struct Draws {
    pub records: u32,
    pub margin: u64,
    pub drawn: u32,
    pub one: u32,
    pub two: u32,
}

/// Twice the inflator, 2 g, in ten-thousandths.
const TWICE_INFLATOR: u64 = 20_781;

/// What a draw multiplies the numerator of the bound by.
pub(crate) fn numerator_factor(records: u32, margin: u64) -> u64
    ensures { result ≡ numerator_by records margin }
{
    let whole = TWICE_INFLATOR * records as u64;
    whole.saturating_sub(margin.saturating_mul(10_000)) * TWICE_INFLATOR
}

/// What a draw with this overstatement, of at most two votes, multiplies the denominator by.
pub(crate) fn denominator_factor(records: u32, overstatement: u64) -> u64
    requires { overstatement ≤ 2 }
    ensures { result ≡ denominator_by records overstatement }
{
    TWICE_INFLATOR * records as u64 * (TWICE_INFLATOR - 10_000 * overstatement)
}
