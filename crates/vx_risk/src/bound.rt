ghost use Rattle.std.specs.Prelude.{◌≡◌, ◌*◌, ◌≤◌, ℕ, List, IfOk, nat_le};
ghost use Rattle.vx_risk.specs.Bound.{numerator_of, denominator_of, is_at_most, millionths_in, millionths_of};
ghost use Rattle.vx_risk.specs.Counts.{AreOf};

use crate::draws::{Draws, denominator_factor, numerator_factor};
use crate::natural::Natural;
use std::alloc::Global;
use vx_base::OutOfMemory;

/// A bound in millionths, rounded up and at most 1,000,000, and whether the exact bound is at most
/// the risk limit.
#[derive(Clone, Copy, Debug)]
pub struct Bound {
    pub millionths: u32,
    pub is_met: bool,
}

/// The numerator of the bound.
fn numerator(alloc: Global, draws: Draws) -> Result<Natural, OutOfMemory>
    ensures { IfOk result (λ numerator. (os : List ℕ) → AreOf draws os →
        numerator ≡ numerator_of draws.records draws.margin os) }
{
    let mut numerator = Natural::from_number(alloc, 1)?;
    numerator.times_power(numerator_factor(draws.records, draws.margin), draws.drawn)?;
    Ok(numerator)
}

/// The denominator of the bound.
fn denominator(alloc: Global, draws: Draws) -> Result<Natural, OutOfMemory>
    ensures { IfOk result (λ denominator. (os : List ℕ) → AreOf draws os →
        denominator ≡ denominator_of draws.records os) }
{
    let none = draws
        .drawn
        .saturating_sub(draws.one)
        .saturating_sub(draws.two);
    let mut denominator = Natural::from_number(alloc, 1)?;
    denominator.times_power(denominator_factor(draws.records, 0), none)?;
    denominator.times_power(denominator_factor(draws.records, 1), draws.one)?;
    denominator.times_power(denominator_factor(draws.records, 2), draws.two)?;
    Ok(denominator)
}

/// Whether a number is at most so many times another.
fn is_within(
    alloc: Global,
    number: &Natural,
    factor: u64,
    other: &Natural,
) -> Result<bool, OutOfMemory>
    ensures { IfOk result (λ is_within. is_within ≡ nat_le number.now (factor * other.now)) }
{
    let mut product = other.copy(alloc)?;
    product.times(factor)?;
    Ok(number.is_at_most(&product))
}

/// A fraction, of which the numerator is given in millionths, in millionths, rounded up and at most
/// 1,000,000: found by halving the range in which it lies.
fn millionths(alloc: Global, numerator: &Natural, denominator: &Natural) -> Result<u32, OutOfMemory>
    ensures millionths { IfOk result (λ millionths. millionths ≡ millionths_in numerator.now denominator.now) }
    ensures at_most_one { IfOk result (λ millionths. millionths ≤ 1000000) }
{
    let mut scaled = numerator.copy(alloc)?;
    scaled.times(1_000_000)?;
    let mut low = 0;
    let mut high = 1_000_000;
    while low < high {
        let middle = low + (high - low) / 2;
        if is_within(alloc, &scaled, middle as u64, denominator)? {
            high = middle;
        } else {
            low = middle + 1;
        }
    }
    Ok(low)
}

/// Whether a fraction is at most so many thousandths.
fn is_met(
    alloc: Global,
    numerator: &Natural,
    limit: u32,
    denominator: &Natural,
) -> Result<bool, OutOfMemory>
    ensures { IfOk result (λ is_met. is_met ≡ nat_le (numerator.now * 1000) (limit * denominator.now)) }
{
    let mut scaled = numerator.copy(alloc)?;
    scaled.times(1000)?;
    is_within(alloc, &scaled, limit as u64, denominator)
}

/// The Kaplan-Markov bound of a sample's draws, and whether it is at most `limit` thousandths: that
/// of any draws with these counts, in whichever order. Where no draws have such counts, as with more
/// overstatements than draws, nothing is said of it. Of no records, which nothing is drawn from, the
/// bound is 0 of 0, which is met. The only refusal is want of memory.
pub fn bound_of(alloc: Global, draws: Draws, limit: u32) -> Result<Bound, OutOfMemory>
    ensures millionths { IfOk result (λ bound. (os : List ℕ) → AreOf draws os →
        bound.millionths ≡ millionths_of draws.records draws.margin os) }
    ensures at_most_one { IfOk result (λ bound. bound.millionths ≤ 1000000) }
    ensures met { IfOk result (λ bound. (os : List ℕ) → AreOf draws os →
        bound.is_met ≡ is_at_most draws.records draws.margin os limit) }
{
    let numerator = numerator(alloc, draws)?;
    let denominator = denominator(alloc, draws)?;
    let millionths = millionths(alloc, &numerator, &denominator)?;
    let is_met = is_met(alloc, &numerator, limit, &denominator)?;
    Ok(Bound { millionths, is_met })
}
