ghost use Rattle.std.specs.Prelude.{◌≡◌, [], ◌<◌, ◌≤◌, ◌^◌, true, IfOk, MatchResult};
ghost use Rattle.vx_records.specs.Numbers.{takes as takes_of, begins as begins_of, reaches as reaches_of, is_digit as is_digit_of, taken as taken_of, digits_in, number_in};
ghost use Rattle.vx_records.specs.Parts.{ended, followed_by, found};
ghost use Rattle.vx_records.specs.Stops.{Stops};

use crate::parts::{Stop, byte, end, split};

/// Which numbers may stand in a place of a record.
#[derive(Clone, Copy)]
pub(crate) enum Numbers {
    /// From the first to the second, both included.
    Between(u32, u32),
    /// Front pages: odd and below 64.
    Fronts,
}

/// Whether some digits more lead from `n` into the range.
fn reaches(least: u32, most: u32, n: u64) -> bool
    ensures exact { result ≡ reaches_of 6 least most n n }
    ensures small { result ≡ true → n ≤ most }
{
    let mut first = n;
    let mut last = n;
    for _tried in 0..6u32 {
        if u64::from(most) < first {
            return false;
        }
        if u64::from(least) <= last {
            return true;
        }
        first *= 10;
        last = 10 * last + 9;
    }
    false
}

/// Whether this number may stand here.
fn takes(numbers: Numbers, n: u64) -> bool
    ensures exact { result ≡ takes_of numbers n }
    ensures small { result ≡ true → n < 2 ^ 32 }
{
    match numbers {
        Numbers::Between(least, most) => u64::from(least) <= n && n <= u64::from(most),
        Numbers::Fronts => n % 2 == 1 && n < 64,
    }
}

/// Whether the digits of `n` are those of a number that may stand here, or begin one.
fn begins(numbers: Numbers, n: u64) -> bool
    ensures exact { result ≡ begins_of numbers n }
    ensures small { result ≡ true → n < 2 ^ 32 }
{
    match numbers {
        Numbers::Between(least, most) => match n {
            0 => least == 0,
            _ => reaches(least, most, n),
        },
        Numbers::Fronts => takes(numbers, n) || 1 <= n && n <= 6,
    }
}

fn is_digit(byte: u8) -> bool
    ensures { result ≡ is_digit_of byte }
{
    byte.is_ascii_digit()
}

/// The number, where it may stand here.
fn taken(numbers: Numbers, n: u64, text: &[u8]) -> Result<(u32, &[u8]), Stop>
    ensures exact { MatchResult result
        (λ x. taken_of numbers n text.now ≡ found x.0 x.1.now) (λ stop. Stops stop (taken_of numbers n text.now)) }
    ensures may { IfOk result (λ x. takes_of numbers x.0 ≡ true) }
{
    if takes(numbers, n) {
        Ok((n as u32, text))
    } else {
        Err(Stop::Left(text.len()))
    }
}

/// The number with these first digits, and the digits that stand here.
fn digits(text: &[u8], numbers: Numbers, first: u64) -> Result<(u32, &[u8]), Stop>
    requires { first < 2 ^ 32 }
    ensures exact { MatchResult result
        (λ x. digits_in numbers first text.now ≡ found x.0 x.1.now)
        (λ stop. Stops stop (digits_in numbers first text.now)) }
    ensures may { IfOk result (λ x. takes_of numbers x.0 ≡ true) }
{
    let mut n = first;
    let mut rest = text;
    while let Some((byte, further)) = split(rest) {
        if !is_digit(byte) {
            return taken(numbers, n, rest);
        }
        if n == 0 {
            return Err(Stop::Left(rest.len()));
        }
        let longer = 10 * n + u64::from(byte - b'0');
        if !begins(numbers, longer) {
            return Err(Stop::Left(rest.len()));
        }
        n = longer;
        rest = further;
    }
    taken(numbers, n, rest)
}

/// A number that may stand here.
pub(crate) fn number(text: &[u8], numbers: Numbers) -> Result<(u32, &[u8]), Stop>
    ensures exact { MatchResult result
        (λ x. number_in numbers text.now ≡ found x.0 x.1.now)
        (λ stop. Stops stop (number_in numbers text.now)) }
    ensures may { IfOk result (λ x. takes_of numbers x.0 ≡ true) }
{
    match split(text) {
        None => Err(Stop::Left(0)),
        Some((byte, further)) => {
            if !is_digit(byte) {
                return Err(Stop::Left(text.len()));
            }
            let digit = u64::from(byte - b'0');
            if begins(numbers, digit) {
                digits(further, numbers, digit)
            } else {
                Err(Stop::Left(text.len()))
            }
        }
    }
}

/// A number that may stand here, with this byte behind it.
pub(crate) fn number_before(text: &[u8], numbers: Numbers, behind: u8) -> Result<(u32, &[u8]), Stop>
    ensures exact { MatchResult result
        (λ x. followed_by behind (number_in numbers text.now) ≡ found x.0 x.1.now)
        (λ stop. Stops stop (followed_by behind (number_in numbers text.now))) }
    ensures may { IfOk result (λ x. takes_of numbers x.0 ≡ true) }
{
    let (n, rest) = number(text, numbers)?;
    let rest = byte(rest, behind)?;
    Ok((n, rest))
}

/// A number that may stand here, with nothing behind it.
pub(crate) fn last_number(text: &[u8], numbers: Numbers) -> Result<u32, Stop>
    ensures { MatchResult result
        (λ n. ended (number_in numbers text.now) ≡ found n [])
        (λ stop. Stops stop (ended (number_in numbers text.now))) }
{
    let (n, rest) = number(text, numbers)?;
    end(rest)?;
    Ok(n)
}
