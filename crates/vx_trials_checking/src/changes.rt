//! Each change of one number of the first clean block by 1, up or down. What is expected was worked out by hand
//! from what is printed: a timing mark has 36 columns and 12 rows, its centre one column right of and one row
//! under the place that is read, and two columns right at the corner.

use crate::scans::{checked, first_page};
use crate::texts::{CLEAR, first_block};
use std::alloc::{AllocError, Global};
use std::test::Fail;

/// A number in a text: where its digits stand, and its value.
#[derive(Clone, Copy)]
struct Number {
    from: usize,
    to: usize,
    value: u32,
}

/// The numbers of a text, in order.
fn numbers_in(alloc: Global, text: &[u8]) -> Result<Vec<Number>, AllocError> {
    let mut found = Vec::new(alloc);
    let mut value = None;
    let mut from = 0;
    for (place, byte) in text.iter().enumerate() {
        if byte.is_ascii_digit() {
            let digit = u32::from(byte.wrapping_sub(b'0'));
            value = match value {
                None => {
                    from = place;
                    Some(digit)
                }
                Some(before) => Some(10u32.wrapping_mul(before).wrapping_add(digit)),
            };
        } else if let Some(value) = value.take() {
            let to = place;
            found.push(Number { from, to, value })?;
        }
    }
    Ok(found)
}

/// Adds the digits of a number.
fn push_value(alloc: Global, text: &mut Vec<u8>, value: u32) -> Result<(), AllocError> {
    let digits = format!(in alloc; "{value}")?;
    text.extend_from_slice(digits.as_bytes())?;
    Ok(())
}

/// A text with another value in the place of a number.
fn with_value(alloc: Global, text: &[u8], at: Number, value: u32) -> Result<Vec<u8>, Fail> {
    let front = text.get(..at.from).ok_or("no front")?;
    let behind = text.get(at.to..).ok_or("nothing behind")?;
    let mut changed = Vec::from_slice(alloc, front)?;
    push_value(alloc, &mut changed, value)?;
    changed.extend_from_slice(behind)?;
    Ok(changed)
}

/// A change of a number: which number of the block it is, the value of the one before it, its new value, and
/// whether that is greater than the old one.
#[derive(Clone, Copy)]
struct Change {
    number: usize,
    before: u32,
    now: u32,
    is_up: bool,
}

/// The status where the place of a mark is changed: its column in an odd number, its row in an even one. Only
/// a row further up is too far, and a column further left at the corner.
fn status_of_place(alloc: Global, change: Change) -> Result<String, Fail> {
    let mark = change.number.saturating_sub(3) / 2;
    let (before, now) = (change.before, change.now);
    let is_column = change.number % 2 == 1;
    if change.is_up || (is_column && mark != 0) {
        return Ok(String::from_str(alloc, "ok")?);
    }
    if is_column {
        return Ok(format!(in alloc; "not certified page 1 1 0 {now} 59 40")?);
    }
    let wrong = if mark == 0 { 85 } else { 68 };
    Ok(format!(in alloc; "not certified page 1 1 {mark} {before} {now} {wrong}")?)
}

/// The status of a change. Number 0 is the page's, 1 the card, 2 the side; then come two for each of 146 marks,
/// and four for each of two bubbles: its own number, its contest, its option and its score.
fn status_of(alloc: Global, change: Change) -> Result<String, Fail> {
    let status = match change.number {
        0 => "not certified line 1",
        1 => "not certified page 1 4 15",
        2 if change.is_up => "not certified page 1 4 20",
        2 => "not certified page 1 4 21",
        3..=294 => return status_of_place(alloc, change),
        298 => "not certified page 1 5 0 1 0",
        302 => "not certified page 1 5 1 1 0",
        295..=297 => "not certified line 3",
        _ => "not certified line 4",
    };
    Ok(String::from_str(alloc, status)?)
}

/// Checks a change of the clean block, and says whether it is a certificate all the same.
fn try_change<R: AllocGlobal>(
    rt: &R,
    page: &[u8],
    text: &[u8],
    at: Number,
    change: Change,
) -> Result<bool, Fail> {
    let alloc = rt.alloc();
    let readings = with_value(alloc, text, at, change.now)?;
    let answer = checked(rt, page, readings.as_slice())?;
    is_certified(alloc, change, answer.status.as_str())
}

/// Whether a status is that of a change, and a certificate all the same; another one is a failure.
fn is_certified(alloc: Global, change: Change, found: &str) -> Result<bool, Fail> {
    let status = status_of(alloc, change)?;
    if found != status.as_str() {
        let number = change.number;
        return Err(Fail::from(format!(in alloc; "{number}: {found}, not {status}")?));
    }
    Ok(found == "ok")
}

/// How many changes were tried, and how many of them are certificates.
#[derive(Clone, Copy, PartialEq, Debug)]
struct Tried {
    all: u32,
    certified: u32,
}

impl Tried {
    /// One change more.
    fn and(self, is_certified: bool) -> Tried {
        Tried {
            all: self.all.wrapping_add(1),
            certified: self.certified.wrapping_add(u32::from(is_certified)),
        }
    }
}

/// Tries each number of the block, one up or one down where it isn't 0.
fn try_all<R: AllocGlobal>(rt: &R, is_up: bool) -> Result<Tried, Fail> {
    let page = first_page(rt)?;
    let text = first_block(rt.alloc(), "", CLEAR)?;
    let numbers = numbers_in(rt.alloc(), text.as_bytes())?;
    try_each(
        rt,
        page.as_slice(),
        text.as_bytes(),
        numbers.as_slice(),
        is_up,
    )
}

/// A number's value, one up or one down where it isn't 0.
fn moved(value: u32, is_up: bool) -> Option<u32> {
    if is_up {
        value.checked_add(1)
    } else {
        value.checked_sub(1)
    }
}

/// Tries each of these numbers of a text.
fn try_each<R: AllocGlobal>(
    rt: &R,
    page: &[u8],
    text: &[u8],
    numbers: &[Number],
    is_up: bool,
) -> Result<Tried, Fail> {
    let mut tried = Tried {
        all: 0,
        certified: 0,
    };
    let mut before = 0;
    for (number, at) in numbers.iter().enumerate() {
        if let Some(now) = moved(at.value, is_up) {
            let change = Change {
                number,
                before,
                now,
                is_up,
            };
            tried = tried.and(try_change(rt, page, text, *at, change)?);
        }
        before = at.value;
    }
    Ok(tried)
}

#[test]
fn a_number_that_is_one_more_is_refused_or_certified(rt: HostRuntime) -> Result<(), Fail> {
    // Each of the 146 places, one column further right or one row further down, is a certificate still.
    let wanted = Tried {
        all: 303,
        certified: 292,
    };
    assert_eq!(rt; try_all(&rt, true)?, wanted);
    Ok(())
}

#[test]
fn a_number_that_is_one_less_is_refused_or_certified(rt: HostRuntime) -> Result<(), Fail> {
    // So is each but the corner, one column further left.
    let wanted = Tried {
        all: 296,
        certified: 145,
    };
    assert_eq!(rt; try_all(&rt, false)?, wanted);
    Ok(())
}
