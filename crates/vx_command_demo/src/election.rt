//! The demo election, as the text of its definition.

ghost use Rattle.std.specs.Prelude.{◌≡◌, ◌+◌, ◌<◌, ◌≤◌, ◌^◌, IfOk, string_bytes};
ghost use Rattle.serde_json.specs.View.{view};
ghost use Rattle.vx_command_demo.specs.Election as spec;

use serde_json::{Value, json};
use std::alloc::Global;
use vx_base::{Bytes, OutOfMemory};

/// A word with a number behind it.
fn numbered(alloc: Global, word: &str, number: u32) -> Result<String, OutOfMemory>
    ensures { IfOk result (λ text. string_bytes text ≡ spec.numbered word.now number) }
{
    format!(in alloc; "{word}{number}")
}

/// A thing with a number: its id and its name.
fn named(alloc: Global, id: &str, name: &str, number: u32) -> Result<Value, OutOfMemory>
    ensures { IfOk result (λ value. view value ≡ spec.named id.now name.now number) }
{
    let id = numbered(alloc, id, number)?;
    let name = numbered(alloc, name, number)?;
    json!(in alloc; {"id": id, "name": name})
}

/// So many of them, from a number on.
fn all_named(
    alloc: Global,
    id: &str,
    name: &str,
    first: u32,
    many: u32,
) -> Result<Value, OutOfMemory>
    requires { first + many < 2 ^ 32 }
    ensures { IfOk result (λ value. view value ≡ spec.all_named id.now name.now first many) }
{
    let mut values = Vec::new(alloc);
    for number in 0..many {
        values.push(named(alloc, id, name, first + number)?)?;
    }
    Ok(Value::Array(values))
}

/// The same as a value.
fn numbered_text(alloc: Global, word: &str, number: u32) -> Result<Value, OutOfMemory>
    ensures { IfOk result (λ value. view value ≡ spec.numbered_text word.now number) }
{
    Ok(Value::String(numbered(alloc, word, number)?))
}

/// The ids of so many things, from a number on.
fn ids(alloc: Global, word: &str, first: u32, many: u32) -> Result<Value, OutOfMemory>
    requires { first + many < 2 ^ 32 }
    ensures { IfOk result (λ value. view value ≡ spec.ids word.now first many) }
{
    let mut values = Vec::new(alloc);
    for number in 0..many {
        values.push(numbered_text(alloc, word, first + number)?)?;
    }
    Ok(Value::Array(values))
}

/// The ballot style with a number, 1 to 3.
fn style(alloc: Global, number: u32) -> Result<Value, OutOfMemory>
    requires { number ≤ 3 }
    ensures { IfOk result (λ value. view value ≡ spec.style number) }
{
    let districts = ids(alloc, "d", 1, number)?;
    let id = numbered(alloc, "s", number)?;
    let precincts = ids(alloc, "p", number, 1)?;
    json!(in alloc; {"districts": districts, "id": id, "precincts": precincts})
}

fn styles(alloc: Global) -> Result<Value, OutOfMemory>
    ensures { IfOk result (λ value. view value ≡ spec.styles) }
{
    let mut values = Vec::new(alloc);
    for number in 0..3 {
        values.push(style(alloc, 1 + number)?)?;
    }
    Ok(Value::Array(values))
}

/// The district of a contest.
fn district_of(number: u32) -> u32
    ensures { result ≡ spec.district_of number }
{
    if number <= 18 {
        1
    } else if number <= 21 {
        2
    } else {
        3
    }
}

/// The contest with a number, answered by yes or no.
fn yes_no_contest(alloc: Global, number: u32) -> Result<Value, OutOfMemory>
    ensures { IfOk result (λ value. view value ≡ spec.yes_no_contest number) }
{
    let district = numbered(alloc, "d", district_of(number))?;
    let id = numbered(alloc, "k", number)?;
    let title = numbered(alloc, "Contest ", number)?;
    json!(in alloc; {"districtId": district, "id": id, "title": title, "type": "yesno"})
}

/// The seats of a contest of candidates.
fn seats_of(number: u32) -> u32
    ensures { result ≡ spec.seats_of number }
{
    if number % 3 == 0 { 2 } else { 1 }
}

/// A contest of candidates, of its parts.
fn with_candidates(
    alloc: Global,
    write_ins: bool,
    candidates: Value,
    district: String,
    id: String,
    seats: u32,
    title: String,
) -> Result<Value, OutOfMemory>
    ensures { IfOk result (λ value. view value ≡ spec.with_candidates write_ins (view candidates)
        (string_bytes district) (string_bytes id) seats (string_bytes title)) }
{
    json!(in alloc; {
        "allowWriteIns": write_ins,
        "candidates": candidates,
        "districtId": district,
        "id": id,
        "seats": seats,
        "title": title,
        "type": "candidate"
    })
}

/// The contest of candidates with a number.
fn candidate_contest(alloc: Global, number: u32) -> Result<Value, OutOfMemory>
    ensures { IfOk result (λ value. view value ≡ spec.candidate_contest number) }
{
    let candidates = all_named(alloc, "c", "Person ", 0, 2 + number % 4)?;
    let district = numbered(alloc, "d", district_of(number))?;
    let id = numbered(alloc, "k", number)?;
    let title = numbered(alloc, "Contest ", number)?;
    let write_ins = number % 5 == 0;
    let seats = seats_of(number);
    with_candidates(alloc, write_ins, candidates, district, id, seats, title)
}

/// The contest with a number, 1 to 24.
fn contest(alloc: Global, number: u32) -> Result<Value, OutOfMemory>
    ensures { IfOk result (λ value. view value ≡ spec.contest number) }
{
    if number % 4 == 0 {
        yes_no_contest(alloc, number)
    } else {
        candidate_contest(alloc, number)
    }
}

fn contests(alloc: Global) -> Result<Value, OutOfMemory>
    ensures { IfOk result (λ value. view value ≡ spec.contests) }
{
    let mut values = Vec::new(alloc);
    for number in 0..24 {
        values.push(contest(alloc, 1 + number)?)?;
    }
    Ok(Value::Array(values))
}

/// The whole election.
fn demo_election(alloc: Global) -> Result<Value, OutOfMemory>
    ensures { IfOk result (λ value. view value ≡ spec.demo_election) }
{
    let styles = styles(alloc)?;
    let contests = contests(alloc)?;
    let districts = all_named(alloc, "d", "D", 1, 3)?;
    let precincts = all_named(alloc, "p", "P", 1, 3)?;
    json!(in alloc; {
        "ballotStyles": styles,
        "contests": contests,
        "date": "2024-11-05",
        "districts": districts,
        "precincts": precincts,
        "title": "Demo"
    })
}

/// The definition of the demo election, a line of JSON without its end.
pub(crate) fn demo_text(alloc: Global) -> Result<Bytes, OutOfMemory>
    ensures { IfOk result (λ text. text ≡ spec.demo_text) }
{
    let value = demo_election(alloc)?;
    Ok(Bytes::from_vec(value.to_vec(alloc)?))
}
