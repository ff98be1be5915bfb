ghost use Rattle.std.specs.Prelude.{◌≡◌, [], IfOk, MatchResult, Ok};
ghost use Rattle.hex.specs.Hex.{decode_of};
ghost use Rattle.vx_base.specs.Refusals.{Gives};
ghost use Rattle.vx_records.specs.Faults.{decoded, digested, is_no_memory};
ghost use Rattle.vx_records.specs.Parts.{found};
ghost use Rattle.vx_records.specs.Reading.{act_in, bytes_of, event_in, digest_in, header_in, header_word as header_word_of, record_in};
ghost use Rattle.vx_records.specs.Stops.{Stops};

use crate::acts::{Act, first_word};
use crate::decisions::decide;
use crate::keys::claim;
use crate::letters::{Letters, letters_at};
use crate::parts::{Stop, end, word};
use crate::sheets::add;
use std::alloc::Global;
use vx_base::Bytes;
use vx_events::Event;

/// Why bytes give no event.
#[derive(Clone, Copy, Debug, PartialEq, Eq)]
pub enum JournalFault {
    /// The record of this index is none; so many of its bytes begin one.
    BadRecord(u64, u32),
    OutOfMemory,
}

/// The event that stands behind a record's first word.
fn event_behind(alloc: Global, act: Act, text: &[u8]) -> Result<Event, Stop>
    ensures { MatchResult result
        (λ x. act_in act text.now ≡ found x []) (λ stop. Stops stop (act_in act text.now)) }
{
    match act {
        Act::AddSheet => add(alloc, text),
        Act::ClaimSheet => {
            let (station, key) = claim(alloc, text)?;
            Ok(Event::Claim { station, key })
        }
        Act::ReleaseSheet => {
            let (station, key) = claim(alloc, text)?;
            Ok(Event::Release { station, key })
        }
        Act::DecideContest(ruling) => decide(alloc, ruling, text),
    }
}

/// The event of a record.
#[tactic(auto, unfolding(crate::specs::Reading::record_in))]
fn record_event(alloc: Global, body: &[u8]) -> Result<Event, Stop>
    ensures { MatchResult result
        (λ x. record_in body.now ≡ found x []) (λ stop. Stops stop (record_in body.now)) }
{
    let (act, text) = first_word(body)?;
    event_behind(alloc, act, text)
}

/// The event of a record that isn't the journal's first; `index` is the record's place from 0.
#[tactic(auto, unfolding(crate::specs::Reading::event_in))]
pub fn decode(alloc: Global, body: &[u8], index: u64) -> Result<Event, JournalFault>
    ensures exact { Gives is_no_memory result (decoded index body.now) }
{
    match record_event(alloc, body) {
        Ok(event) => Ok(event),
        Err(Stop::Left(left)) => {
            let at = body.len().saturating_sub(left);
            Err(JournalFault::BadRecord(index, at as u32))
        }
        Err(Stop::NoMemory) => Err(JournalFault::OutOfMemory),
    }
}

/// How a header begins.
#[tactic(auto, unfolding(crate::specs::Reading::header_word))]
fn header_word() -> &'static [u8]
    ensures { result.now ≡ header_word_of }
{
    b"1 election "
}

/// The 64 hex digits of a header.
#[tactic(auto, unfolding(crate::specs::Reading::header_in))]
fn header_hex(body: &[u8]) -> Result<&[u8], Stop>
    ensures exact { MatchResult result
        (λ hex. header_in body.now ≡ found (bytes_of hex.now) []) (λ stop. Stops stop (header_in body.now)) }
    ensures digits { IfOk result (λ hex. decode_of hex.now ≡ Ok (bytes_of hex.now)) }
{
    let rest = word(body, header_word())?;
    let (hex, rest) = letters_at(rest, Letters::Hex, 64, 64)?;
    end(rest)?;
    Ok(hex)
}

/// What hex digits say.
fn digest_of(alloc: Global, hex: &[u8]) -> Result<Bytes, JournalFault>
    requires { decode_of hex.now ≡ Ok (bytes_of hex.now) }
    ensures { Gives is_no_memory result (Ok (bytes_of hex.now)) }
{
    match hex::decode(alloc, hex) {
        Ok(bytes) => Ok(Bytes::from_vec(bytes)),
        Err(_) => Err(JournalFault::OutOfMemory),
    }
}

/// The digest that a journal's first record names, 32 bytes; its place is 0.
#[tactic(auto, unfolding(crate::specs::Reading::digest_in))]
pub fn header_digest(alloc: Global, body: &[u8]) -> Result<Bytes, JournalFault>
    ensures exact { Gives is_no_memory result (digested body.now) }
{
    match header_hex(body) {
        Ok(hex) => digest_of(alloc, hex),
        Err(Stop::Left(left)) => {
            let at = body.len().saturating_sub(left);
            Err(JournalFault::BadRecord(0, at as u32))
        }
        Err(Stop::NoMemory) => Err(JournalFault::OutOfMemory),
    }
}
