ghost use Rattle.std.specs.Prelude.{◌≡◌, [], ◌++◌, ◌∷◌, IfOk, MatchResult};
ghost use Rattle.std.specs.Str.{IsUtf8};
ghost use Rattle.vx_records.specs.Parts.{ended, followed_by, found};
ghost use Rattle.vx_records.specs.Reading.{batch_in, claim_in, key_in, station_in};
ghost use Rattle.vx_records.specs.Stops.{Stops};

use crate::letters::{Letters, letters_at};
use crate::numbers::{Numbers, number, number_before};
use crate::parts::{Stop, byte, end};
use std::alloc::Global;
use vx_base::OutOfMemory;
use vx_events::Key;
use vx_json::Text;

/// A copy of a text that is known to be UTF-8.
pub(crate) fn text_of(alloc: Global, bytes: &[u8]) -> Result<Text, OutOfMemory>
    requires { IsUtf8 bytes.now }
    ensures { IfOk result (λ text. text ≡ bytes.now) }
{
    match str::from_utf8(bytes) {
        Ok(text) => Text::from_str(alloc, text),
        Err(_) => unreachable!(),
    }
}

/// A station, with a blank behind it.
#[tactic(auto, unfolding(crate::specs::Reading::station_in))]
pub(crate) fn station(text: &[u8]) -> Result<(u32, &[u8]), Stop>
    ensures { MatchResult result
        (λ x. station_in text.now ≡ found x.0 x.1.now) (λ stop. Stops stop (station_in text.now)) }
{
    number_before(text, Numbers::Between(1, 9_999), b' ')
}

/// The name of a batch, with a blank behind it.
#[tactic(auto, unfolding(crate::specs::Reading::batch_in))]
fn batch(alloc: Global, text: &[u8]) -> Result<(Text, &[u8]), Stop>
    ensures { MatchResult result
        (λ x. batch_in text.now ≡ found x.0 x.1.now) (λ stop. Stops stop (batch_in text.now)) }
{
    let (name, rest) = letters_at(text, Letters::Batch, 1, 32)?;
    let rest = byte(rest, b' ')?;
    Ok((text_of(alloc, name)?, rest))
}

/// A key.
#[tactic(auto, unfolding(crate::specs::Reading::key_in))]
pub(crate) fn key(alloc: Global, text: &[u8]) -> Result<(Key, &[u8]), Stop>
    ensures { MatchResult result
        (λ x. key_in text.now ≡ found x.0 x.1.now) (λ stop. Stops stop (key_in text.now)) }
{
    let (batch, rest) = batch(alloc, text)?;
    let (number, rest) = number(rest, Numbers::Between(1, 999_999))?;
    Ok((Key { batch, number }, rest))
}

/// A key with a blank behind it.
pub(crate) fn key_before(alloc: Global, text: &[u8]) -> Result<(Key, &[u8]), Stop>
    ensures { MatchResult result
        (λ x. followed_by 32 (key_in text.now) ≡ found x.0 x.1.now)
        (λ stop. Stops stop (followed_by 32 (key_in text.now))) }
{
    let (key, rest) = key(alloc, text)?;
    let rest = byte(rest, b' ')?;
    Ok((key, rest))
}

/// A key with nothing behind it.
fn last_key(alloc: Global, text: &[u8]) -> Result<Key, Stop>
    ensures { MatchResult result
        (λ key. ended (key_in text.now) ≡ found key []) (λ stop. Stops stop (ended (key_in text.now))) }
{
    let (key, rest) = key(alloc, text)?;
    end(rest)?;
    Ok(key)
}

/// A station and a key, and nothing more.
#[tactic(auto, unfolding(crate::specs::Reading::claim_in))]
pub(crate) fn claim(alloc: Global, text: &[u8]) -> Result<(u32, Key), Stop>
    ensures { MatchResult result
        (λ x. claim_in text.now ≡ found x [])
        (λ stop. Stops stop (claim_in text.now)) }
{
    let (station, rest) = station(text)?;
    let key = last_key(alloc, rest)?;
    Ok((station, key))
}
