ghost use Rattle.std.specs.Prelude.{◌≡◌, [], ◌≤◌, MatchResult};
ghost use Rattle.std.specs.Str.{continuation_len as continuation_len_of};
ghost use Rattle.std.specs.Str.Lossy.{second_byte_min, second_byte_max};
ghost use Rattle.vx_json.specs.Reading.{is_within};
ghost use Rattle.vx_records.specs.Characters.{character_in, followers_in, is_lead as is_lead_of, next_place, words_in};
ghost use Rattle.vx_records.specs.Parts.{done, each_in, found, passed};
ghost use Rattle.vx_records.specs.Stops.{Stops};

use crate::keys::text_of;
use crate::parts::{Stop, end, split};
use std::alloc::Global;
use vx_json::Text;

/// Whether a character begins with this byte that is no control character.
fn is_lead(byte: u8) -> bool
    ensures { result ≡ is_lead_of byte }
{
    matches!(byte, 32..=126 | 0xc2..=0xf4)
}

/// How many bytes stand behind the first one of a character.
fn continuation_len(byte: u8) -> usize
    ensures { result ≡ continuation_len_of byte }
{
    if byte < 128 {
        0
    } else if byte < 224 {
        1
    } else if byte < 240 {
        2
    } else {
        3
    }
}

/// The least and the greatest byte that may stand behind a character's first one.
fn second_byte(byte: u8) -> (u8, u8)
    ensures least { result.0 ≡ second_byte_min byte }
    ensures greatest { result.1 ≡ second_byte_max byte }
{
    match byte {
        0xe0 => (0xa0, 0xbf),
        0xed => (0x80, 0x9f),
        0xf0 => (0x90, 0xbf),
        0xf4 => (0x80, 0x8f),
        _ => (0x80, 0xbf),
    }
}

fn is_between(low: u8, high: u8, byte: u8) -> bool
    ensures { result ≡ is_within low high byte }
{
    low <= byte && byte <= high
}

/// So many further bytes of a character, the first of them within a range.
fn followers(text: &[u8], count: usize, range: (u8, u8)) -> Result<&[u8], Stop>
    ensures { MatchResult result
        (λ rest. followers_in count range.0 range.1 text.now ≡ found done rest.now)
        (λ stop. Stops stop (followers_in count range.0 range.1 text.now)) }
{
    let mut rest = text;
    let (mut low, mut high) = range;
    for _done in 0..count {
        match split(rest) {
            None => return Err(Stop::Left(0)),
            Some((byte, further)) => {
                if !is_between(low, high, byte) {
                    return Err(Stop::Left(rest.len()));
                }
                rest = further;
                low = 0x80;
                high = 0xbf;
            }
        }
    }
    Ok(rest)
}

/// A character of at most `room` bytes.
#[tactic(auto, unfolding(crate::specs::Characters::character_in))]
fn character(text: &[u8], room: usize) -> Result<&[u8], Stop>
    ensures { MatchResult result
        (λ rest. character_in room text.now ≡ found done rest.now) (λ stop. Stops stop (character_in room text.now)) }
{
    match split(text) {
        None => Err(Stop::Left(0)),
        Some((lead, rest)) => {
            let count = continuation_len(lead);
            if !is_lead(lead) || room <= count {
                return Err(Stop::Left(text.len()));
            }
            followers(rest, count, second_byte(lead))
        }
    }
}

/// Characters in at most `room` bytes, to the end of the text.
fn characters(text: &[u8], room: usize) -> Result<(), Stop>
    ensures { MatchResult result
        (λ _. passed (each_in character_in next_place 256 room text.now) ≡ found done [])
        (λ stop. Stops stop (passed (each_in character_in next_place 256 room text.now))) }
{
    let mut rest = text;
    let mut room = room;
    for _seen in 0..256u32 {
        if rest.is_empty() {
            return Ok(());
        }
        let further = character(rest, room)?;
        room = room.saturating_sub(rest.len().saturating_sub(further.len()));
        rest = further;
    }
    end(rest)
}

/// One or more characters in at most 256 bytes, to the end of the text.
#[tactic(auto, unfolding(crate::specs::Characters::words_in))]
pub(crate) fn words(alloc: Global, text: &[u8]) -> Result<Text, Stop>
    ensures { MatchResult result
        (λ x. words_in text.now ≡ found x []) (λ stop. Stops stop (words_in text.now)) }
{
    let rest = character(text, 256)?;
    let spent = text.len().saturating_sub(rest.len());
    characters(rest, 256usize.saturating_sub(spent))?;
    Ok(text_of(alloc, text)?)
}
