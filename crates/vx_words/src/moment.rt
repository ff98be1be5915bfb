//! Moments and devices among the words.

ghost use Rattle.std.specs.Prelude.{◌≡◌, ◌≢◌, ◌≤◌, None, IfOk, OnErr, is_some};
ghost use Rattle.vx_words.specs.Moments.{has_clock_form, is_clock_time, is_moment};
ghost use Rattle.vx_words.specs.Devices.{device_of};

use jiff::civil::Time;
use std::alloc::{AllocError, Global};
use uuid::Uuid;
use vx_election_model::{are_digits, is_date, number_at};
use vx_json::Text;

fn has_clock_form(text: &[u8]) -> bool
    ensures { result ≡ has_clock_form text.now }
{
    text.len() == 20
        && text[10] == b'T'
        && are_digits(text, 11)
        && text[13] == b':'
        && are_digits(text, 14)
        && text[16] == b':'
        && are_digits(text, 17)
        && text[19] == b'Z'
}

fn is_clock_time(hour: u32, minute: u32, second: u32) -> bool
    requires hour { hour ≤ 99 }
    requires minute { minute ≤ 99 }
    requires second { second ≤ 99 }
    ensures { result ≡ is_clock_time hour minute second }
{
    Time::new(hour as i8, minute as i8, second as i8, 0).is_ok()
}

/// Whether a text is a moment, `YYYY-MM-DDTHH:MM:SSZ`: a day of the calendar, and a time of it with
/// seconds 0 to 59.
#[tactic(auto, unfolding(crate::specs::Moments::is_moment))]
pub fn is_moment(text: &str) -> bool
    ensures { result ≡ is_moment text.now }
{
    let text = text.as_bytes();
    has_clock_form(text)
        && is_date(&text[..10])
        && is_clock_time(
            number_at(text, 11),
            number_at(text, 14),
            number_at(text, 17),
        )
}

/// Whether a word names a device. It takes no memory.
pub fn is_device(word: &str) -> bool
    ensures { result ≡ is_some (device_of word.now) }
{
    match Uuid::parse_str(word) {
        Err(_) => false,
        Ok(_) => true,
    }
}

/// The device that a word names, if it names one, in lower case with hyphens.
pub fn device_of(alloc: Global, word: &str) -> Result<Option<Text>, AllocError>
    ensures named { IfOk result (λ device. device ≡ device_of word.now) }
    ensures refused { OnErr result (device_of word.now ≢ None) }
{
    match Uuid::parse_str(word) {
        Err(_) => Ok(None),
        Ok(device) => {
            let mut buffer = Uuid::encode_buffer();
            let text = device.hyphenated().encode_lower(&mut buffer);
            Ok(Some(Text::from_str(alloc, text)?))
        }
    }
}
