//! Texts and numbers as they stand in JSON, written straight into a text.

ghost use Rattle.std.specs.Prelude.{◌≡◌, ◌++◌, ◌^◌, ◌<◌, OnOk};
ghost use Rattle.std.specs.Char.{digit_char};
ghost use Rattle.std.specs.Fmt.{decimal};
ghost use Rattle.std.specs.List.{list_all};
ghost use Rattle.json.specs.Print.{escape as escaped, escape_byte, escape_letter};
ghost use Rattle.json.specs.Run.{is_plain as is_plain_byte};
ghost use Rattle.serde_json.specs.Written.{comma_if};
ghost use Rattle.vx_cvr.specs.Names.{hyphened};

use itoa::Buffer;
use vx_base::{Bytes, OutOfMemory};

/// Adds bytes as they are.
pub fn push_bytes(text: &mut Bytes, bytes: &[u8]) -> Result<(), OutOfMemory>
    ensures { OnOk result (text.new ≡ text.old ++ bytes.now) }
{
    text.extend_from_slice(bytes)
}

/// Adds a comma, where something stands before.
pub fn push_comma(text: &mut Bytes, is_later: bool) -> Result<(), OutOfMemory>
    ensures { OnOk result (text.new ≡ text.old ++ comma_if is_later) }
{
    if is_later { text.push(b',') } else { Ok(()) }
}

/// The letter by which a byte is written behind a backslash, or 0 where it has none.
fn letter(byte: u8) -> u8
    ensures { result ≡ escape_letter byte }
{
    match byte {
        b'"' | b'\\' => byte,
        8 => b'b',
        12 => b'f',
        b'\n' => b'n',
        b'\r' => b'r',
        b'\t' => b't',
        _ => 0,
    }
}

fn hexadecimal(digit: u8) -> u8
    requires { digit < 16 }
    ensures { result ≡ digit_char digit }
{
    if digit < 10 {
        b'0' + digit
    } else {
        b'a' - 10 + digit
    }
}

/// Adds a byte of a text as it stands in a JSON string.
#[tactic(auto, unfolding(json::specs::Print::escape_byte))]
fn push_byte(text: &mut Bytes, byte: u8) -> Result<(), OutOfMemory>
    ensures { OnOk result (text.new ≡ text.old ++ escape_byte byte) }
{
    let letter = letter(byte);
    if letter > 0 {
        return text.extend_from_slice(&[b'\\', letter]);
    }
    if byte < b' ' {
        let (high, low) = (hexadecimal(byte / 16), hexadecimal(byte % 16));
        return text.extend_from_slice(&[b'\\', b'u', b'0', b'0', high, low]);
    }
    text.push(byte)
}

/// Adds a text as it stands in a JSON string, byte by byte.
fn push_each(text: &mut Bytes, given: &[u8]) -> Result<(), OutOfMemory>
    ensures { OnOk result (text.new ≡ text.old ++ escaped given.now) }
{
    for byte in given {
        push_byte(text, *byte)?;
    }
    Ok(())
}

/// Whether all bytes of a text stand in a JSON string as they are.
fn is_plain(given: &[u8]) -> bool
    ensures { result ≡ list_all is_plain_byte given.now }
{
    given
        .iter()
        .all(|byte| *byte >= b' ' && *byte != b'"' && *byte != b'\\')
}

/// Adds a text as it stands in a JSON string, without the quotes.
pub fn push_text(text: &mut Bytes, given: &str) -> Result<(), OutOfMemory>
    ensures { OnOk result (text.new ≡ text.old ++ escaped given.now) }
{
    let given = given.as_bytes();
    if is_plain(given) {
        text.extend_from_slice(given)
    } else {
        push_each(text, given)
    }
}

/// Adds a number. Most numbers of a report have one digit.
#[tactic(auto, using(std::proofs::lemmas::Fmt::decimal_digit))]
pub fn push_number(text: &mut Bytes, number: u64) -> Result<(), OutOfMemory>
    ensures { OnOk result (text.new ≡ text.old ++ decimal number) }
{
    if number < 10 {
        return text.push(b'0' + number as u8);
    }
    let mut buffer = Buffer::new();
    text.extend_from_slice(buffer.format(number).as_bytes())
}

/// Adds a number as it stands in a JSON string.
pub fn push_digits(text: &mut Bytes, number: u64) -> Result<(), OutOfMemory>
    ensures { OnOk result (text.new ≡ text.old ++ escaped (decimal number)) }
{
    push_number(text, number)
}

/// Adds a name and a number as they stand in a JSON string, a hyphen between.
pub fn push_numbered(text: &mut Bytes, name: &str, number: u64) -> Result<(), OutOfMemory>
    ensures { OnOk result (text.new ≡ text.old ++ escaped (hyphened name.now (decimal number))) }
{
    push_text(text, name)?;
    push_bytes(text, b"-")?;
    push_digits(text, number)
}
