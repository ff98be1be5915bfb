ghost use Rattle.std.specs.Prelude.{◌≡◌, ◌≤◌, length, ◌<◌, false, MatchResult};
ghost use Rattle.std.specs.Str.Parse.{digits_value, AllDigits};
ghost use Rattle.vx_pbm.specs.Header.{is_space, ends_comment, gap_size, digit_count, gap_at, number_at, space_at, header_at, IsHeader};

/// What a header says: the sides in pixels, and the number of its own bytes, its magic included.
#[derive(Clone, Copy)]
pub(crate) struct Header {
    pub(crate) width: u32,
    pub(crate) height: u32,
    pub(crate) size: usize,
}

/// Whether a byte is whitespace: blank, TAB, LF, VT, FF or CR.
pub(crate) fn is_space(byte: u8) -> bool
    ensures { result ≡ is_space byte }
{
    byte == b' ' || (9 <= byte && byte <= 13)
}

/// Whether a byte ends a comment: LF or CR.
fn ends_comment(byte: u8) -> bool
    ensures { result ≡ ends_comment byte }
{
    byte == b'\n' || byte == b'\r'
}

/// The number of bytes of the whitespace and the comments that a text begins with.
fn gap_size(text: &[u8]) -> usize
    ensures size { result ≡ gap_size false text.now }
    ensures within { result ≤ length text.now }
{
    let mut in_comment = false;
    for (i, byte) in text.iter().enumerate() {
        if in_comment {
            in_comment = !ends_comment(*byte);
        } else if *byte == b'#' {
            in_comment = true;
        } else if !is_space(*byte) {
            return i;
        }
    }
    text.len()
}

/// The number of decimal digits that a text begins with.
fn digit_count(text: &[u8]) -> usize
    ensures count { result ≡ digit_count text.now }
    ensures within { result ≤ length text.now }
{
    for (i, byte) in text.iter().enumerate() {
        if !byte.is_ascii_digit() {
            return i;
        }
    }
    text.len()
}

/// The number that up to nine digits spell.
fn number_of(digits: &[u8]) -> u32
    requires digits { AllDigits 10 digits.now }
    requires few { length digits.now ≤ 9 }
    ensures { result ≡ digits_value 10 digits.now }
{
    let mut number = 0;
    for digit in digits {
        number = number * 10 + u32::from(*digit - b'0');
    }
    number
}

/// The offset behind the gap at an offset, whitespace and comments of one byte or more; `Err` has the
/// offset, where no gap begins. Netpbm's other formats have such gaps, numbers and spaces too.
#[tactic(auto, unfolding(crate::specs::Header::gap_at))]
pub fn gap_at(text: &[u8], at: usize) -> Result<usize, usize>
    requires { at ≤ length text.now }
    ensures exact { result ≡ gap_at text.now at }
    ensures within { MatchResult result
        (λ behind. behind ≤ length text.now) (λ offset. offset ≤ length text.now) }
{
    let size = gap_size(&text[at..]);
    if size == 0 {
        return Err(at);
    }
    Ok(at + size)
}

/// The number at an offset, above 0 and of one to nine digits, and the offset behind it; `Err` has
/// the offset, where there is no such number.
#[tactic(auto, unfolding(crate::specs::Header::number_at))]
pub fn number_at(text: &[u8], at: usize) -> Result<(u32, usize), usize>
    requires { at ≤ length text.now }
    ensures exact { result ≡ number_at text.now at }
    ensures within { MatchResult result (λ found. (found.1 ≤ length text.now) × (0 < found.0))
        (λ offset. offset ≤ length text.now) }
{
    let rest = &text[at..];
    let count = digit_count(rest);
    if count == 0 || count > 9 {
        return Err(at);
    }
    let number = number_of(&rest[..count]);
    if number == 0 {
        return Err(at);
    }
    Ok((number, at + count))
}

/// The offset behind the whitespace byte at an offset; `Err` has the offset, where there is none.
#[tactic(auto, unfolding(crate::specs::Header::space_at))]
pub fn space_at(text: &[u8], at: usize) -> Result<usize, usize>
    requires { at ≤ length text.now }
    ensures exact { result ≡ space_at text.now at }
    ensures within { MatchResult result
        (λ behind. behind ≤ length text.now) (λ offset. offset ≤ length text.now) }
{
    if at < text.len() && is_space(text[at]) {
        return Ok(at + 1);
    }
    Err(at)
}

/// The header of a text that begins with a magic of two bytes, or the first offset that no header has.
#[tactic(auto, unfolding(crate::specs::Header::header_at))]
pub(crate) fn header_at(text: &[u8]) -> Result<Header, usize>
    requires { 2 ≤ length text.now }
    ensures exact { result ≡ header_at text.now }
    ensures within { MatchResult result (λ header. IsHeader text.now header) (λ offset. offset ≤ length text.now) }
{
    let at = gap_at(text, 2)?;
    let (width, at) = number_at(text, at)?;
    let at = gap_at(text, at)?;
    let (height, at) = number_at(text, at)?;
    let size = space_at(text, at)?;
    Ok(Header {
        width,
        height,
        size,
    })
}
