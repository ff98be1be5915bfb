ghost use Rattle.std.specs.Prelude.{◌<◌, ◌↔◌, ◌≡◌, ◌≢◌, ◌≤◌, ◌+◌, ◌*◌, ◌^◌, ℕ, Ok, Err, Some, map, MatchResult, IfOk};
ghost use Rattle.vx_code.specs.Bits.{bits_of_number};
ghost use Rattle.vx_code.specs.Code as page_code;
ghost use Rattle.vx_code.specs.Code.{IsFirstBad, IsInRange, Shows};
ghost use Rattle.vx_code.specs.declared.code.PageCode.{PageCode};

use crate::code::{CodeFault, PageCode, version_of};
use vx_grid::{Kind, Paper};

/// The least count of dark pixels of a dark box.
const DARK_FROM: u32 = 400;

/// The greatest count of dark pixels of a blank box.
const BLANK_TO: u32 = 160;

/// The bit that the counts of a left and a right box show: the dark one is printed.
fn bit_of(left: u32, right: u32) -> Option<bool>
    ensures { result ≡ page_code.bit_of left right }
{
    if left >= DARK_FROM && right <= BLANK_TO {
        Some(false)
    } else if left <= BLANK_TO && right >= DARK_FROM {
        Some(true)
    } else {
        None
    }
}

/// The number of the 42 bits that the counts show, or the first pair that is no bit.
fn read_number(counts: &[u32; 84]) -> Result<u64, CodeFault>
    ensures { MatchResult result
        (λ number. (number < 2 ^ 42)
        × (page_code.shown_by counts.now ≡ map Some (bits_of_number 42 number)))
        (λ fault. page_code.bits_shown_by counts.now ≡ Err fault) }
{
    let mut number = 0;
    for n in 0..42 {
        let (left, right) = (counts[2 * n], counts[2 * n + 1]);
        match bit_of(left, right) {
            Some(bit) => number = number * 2 + u64::from(bit),
            None => return Err(CodeFault::BadPair(n as u32, left, right)),
        }
    }
    Ok(number)
}

/// The kind that a number of two bits is printed for.
fn kind_of_number(number: u64) -> Kind
    ensures { result ≡ page_code.kind_of_number number }
{
    match number {
        0 => Kind::Precinct,
        1 => Kind::Absentee,
        2 => Kind::Provisional,
        _ => Kind::Other,
    }
}

/// The code of a number of 42 bits.
fn code_of_number(number: u64) -> PageCode
    requires { number < 2 ^ 42 }
    ensures { result ≡ page_code.code_of_bits (bits_of_number 42 number) }
{
    let to_page = number / (1 << 20);
    let to_card = to_page / 64;
    let to_kind = to_card / 1024;
    let to_test = to_kind / 4;
    PageCode {
        version: (to_test / 2) as u32,
        test: to_test % 2 == 1,
        kind: kind_of_number(to_kind % 4),
        card: (to_card % 1024) as u32,
        page: (to_page % 64) as u32,
        tag: (number % (1 << 20)) as u32,
    }
}

/// The code that the counts of dark pixels of the 84 boxes show on a page of this paper, the left box
/// of a pair first.
///
/// A box is dark from 400 pixels on and blank up to 160. Refuses with the first pair of which not
/// exactly one box is dark and the other blank, then with a version other than the paper's.
pub fn read_boxes(counts: &[u32; 84], paper: Paper) -> Result<PageCode, CodeFault>
    ensures exact { result ≡ page_code.code_shown_by paper counts.now }
    // The first pair that is no bit comes before all else.
    ensures bad_pair { (n left right : ℕ) → (result ≡ Err (CodeFault.BadPair n left right))
        ↔ IsFirstBad counts.now n left right }
    // The boxes of a code give it back.
    ensures given_back { (code : PageCode) → IsInRange code → code.version ≡ page_code.version_of paper
        → Shows counts.now (page_code.boxes_of code) → result ≡ Ok code }
    // A code of another version is refused with that version.
    ensures other_version { (code : PageCode) → IsInRange code → code.version ≢ page_code.version_of paper
        → Shows counts.now (page_code.boxes_of code)
        → result ≡ Err (CodeFault.BadVersion code.version) }
    // What is read is in range, and the counts show its boxes.
    ensures shown { IfOk result (λ code. IsInRange code × (code.version ≡ page_code.version_of paper)
        × Shows counts.now (page_code.boxes_of code)) }
{
    let code = code_of_number(read_number(counts)?);
    if code.version != version_of(paper) {
        return Err(CodeFault::BadVersion(code.version));
    }
    Ok(code)
}
