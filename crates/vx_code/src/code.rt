ghost use Rattle.std.specs.Prelude.{◌<◌, ◌≡◌, ◌^◌};
ghost use Rattle.vx_code.specs.Code as page_code;
ghost use Rattle.vx_code.specs.Code.{IsInRange};

use vx_grid::{Kind, Paper};

/// What a page says of itself in its code boxes.
#[derive(Clone, Copy, Debug, PartialEq, Eq)]
pub struct PageCode {
    /// That of the paper: 1 on letter paper, 2 on legal. Below 8.
    pub version: u32,
    /// Whether it is a test ballot.
    pub test: bool,
    pub kind: Kind,
    /// The card's number, below 1024.
    pub card: u32,
    /// The page's number on its card, from 1, below 64.
    pub page: u32,
    /// The election's tag, below 2^20.
    pub tag: u32,
}

/// Why boxes are no code.
#[derive(Clone, Copy, Debug, PartialEq, Eq)]
pub enum CodeFault {
    /// The first pair that is no bit, 0 to 41, with the counts of its left and its right box.
    BadPair(u32, u32, u32),
    /// A version other than that of the paper.
    BadVersion(u32),
}

/// The version of the page code on each paper, so that no page of one is read as a page of the other.
pub fn version_of(paper: Paper) -> u32
    ensures exact { result ≡ page_code.version_of paper }
    ensures in_range { result < 8 }
{
    match paper {
        Paper::Letter => 1,
        Paper::Legal => 2,
    }
}

/// The first 20 bits of a SHA-256 digest.
pub fn tag_of(digest: &[u8; 32]) -> u32
    ensures exact { result ≡ page_code.tag_of digest.now }
    ensures in_range { result < 2 ^ 20 }
{
    let (first, second, third) = (digest[0], digest[1], digest[2]);
    u32::from(first) * 4096 + u32::from(second) * 16 + u32::from(third) / 16
}

/// The number that is printed for a kind.
fn number_of_kind(kind: Kind) -> u64
    ensures { result ≡ page_code.number_of_kind kind }
{
    match kind {
        Kind::Precinct => 0,
        Kind::Absentee => 1,
        Kind::Provisional => 2,
        Kind::Other => 3,
    }
}

/// The code's 42 bits as a number, the version's bits the most significant.
pub fn number_of(code: &PageCode) -> u64
    requires { IsInRange code.now }
    ensures exact { result ≡ page_code.number_of code.now }
    ensures in_range { result < 2 ^ 42 }
{
    let version = u64::from(code.version);
    let flagged = version * 2 + u64::from(code.test);
    let kinded = flagged * 4 + number_of_kind(code.kind);
    let carded = kinded * 1024 + u64::from(code.card);
    let paged = carded * 64 + u64::from(code.page);
    paged * (1 << 20) + u64::from(code.tag)
}
