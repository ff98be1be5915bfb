ghost use Rattle.std.specs.Prelude.{◌≡◌, ◌≤◌, length, MatchResult};
ghost use Rattle.vx_gray.specs.Header.{header_at, IsHeader};

use vx_pbm::{gap_at, number_at, space_at};

/// What a header says: the sides in pixels, the greatest value, and the number of its own bytes, its
/// magic included.
#[derive(Clone, Copy)]
pub(crate) struct Header {
    pub(crate) width: u32,
    pub(crate) height: u32,
    pub(crate) maxval: u32,
    pub(crate) size: usize,
}

/// The header of a text that begins with a magic of two bytes, or the first offset that no header has.
#[tactic(auto, unfolding(crate::specs::Header::header_at))]
pub(crate) fn header_at(text: &[u8]) -> Result<Header, usize>
    requires { 2 ≤ length text.now }
    ensures exact { result ≡ header_at text.now }
    ensures within { MatchResult result (λ header. IsHeader text.now header) (λ offset. offset ≤ length text.now) }
{
    let at = gap_at(text, 2)?;
    let (width, at) = number_at(text, at)?;
    let at = gap_at(text, at)?;
    let (height, at) = number_at(text, at)?;
    let at = gap_at(text, at)?;
    let (maxval, at) = number_at(text, at)?;
    let size = space_at(text, at)?;
    Ok(Header {
        width,
        height,
        maxval,
        size,
    })
}
