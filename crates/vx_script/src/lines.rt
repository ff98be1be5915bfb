ghost use Rattle.std.specs.Prelude.{◌≡◌, ◌∷◌, ◌<◌, ◌==◌, [], IfSome, MatchOption, length};
ghost use Rattle.std.specs.List.{position_from};
ghost use Rattle.vx_script.specs.Script.{lines_of};

/// The most bytes that a script may have.
pub const SCRIPT_LIMIT: u64 = 1_048_576;

/// The place of the first line feed.
fn line_feed(text: &[u8]) -> Option<usize>
    ensures place { result ≡ position_from (λ b. b == 10) 0 text.now }
    ensures within { IfSome result (λ at. at < length text.now) }
{
    for (at, byte) in text.iter().enumerate() {
        if *byte == b'\n' {
            return Some(at);
        }
    }
    None
}

/// A line up to its line feed, and what lies behind that; all of it where there is none.
pub fn first_line(text: &[u8]) -> (&[u8], Option<&[u8]>)
    ensures lines { MatchOption result.1 (lines_of text.now ≡ result.0.now ∷ [])
        (λ behind. lines_of text.now ≡ result.0.now ∷ lines_of behind.now) }
    ensures shorter { MatchOption result.1 (result.0.now ≡ text.now) (λ behind. length behind.now < length text.now) }
{
    match line_feed(text) {
        None => (text, None),
        Some(at) => (&text[..at], Some(&text[at + 1..])),
    }
}
