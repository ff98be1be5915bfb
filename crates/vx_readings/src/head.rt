ghost use Rattle.std.specs.Prelude.{◌≡◌};
ghost use Rattle.std.specs.Str.{bytes_eq};
ghost use Rattle.vx_grid.specs.Kinds.{kind_word as kind_word_of};
ghost use Rattle.vx_readings.specs.Lines as lines;
ghost use Rattle.vx_readings.specs.Words as reading;

use crate::words::{Parts, behind, named_number, number_first};
use vx_code::{PageCode, version_of};
use vx_grid::{Kind, Paper, kind_word};

/// What the first line of a block says.
#[derive(Drop)]
pub(crate) struct Head {
    pub(crate) code: PageCode,
    pub(crate) turned: bool,
}

/// What the first line of a page says.
#[derive(Drop)]
pub(crate) enum FirstLine {
    /// That the page couldn't be read.
    Fault,
    /// The first line of its block.
    Block(Head),
}

/// Whether a word is that of a kind.
fn is_kind(word: &[u8], kind: Kind, test: bool) -> bool
    ensures { result ≡ bytes_eq word.now (kind_word_of kind test) }
{
    word == kind_word(kind, test).as_bytes()
}

/// The kind that a word names.
#[tactic(auto, unfolding(crate::specs::Lines::kind_in))]
fn kind_in(word: &[u8]) -> Option<(Kind, bool)>
    ensures { result ≡ lines.kind_in word.now }
{
    if is_kind(word, Kind::Precinct, false) {
        return Some((Kind::Precinct, false));
    }
    if is_kind(word, Kind::Absentee, false) {
        return Some((Kind::Absentee, false));
    }
    if is_kind(word, Kind::Provisional, false) {
        return Some((Kind::Provisional, false));
    }
    if is_kind(word, Kind::Other, false) {
        return Some((Kind::Other, false));
    }
    if is_kind(word, Kind::Precinct, true) {
        return Some((Kind::Precinct, true));
    }
    if is_kind(word, Kind::Absentee, true) {
        return Some((Kind::Absentee, true));
    }
    if is_kind(word, Kind::Provisional, true) {
        return Some((Kind::Provisional, true));
    }
    if is_kind(word, Kind::Other, true) {
        return Some((Kind::Other, true));
    }
    None
}

/// A kind and the words behind it.
fn kind_first<'a>(words: Parts<'a>) -> Option<((Kind, bool), Parts<'a>)>
    ensures { result ≡ reading.first_as lines.kind_in words.entry }
{
    let (word, rest) = words.split()?;
    let kind = kind_in(word)?;
    Some((kind, rest))
}

/// Whether a page was turned, by the words that are left.
fn turned_in(words: Parts<'_>) -> Option<bool>
    ensures { result ≡ lines.turned_in words.entry }
{
    match words.split() {
        None => Some(false),
        Some((word, rest)) => {
            if rest.split().is_some() {
                return None;
            }
            if word == b"turned".as_slice() {
                Some(true)
            } else {
                None
            }
        }
    }
}

/// Whether at least a byte is left.
fn goes_on(words: Parts<'_>) -> bool
    ensures { result ≡ lines.goes_on words.entry }
{
    match words.split() {
        None => false,
        Some((word, rest)) => !word.is_empty() || rest.split().is_some(),
    }
}

/// What a block's first line says, by its words behind `card`.
#[tactic(auto, unfolding(crate::specs::Lines::head_in))]
fn head_in(paper: Paper, tag: u32, words: Parts<'_>) -> Option<Head>
    ensures { result ≡ lines.head_in paper tag words.entry }
{
    let (card, words) = number_first(words)?;
    let (page, words) = named_number(words, b"side")?;
    let words = behind(words, b"kind")?;
    let ((kind, test), words) = kind_first(words)?;
    let turned = turned_in(words)?;
    let code = PageCode {
        version: version_of(paper),
        test,
        kind,
        card,
        page,
        tag,
    };
    Some(Head { code, turned })
}

/// What is said of a page, by the words behind its number.
#[tactic(auto, unfolding(crate::specs::Lines::first_behind))]
fn first_behind(paper: Paper, tag: u32, words: Parts<'_>) -> Option<FirstLine>
    ensures { result ≡ lines.first_behind paper tag words.entry }
{
    let (word, rest) = words.split()?;
    if word == b"fault".as_slice() {
        return if goes_on(rest) {
            Some(FirstLine::Fault)
        } else {
            None
        };
    }
    if word == b"card".as_slice() {
        let head = head_in(paper, tag, rest)?;
        return Some(FirstLine::Block(head));
    }
    None
}

/// What the first line of a page says, which has to be that of the page with this number.
#[tactic(auto, unfolding(crate::specs::Lines::first_in))]
pub(crate) fn first_in(paper: Paper, tag: u32, number: u32, line: &[u8]) -> Option<FirstLine>
    ensures { result ≡ lines.first_in paper tag number line.now }
{
    let (page, words) = named_number(Parts::of(b' ', line), b"page")?;
    if page == number {
        first_behind(paper, tag, words)
    } else {
        None
    }
}
