ghost use Rattle.std.specs.Prelude.{◌≡◌, ◌++◌, ◌∷◌, [], is_ok, if◌then◌else◌, None, Some, Ok, OnOk, IfOk};
ghost use Rattle.std.specs.Str.{bytes_eq};
ghost use Rattle.vx_base.specs.Refusals.{Gives};
ghost use Rattle.vx_readings.specs.Faults.{is_no_memory};
ghost use Rattle.vx_readings.specs.Lines as lines;
ghost use Rattle.vx_readings.specs.ReadingText.{state_word as state_word_of};
ghost use Rattle.vx_readings.specs.Readings as readings;
ghost use Rattle.vx_readings.specs.Words as reading;

use crate::fault::ReadingsFault;
use crate::lines::Lines;
use crate::said::BubbleName;
use crate::words::{Parts, named_number, number_first};
use crate::writing::state_word;
use std::alloc::Global;
use vx_base::{ListOf, OutOfMemory};
use vx_grid::{State, States};
use vx_scan_model::Scores;

/// What the line of a bubble says.
#[derive(Clone, Copy)]
pub(crate) struct SaidBubble {
    pub(crate) name: BubbleName,
    pub(crate) score: u32,
    pub(crate) state: State,
}

/// What the lines of bubbles say.
#[derive(Drop)]
pub(crate) struct SaidBubbles {
    pub(crate) names: ListOf<BubbleName>,
    pub(crate) scores: Scores,
    pub(crate) states: States,
}

impl SaidBubbles {
    fn new(alloc: Global) -> SaidBubbles
        ensures { result ≡ readings.no_bubbles }
    {
        SaidBubbles {
            names: ListOf::new(alloc),
            scores: ListOf::new(alloc),
            states: ListOf::new(alloc),
        }
    }

    /// Adds a bubble at the end.
    fn push(&mut self, bubble: SaidBubble) -> Result<(), OutOfMemory>
        ensures { OnOk result (self.new ≡ readings.and_bubble self.old bubble) }
    {
        self.names.push(bubble.name)?;
        self.scores.push(bubble.score)?;
        self.states.push(bubble.state)
    }
}

/// Whether a word is that of a state.
fn is_state(word: &[u8], state: State) -> bool
    ensures { result ≡ bytes_eq word.now (state_word_of state) }
{
    word == state_word(state).as_bytes()
}

/// The state that a word names.
#[tactic(auto, unfolding(crate::specs::Lines::state_in))]
fn state_in(word: &[u8]) -> Option<State>
    ensures { result ≡ lines.state_in word.now }
{
    if is_state(word, State::Marked) {
        return Some(State::Marked);
    }
    if is_state(word, State::Marginal) {
        return Some(State::Marginal);
    }
    if is_state(word, State::Clear) {
        return Some(State::Clear);
    }
    None
}

/// The state that the last word names, if it is the only one.
fn last_state(words: Parts<'_>) -> Option<State>
    ensures { result ≡ reading.last_as lines.state_in words.entry }
{
    let (word, rest) = words.split()?;
    if rest.split().is_some() {
        return None;
    }
    state_in(word)
}

/// What is said of the bubble with this number.
#[tactic(auto, unfolding(crate::specs::Lines::bubble_in))]
fn bubble_in(number: u32, line: &[u8]) -> Option<SaidBubble>
    ensures { result ≡ lines.bubble_in number line.now }
{
    let (j, words) = named_number(Parts::of(b' ', line), b"bubble")?;
    let (contest, words) = number_first(words)?;
    let (option, words) = number_first(words)?;
    let (score, words) = number_first(words)?;
    let state = last_state(words)?;
    if j != number {
        return None;
    }
    let name = BubbleName { contest, option };
    Some(SaidBubble { name, score, state })
}

/// What a line behind the border says: the bubble with this number, or that there are no more.
#[tactic(auto, unfolding(crate::specs::Lines::bubble_or_end))]
fn bubble_or_end(number: u32, line: &[u8]) -> Option<Option<SaidBubble>>
    ensures { result ≡ lines.bubble_or_end number line.now }
{
    if line == b"end".as_slice() {
        return Some(None);
    }
    let bubble = bubble_in(number, line)?;
    Some(Some(bubble))
}

/// What the next line says: the bubble with this number, or that there are no more.
fn next_bubble<'b>(
    number: u32,
    left: &Lines<'b>,
) -> Result<(Option<SaidBubble>, Lines<'b>), ReadingsFault>
    ensures { result ≡ readings.next_line (lines.bubble_or_end number) left.now.number left.now.lines }
{
    let at = left.number();
    let (line, behind) = left.split()?;
    match bubble_or_end(number, line) {
        Some(said) => Ok((said, behind)),
        None => Err(ReadingsFault::Line(at)),
    }
}

/// The bubbles of a block, with the lines behind its `end`.
pub(crate) fn read_bubbles<'b>(
    alloc: Global,
    left: &Lines<'b>,
) -> Result<(SaidBubbles, Lines<'b>), ReadingsFault>
    ensures { Gives is_no_memory result (readings.bubbles_in 0 left.now.number left.now.lines) }
{
    let first = left.number();
    let mut said = SaidBubbles::new(alloc);
    let mut rest = left.again();
    'bubbles: loop {
        let number = rest.number() - first;
        let (bubble, behind) = next_bubble(number, &rest)?;
        rest = behind;
        match bubble {
            None => return Ok((said, rest)),
            Some(bubble) => said.push(bubble)?,
        }
    }
}
