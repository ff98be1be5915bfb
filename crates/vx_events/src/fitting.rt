ghost use Rattle.std.specs.Prelude.{◌≡◌, ◌≤◌, ◌==◌, nat_lt};
ghost use Rattle.std.specs.List.{list_all};
ghost use Rattle.vx_election_model.specs.Valid.{IsValid};
ghost use Rattle.vx_election_model.specs.Options.{options_of};
ghost use Rattle.vx_election_model.specs.Lists.{card_count};
ghost use Rattle.vx_events.specs.Fits.{fits as fits_of, is_batch, is_batch_character, is_decision, is_key, is_name, is_name_byte, is_read, is_sheet, is_station};

use crate::ascending::contests_ascend;
use crate::decision::{Decision, WriteInName};
use crate::event::Event;
use crate::key::Key;
use vx_election_model::{Contest, Election, Style};
use vx_rules::{ContestMarks, SheetMarks};

fn is_batch_character(byte: u8) -> bool
    ensures { result ≡ is_batch_character byte }
{
    matches!(byte, b'A'..=b'Z' | b'a'..=b'z' | b'0'..=b'9' | b'_' | b'-')
}

fn are_batch_characters(batch: &[u8]) -> bool
    ensures { result ≡ list_all is_batch_character batch.now }
{
    batch.iter().all(|byte| is_batch_character(*byte))
}

/// Whether a text may be a batch.
pub fn is_batch(batch: &[u8]) -> bool
    ensures { result ≡ is_batch batch.now }
{
    1 <= batch.len() && batch.len() <= 32 && are_batch_characters(batch)
}

/// Whether a key is in range.
pub fn is_key(key: &Key) -> bool
    ensures { result ≡ is_key key.now }
{
    is_batch(key.batch.as_str().as_bytes()) && 1 <= key.number && key.number <= 999_999
}

/// Whether a number is a station.
pub fn is_station(station: u32) -> bool
    ensures { result ≡ is_station station }
{
    1 <= station && station <= 9_999
}

/// Whether a contest has so many options.
fn has_options(contest: &Contest, count: usize) -> bool
    ensures { result ≡ (options_of contest.now == count) }
{
    let slots = if contest.write_ins { contest.seats } else { 0 };
    let choices = contest.choices.len();
    choices <= count && count - choices == slots as usize
}

fn is_read(election: &Election, marks: &ContestMarks) -> bool
    ensures { result ≡ is_read election.now marks.now }
{
    match election.contests.as_slice().get(marks.contest as usize) {
        None => false,
        Some(contest) => has_options(contest, marks.states.len()),
    }
}

fn are_read(election: &Election, contests: &[ContestMarks]) -> bool
    ensures { result ≡ list_all (is_read election.now) contests.now }
{
    for marks in contests {
        if !is_read(election, marks) {
            return false;
        }
    }
    true
}

/// How many cards the styles make.
fn card_count(styles: &[Style]) -> usize
    requires { card_count styles.now ≤ 1024 }
    ensures { result ≡ card_count styles.now }
{
    let mut count = 0;
    for style in styles {
        count += style.precincts.len();
    }
    count
}

fn is_sheet(election: &Election, sheet: &SheetMarks) -> bool
    requires { IsValid election.now }
    ensures { result ≡ is_sheet election.now sheet.now }
{
    let contests = sheet.contests.as_slice();
    (sheet.card as usize) < card_count(election.styles.as_slice())
        && sheet.front % 2 == 1
        && sheet.front < 64
        && contests_ascend(contests)
        && are_read(election, contests)
}

fn is_name_byte(byte: u8) -> bool
    ensures { result ≡ is_name_byte byte }
{
    byte >= 32 && byte != 127
}

fn are_name_bytes(words: &[u8]) -> bool
    ensures { result ≡ list_all is_name_byte words.now }
{
    words.iter().all(|byte| is_name_byte(*byte))
}

fn is_name(name: &WriteInName) -> bool
    ensures { result ≡ is_name name.now }
{
    match name {
        WriteInName::Words(words) => {
            let words = words.as_str().as_bytes();
            1 <= words.len() && words.len() <= 256 && are_name_bytes(words)
        }
        WriteInName::Candidate(number) => *number < 1_000,
    }
}

fn are_below_1000(options: &[u32]) -> bool
    ensures { result ≡ list_all (λ option. nat_lt option 1000) options.now }
{
    options.iter().all(|option| *option < 1_000)
}

/// Whether what is decided is in range.
pub fn is_decision(decision: &Decision) -> bool
    ensures { result ≡ is_decision decision.now }
{
    match decision {
        Decision::Selections(options) => are_below_1000(options.as_slice()),
        Decision::RuledOvervote | Decision::AcceptRead => true,
        Decision::NameWriteIn { slot, name } => *slot < 1_000 && is_name(name),
    }
}

/// Whether an event fits the election. The kept events have no part in it.
pub fn fits(election: &Election, event: &Event) -> bool
    requires { IsValid election.now }
    ensures exact { result ≡ fits_of election.now event.now }
{
    match event {
        Event::Add { key, sheet } => is_key(key) && is_sheet(election, sheet),
        Event::Claim { station, key } | Event::Release { station, key } => {
            is_station(*station) && is_key(key)
        }
        Event::Decide {
            station,
            key,
            contest,
            decision,
        } => is_station(*station) && is_key(key) && *contest < 500 && is_decision(decision),
    }
}
