//! The lines of what hands read.

ghost use Rattle.std.specs.Prelude.{◌≡◌, ◌<◌, ◌≤◌, ◌∷◌, ◌==◌, ◌+◌, All, IfSome, OnOk, length};
ghost use Rattle.std.specs.List.{position_from};
ghost use Rattle.vx_base.specs.Refusals.{Gives, GivesAs};
ghost use Rattle.vx_audit.specs.Finding.{FindsContests, ballot_in};
ghost use Rattle.vx_audit.specs.Hand.{hand_by, hand_of, is_no_memory, lines_of, with_line};
ghost use Rattle.vx_audit.specs.Sized.{HasFew, IsSized};

use crate::finding::{Directory, directory_of};
use crate::hand::{Hand, HandFault};
use crate::laws::hands_are_read_alike;
use crate::naming::line_said;
use std::alloc::Global;
use vx_tally::{Report, ReportContest};

/// The place of the first line feed.
fn line_feed(text: &[u8]) -> Option<usize>
    ensures place { result ≡ position_from (λ b. b == 10) 0 text.now }
    ensures within { IfSome result (λ at. at < length text.now) }
{
    for (at, byte) in text.iter().enumerate() {
        if *byte == b'\n' {
            return Some(at);
        }
    }
    None
}

/// The first line, and what lies behind its line feed, if there is one.
fn first_line(text: &[u8]) -> (&[u8], &[u8])
    requires { 0 < length text.now }
    ensures lines { lines_of text.now ≡ result.0.now ∷ lines_of result.1.now }
    ensures shorter { length result.1.now < length text.now }
{
    match line_feed(text) {
        None => (text, &text[text.len()..]),
        Some(at) => (&text[..at], &text[at + 1..]),
    }
}

/// Reads a line and puts it behind the others.
fn take_line(
    alloc: Global,
    contests: &[ReportContest],
    directory: &Directory,
    hand: &mut Hand,
    line: &[u8],
) -> Result<(), HandFault>
    requires sized { All HasFew contests.now }
    requires finds { FindsContests contests.now directory.now }
    requires few { length hand.old < 67108864 }
    ensures exact { GivesAs (λ _. hand.new) is_no_memory result
        (with_line contests.now (ballot_in directory.now) hand.old line.now) }
    ensures count { OnOk result (length hand.new ≡ length hand.old + 1) }
{
    let number = hand.len() as u32 + 1;
    let Some(said) = line_said(alloc, contests, directory, line)? else {
        return Err(HandFault::BadLine(number));
    };
    if hand.has(said.ballot, said.contest) {
        return Err(HandFault::BadLine(number));
    }
    hand.push(said)?;
    Ok(())
}

/// What hands read, or the first line that isn't one of the form `hand UNIQUE CONTEST SEL SEL`, names a ballot or
/// a contest that the directory doesn't find or a selection that the contest hasn't, or repeats a contest of a
/// ballot. Lines end with a line feed, which the last may lack.
#[tactic(auto, unfolding(crate::specs::Hand::hand_by))]
pub fn read_hand_by(
    alloc: Global,
    contests: &[ReportContest],
    directory: &Directory,
    bytes: &[u8],
) -> Result<Hand, HandFault>
    requires sized { All HasFew contests.now }
    requires finds { FindsContests contests.now directory.now }
    requires few { length bytes.now ≤ 67108864 }
    ensures { Gives is_no_memory result (hand_by contests.now (ballot_in directory.now) bytes.now) }
{
    let mut hand = Hand::new(alloc);
    let mut text = bytes;
    'lines: while !text.is_empty() {
        let (line, behind) = first_line(text);
        take_line(alloc, contests, directory, &mut hand, line)?;
        text = behind;
    }
    Ok(hand)
}

/// The same of the ballots and the contests of a report.
pub fn read_hand(alloc: Global, report: &Report, bytes: &[u8]) -> Result<Hand, HandFault>
    requires sized { IsSized report.now }
    requires few { length bytes.now ≤ 67108864 }
    ensures { Gives is_no_memory result (hand_of report.now bytes.now) }
{
    hands_are_read_alike();
    let directory = directory_of(alloc, report)?;
    read_hand_by(alloc, report.contests.as_slice(), &directory, bytes)
}
