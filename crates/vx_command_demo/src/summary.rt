//! The summary as a text.

ghost use Rattle.std.specs.Prelude.{◌≡◌, ◌++◌, IfOk, OnOk, string_bytes};
ghost use Rattle.vx_command_demo.specs.Summary as spec;

use crate::counted::Counted;
use crate::sums::{PageSums, ReasonSums};
use std::alloc::Global;
use vx_base::{Bytes, OutOfMemory};

fn push_head(text: &mut String, seed: u64, sheets: u32) -> Result<(), OutOfMemory>
    ensures { OnOk result (string_bytes text.new ≡ string_bytes text.old ++ spec.head_line seed sheets) }
{
    write!(text, "demo seed {seed} sheets {sheets}\n")
}

fn push_pages(text: &mut String, sums: &PageSums) -> Result<(), OutOfMemory>
    ensures { OnOk result (string_bytes text.new ≡ string_bytes text.old
        ++ spec.pages_line sums.now.pages sums.now.as_truth sums.now.certified) }
{
    let (pages, as_truth, certified) = (sums.pages, sums.as_truth, sums.certified);
    write!(
        text,
        "pages {pages} as truth {as_truth} certified {certified}\n"
    )
}

fn push_marks(text: &mut String, marks: u64) -> Result<(), OutOfMemory>
    ensures { OnOk result (string_bytes text.new ≡ string_bytes text.old ++ spec.marks_line marks) }
{
    write!(text, "marks {marks}\n")
}

#[tactic(auto, unfolding(crate::specs::Summary::overvotes_part))]
fn push_overvotes(text: &mut String, overvote: u64) -> Result<(), OutOfMemory>
    ensures { OnOk result (string_bytes text.new ≡ string_bytes text.old ++ spec.overvotes_part overvote) }
{
    write!(text, "reasons overvote {overvote}")
}

#[tactic(auto, unfolding(crate::specs::Summary::undervotes_part))]
fn push_undervotes(text: &mut String, undervote: u64) -> Result<(), OutOfMemory>
    ensures { OnOk result (string_bytes text.new ≡ string_bytes text.old ++ spec.undervotes_part undervote) }
{
    write!(text, " undervote {undervote}")
}

#[tactic(auto, unfolding(crate::specs::Summary::others_part))]
fn push_others(
    text: &mut String,
    marginal: u64,
    blank: u64,
    write_in: u64,
) -> Result<(), OutOfMemory>
    ensures { OnOk result (string_bytes text.new ≡ string_bytes text.old
        ++ spec.others_part marginal blank write_in) }
{
    write!(
        text,
        " marginal {marginal} blank {blank} write-in {write_in}\n"
    )
}

fn push_reasons(text: &mut String, reasons: &ReasonSums) -> Result<(), OutOfMemory>
    ensures { OnOk result (string_bytes text.new ≡ string_bytes text.old ++ spec.reasons_line reasons.now) }
{
    push_overvotes(text, reasons.overvote)?;
    push_undervotes(text, reasons.undervote)?;
    push_others(text, reasons.marginal, reasons.blank, reasons.write_in)
}

fn push_hollow(text: &mut String, hollow: u64) -> Result<(), OutOfMemory>
    ensures { OnOk result (string_bytes text.new ≡ string_bytes text.old ++ spec.hollow_line hollow) }
{
    write!(text, "hollow {hollow}\n")
}

fn push_places(text: &mut String, sums: &PageSums) -> Result<(), OutOfMemory>
    ensures { OnOk result (string_bytes text.new ≡ string_bytes text.old ++ spec.places_line sums.now) }
{
    let (columns, rows, scores) = (sums.columns, sums.rows, sums.scores);
    write!(text, "places {columns} {rows} scores {scores}\n")
}

/// Adds what stands behind the line of pages.
fn push_rest(text: &mut String, counted: &Counted, hollow: u64) -> Result<(), OutOfMemory>
    ensures { OnOk result (string_bytes text.new ≡ string_bytes text.old
        ++ spec.other_lines counted.now.pages counted.now.reasons hollow) }
{
    push_marks(text, counted.pages.marks)?;
    push_reasons(text, &counted.reasons)?;
    push_hollow(text, hollow)?;
    push_places(text, &counted.pages)
}

/// The summary of what was counted.
#[tactic(auto, unfolding(crate::specs::Summary::summary_text))]
pub(crate) fn summary_text(
    alloc: Global,
    seed: u64,
    sheets: u32,
    counted: &Counted,
    hollow: u64,
) -> Result<Bytes, OutOfMemory>
    ensures { IfOk result (λ text. text
        ≡ spec.summary_text seed sheets counted.now.pages counted.now.reasons hollow) }
{
    let mut text = String::new(alloc);
    push_head(&mut text, seed, sheets)?;
    push_pages(&mut text, &counted.pages)?;
    push_rest(&mut text, counted, hollow)?;
    Ok(Bytes::from_vec(text.into_bytes()))
}
