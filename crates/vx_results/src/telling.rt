//! The text of the results of a count.

ghost use Rattle.std.specs.Prelude.{◌≡◌, ◌++◌, IfOk, map, string_bytes};
ghost use Rattle.vx_election_model.specs.Valid.{IsValid};
ghost use Rattle.vx_tally.specs.Running.{summed_in};
ghost use Rattle.vx_audit.specs.Totals.{sums_text as text_of_sums};
ghost use Rattle.vx_results.specs.Report.{contest_of, units_of as names_of_units};
ghost use Rattle.vx_results.specs.Results as lines;

use crate::contests::{contests_of, units_of};
use crate::counting::{Counted, count, drop_counted};
use crate::text_lines::push_waiting;
use std::alloc::Global;
use vx_audit::sums_text;
use vx_base::OutOfMemory;
use vx_center::Center;
use vx_cvr::rows_are_of_the_sheets;
use vx_election_model::Election;
use vx_tally::sums_are_of_any_order;

/// The text of what was counted.
fn text_of(alloc: Global, election: &Election, counted: &Counted) -> Result<String, OutOfMemory>
    requires { IsValid election.now }
    ensures { IfOk result (λ text. string_bytes text
        ≡ text_of_sums (summed_in counted.now.totals) (map contest_of election.now.contests) (names_of_units election.now)
        ++ lines.waiting_line counted.now.waiting) }
{
    let contests = contests_of(alloc, election)?;
    let units = units_of(alloc, election)?;
    let (contests, units) = (contests.as_slice(), units.as_slice());
    let mut text = sums_text(alloc, contests, units, &counted.totals)?;
    push_waiting(&mut text, counted.waiting)?;
    Ok(text)
}

/// The results of a count: the totals of what the report of its events says, and then how many contests of
/// added sheets wait. The only refusal is want of memory.
pub fn results_text(
    alloc: Global,
    election: &Election,
    center: &Center<'_>,
) -> Result<String, OutOfMemory>
    requires valid { IsValid election.now }
    requires same { center.now.election ≡ election.now }
    ensures { IfOk result (λ text. string_bytes text
        ≡ lines.results_text election.now center.now.events) }
{
    rows_are_of_the_sheets();
    sums_are_of_any_order();
    let counted = count(alloc, election, center)?;
    let text = text_of(alloc, election, &counted);
    drop_counted(counted);
    text
}
