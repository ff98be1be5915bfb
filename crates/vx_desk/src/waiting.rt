ghost use Rattle.std.specs.Prelude.{◌≡◌, true, Some};
ghost use Rattle.std.specs.List.{list_all, list_any};
ghost use Rattle.vx_events.specs.Fits.{is_read, is_sheet};
ghost use Rattle.vx_center.specs.Waiting.{contest_waits};
ghost use Rattle.vx_desk.specs.Waits as desk;

use vx_center::Center;
use vx_events::Key;
use vx_rules::{ContestMarks, SheetMarks, is_blank};

/// Whether one of these contests of a sheet waits.
#[tactic(auto, using(crate::proofs::Steps::any_here, crate::proofs::Steps::any_later, crate::proofs::Steps::any_none))]
fn any_of(center: &Center<'_>, key: &Key, sheet_blank: bool, contests: &[ContestMarks]) -> bool
    requires { list_all (is_read center.now.election) contests.now ≡ true }
    ensures { result ≡ list_any
        (contest_waits center.now.election center.now.events key.now sheet_blank) contests.now }
{
    for marks in contests {
        if center.waits(key, sheet_blank, marks) {
            return true;
        }
    }
    false
}

/// Whether a contest of a sheet waits.
pub(crate) fn any_waits(center: &Center<'_>, key: &Key, sheet: &SheetMarks) -> bool
    requires { is_sheet center.now.election sheet.now ≡ true }
    ensures { result ≡ desk.any_waits center.now.election center.now.events key.now (Some sheet.now) }
{
    any_of(center, key, is_blank(sheet), sheet.contests.as_slice())
}

/// Whether the sheet of a batch with a number was added, and a contest of it waits.
pub fn waits(center: &Center<'_>, batch: &str, number: u64) -> bool
    ensures { result ≡ desk.sheet_waits center.now.election center.now.events batch.now number }
{
    match center.sheet(batch, number) {
        None => false,
        Some((key, sheet)) => any_waits(center, key, sheet),
    }
}
