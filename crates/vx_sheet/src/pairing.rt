ghost use Rattle.std.specs.Prelude.{◌≡◌, IfOk};
ghost use Rattle.vx_base.specs.Refusals.{Gives};
ghost use Rattle.vx_sheet.specs.Faults.{is_no_memory};
ghost use Rattle.vx_sheet.specs.Sheet as sheet;

use crate::fault::SheetFault;
use crate::marks::marks_on;
use std::alloc::{AllocError, Global};
use vx_code::PageCode;
use vx_grid::Kind;
use vx_layout::CardPlan;
use vx_rules::SheetMarks;
use vx_scan_model::PageReading;

/// Whether a page is the back of another.
fn is_back_of(back: u32, front: u32) -> bool
    ensures { result ≡ sheet.is_back_of back front }
{
    front % 2 == 1 && back > 0 && back - 1 == front
}

fn same_kind(one: Kind, other: Kind) -> bool
    ensures { result ≡ sheet.same_kind one other }
{
    matches!(
        (one, other),
        (Kind::Precinct, Kind::Precinct)
            | (Kind::Absentee, Kind::Absentee)
            | (Kind::Provisional, Kind::Provisional)
            | (Kind::Other, Kind::Other)
    )
}

fn are_alike(one: &PageCode, other: &PageCode) -> bool
    ensures { result ≡ sheet.are_alike one.now other.now }
{
    same_kind(one.kind, other.kind) && one.test == other.test
}

/// The sheet of a front and its back.
fn sheet_with(
    alloc: Global,
    plan: &CardPlan,
    front: &PageReading,
    back: &PageReading,
) -> Result<SheetMarks, AllocError>
    ensures { IfOk result (λ made. made ≡ sheet.sheet_with plan.now front.now back.now) }
{
    Ok(SheetMarks {
        card: front.code.card,
        front: front.code.page,
        kind: front.code.kind,
        test: front.code.test,
        contests: marks_on(alloc, plan, front, back)?,
    })
}

/// The sheet of two facing pages, whichever is the front.
fn either_sheet(
    alloc: Global,
    plan: &CardPlan,
    first: &PageReading,
    second: &PageReading,
) -> Result<SheetMarks, AllocError>
    ensures { IfOk result (λ made. made ≡ sheet.either_sheet plan.now first.now second.now) }
{
    if first.code.page % 2 == 1 {
        sheet_with(alloc, plan, first, second)
    } else {
        sheet_with(alloc, plan, second, first)
    }
}

/// The sheet of two readings, the front and the back of a card in either order; `plan` is the plan of
/// the first's card. Else the first fault, in this order: `CardsDiffer`, `PagesNotFacing`,
/// `KindsDiffer`; or `OutOfMemory`.
pub fn pair(
    alloc: Global,
    plan: &CardPlan,
    first: &PageReading,
    second: &PageReading,
) -> Result<SheetMarks, SheetFault>
    ensures exact { Gives is_no_memory result (sheet.sheet_of plan.now first.now second.now) }
{
    let (one, other) = (&first.code, &second.code);
    if one.card != other.card {
        return Err(SheetFault::CardsDiffer(one.card, other.card));
    }
    if !is_back_of(other.page, one.page) && !is_back_of(one.page, other.page) {
        return Err(SheetFault::PagesNotFacing(one.page, other.page));
    }
    if !are_alike(one, other) {
        return Err(SheetFault::KindsDiffer(*one, *other));
    }
    Ok(either_sheet(alloc, plan, first, second)?)
}
