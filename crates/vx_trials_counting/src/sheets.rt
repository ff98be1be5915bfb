use std::alloc::{AllocError, Global};
use std::process::Abort;
use std::test::Fail;
use vx_code::PageCode;
use vx_grid::{Border, Kind, Paper, Point, State, States};
use vx_layout::{Bubble, Bubbles, CardPlan, PagePlan, PagePlans, TextLines};
use vx_rules::SheetMarks;
use vx_scan_model::{PageReading, Scores};
use vx_sheet::{SheetFault, pair};

/// A page with the bubbles of one contest.
fn page(alloc: Global, page: u32, contest: u32, options: u32) -> Result<PagePlan, AllocError> {
    let mut bubbles = Vec::new(alloc);
    for option in 0..options {
        bubbles.push(Bubble {
            contest,
            option,
            col: 4,
            row: 7,
        })?;
    }
    Ok(PagePlan {
        page,
        of: 2,
        paper: Paper::Letter,
        bubbles: Bubbles::from_vec(bubbles),
        texts: TextLines::new(alloc),
    })
}

/// Two pages: contest 0 with two options on the front, contest 3 with one on the back.
fn plan(alloc: Global) -> Result<CardPlan, AllocError> {
    let mut pages = Vec::new(alloc);
    pages.push(page(alloc, 1, 0, 2)?)?;
    pages.push(page(alloc, 2, 3, 1)?)?;
    Ok(CardPlan {
        card: 0,
        pages: PagePlans::from_vec(pages),
        hollow: 0,
    })
}

fn reading(
    alloc: Global,
    card: u32,
    page: u32,
    test: bool,
    states: &[State],
) -> Result<PageReading, AllocError> {
    Ok(PageReading {
        code: PageCode {
            version: 1,
            test,
            kind: Kind::Absentee,
            card,
            page,
            tag: 0,
        },
        border: Border::new(Paper::Letter, [Point { u: 0, v: 0 }; 168]),
        scores: Scores::new(alloc),
        states: States::from_vec(Vec::from_slice(alloc, states)?),
        turned: false,
    })
}

/// The sheet of two readings.
fn sheet_of(alloc: Global, first: &PageReading, second: &PageReading) -> Result<SheetMarks, Fail> {
    let plan = plan(alloc)?;
    Ok(pair(alloc, &plan, first, second).map_err(|_| "no sheet")?)
}

/// The sheet has the front's contest and then the back's.
fn assert_sheet<R: Abort>(rt: &R, sheet: &SheetMarks) {
    assert!(rt; sheet.front == 1);
    let contests = sheet.contests.as_slice();
    assert!(rt; contests.len() == 2);
    assert!(rt; contests[0].contest == 0 && contests[0].states.len() == 2);
    assert!(rt; contests[1].contest == 3 && contests[1].states.len() == 1);
}

#[test]
fn either_page_comes_first(rt: HostRuntime) -> Result<(), Fail> {
    let alloc = rt.alloc();
    let front = reading(alloc, 0, 1, false, &[State::Marked, State::Clear])?;
    let back = reading(alloc, 0, 2, false, &[State::Marginal])?;
    assert_sheet(&rt, &sheet_of(alloc, &front, &back)?);
    assert_sheet(&rt, &sheet_of(alloc, &back, &front)?);
    Ok(())
}

/// Why two readings are no sheet.
fn fault_of(alloc: Global, first: &PageReading, second: &PageReading) -> Result<String, Fail> {
    let plan = plan(alloc)?;
    match pair(alloc, &plan, first, second) {
        Ok(_) => Err(Fail::from("a sheet")),
        Err(fault) => Ok(fault.to_string(alloc)?),
    }
}

#[test]
fn faults_have_their_texts(rt: HostRuntime) -> Result<(), Fail> {
    let alloc = rt.alloc();
    let front = reading(alloc, 0, 1, false, &[State::Clear, State::Clear])?;
    let others = [
        (1, 2, false, "1 CardsDiffer 0 1"),
        (0, 4, false, "2 PagesNotFacing 1 4"),
        (0, 2, true, "3 KindsDiffer absentee test-absentee"),
    ];
    for (card, page, test, text) in others {
        let other = reading(alloc, card, page, test, &[State::Clear])?;
        assert_eq!(rt; fault_of(alloc, &front, &other)?.as_str(), text);
    }
    assert_eq!(rt;
        SheetFault::OutOfMemory.to_string(alloc)?.as_str(),
        "out of memory"
    );
    Ok(())
}
