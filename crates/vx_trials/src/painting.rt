//! Painting what a plan puts off its page.

use crate::town::town_on;
use std::alloc::Global;
use std::test::Fail;
use vx_bits::BitPage;
use vx_code::{PageCode, tag_of};
use vx_election_model::Election;
use vx_grid::{Kind, Paper};
use vx_layout::{Bubble, Bubbles, PagePlan, TextLine, TextLines};
use vx_raster::paint;

// A page with a bubble and a line, and with a bubble and a line that lie off the page.
fn plan_of(alloc: Global, election: &Election) -> Result<PagePlan, Fail> {
    let bubbles = vec![in alloc;
        Bubble {
            contest: 0,
            option: 0,
            col: 4,
            row: 8
        },
        Bubble {
            contest: 0,
            option: 1,
            col: u32::MAX,
            row: u32::MAX
        },
    ]?;
    let near = TextLine {
        x: 290,
        y: 458,
        text: election.title.copy(alloc)?,
    };
    let far = TextLine {
        x: u32::MAX,
        y: u32::MAX,
        text: election.title.copy(alloc)?,
    };
    Ok(PagePlan {
        page: 1,
        of: 2,
        paper: Paper::Letter,
        bubbles: Bubbles::from_vec(bubbles),
        texts: TextLines::from_vec(vec![in alloc; near, far]?),
    })
}

// The page of that plan, page 1 of card 0.
fn painted_page(alloc: Global) -> Result<BitPage, Fail> {
    let election = town_on(alloc, Paper::Letter)?;
    let plan = plan_of(alloc, &election)?;
    let code = PageCode {
        version: 1,
        test: false,
        kind: Kind::Precinct,
        card: 0,
        page: 1,
        tag: tag_of(&election.digest),
    };
    Ok(paint(alloc, &election, &plan, &code)?)
}

#[test]
fn a_page_is_painted(rt: HostRuntime) -> Result<(), Fail> {
    let page = painted_page(rt.alloc())?;
    assert_eq!(rt; (page.width(), page.height()), (1700, 2200));
    for (x, y, dark) in [
        // timing mark 0
        (40, 54, true),
        (39, 54, false),
        (75, 65, true),
        (76, 65, false),
        // the bubble
        (245, 463, true),
        (254, 463, true),
        (244, 463, false),
        (250, 476, false),
        // the first of the code's bits is 0
        (188, 1870, true),
        (236, 1870, false),
        // the letter T
        (290, 458, true),
        (290, 460, false),
        (295, 471, true),
        (295, 472, false),
    ] {
        assert_eq!(rt; page.view().dark(x, y), dark, "at {x} {y}");
    }
    Ok(())
}
