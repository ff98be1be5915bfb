// Cards as planned pages. What is expected was worked out by hand from the rules of the page.
use std::alloc::{AllocError, Global};
use std::test::*;
use vx_election::read_election;
use vx_layout::{CardPlan, PagePlan, plan_card, plan_cards};
use vx_town::{TOWN, on_legal};

// The bubbles of a page, then its texts.
fn push_page(text: &mut String, page: &PagePlan) -> Result<(), AllocError> {
    write!(text, "page {} of {}\n", page.page, page.of)?;
    for bubble in page.bubbles.as_slice() {
        let (contest, option) = (bubble.contest, bubble.option);
        let (col, row) = (bubble.col, bubble.row);
        write!(text, "{contest}.{option} {col} {row}\n")?;
    }
    for line in page.texts.as_slice() {
        let (x, y) = (line.x, line.y);
        write!(text, "{x} {y} {}\n", line.text.as_str())?;
    }
    Ok(())
}

// A plan as a text.
fn plan_text(alloc: Global, plan: &CardPlan) -> Result<String, AllocError> {
    let (card, hollow) = (plan.card, plan.hollow);
    let mut text = format!(in alloc; "card {card} hollow {hollow}\n")?;
    for page in plan.pages.as_slice() {
        push_page(&mut text, page)?;
    }
    Ok(text)
}

// What is answered for a card of a definition.
fn answer(alloc: Global, bytes: &[u8], card: u32) -> Result<String, AllocError> {
    match read_election(alloc, bytes) {
        Ok(election) => match plan_card(alloc, &election, card) {
            Ok(plan) => plan_text(alloc, &plan),
            Err(fault) => format!(in alloc; "fault {fault}"),
        },
        Err(_) => String::from_str(alloc, "no election"),
    }
}

// What is answered for all cards of a definition: how many are planned, or the fault of one.
fn answer_to_all(alloc: Global, bytes: &[u8]) -> Result<String, AllocError> {
    match read_election(alloc, bytes) {
        Ok(election) => match plan_cards(alloc, &election) {
            Ok(plans) => format!(in alloc; "{} plans", plans.len()),
            Err(refusal) => format!(in alloc; "card {} fault {}", refusal.card, refusal.fault),
        },
        Err(_) => String::from_str(alloc, "no election"),
    }
}

// The town's card: one contest of two candidates.
const TOWN_PLAN: &str =
    "card 0 hollow 0\npage 1 of 2\n0.0 4 8\n0.1 4 9\n290 354 Mayor\n290 406 Vote for 1\n290 458 Ada\n290 510 Bo\n290 1810 Town - 2024-11-05 - North - page 1 of 2\npage 2 of 2\n290 1810 Town - 2024-11-05 - North - page 2 of 2\n";

// Adds so many of one character.
fn push_many(text: &mut String, c: &str, count: u32) -> Result<(), AllocError> {
    for _ in 0..count {
        text.push_str(c)?;
    }
    Ok(())
}

// Adds a contest of so many candidates, each with that name.
fn push_candidates(
    text: &mut String,
    number: u32,
    count: u32,
    name: &str,
) -> Result<(), AllocError> {
    write!(
        text,
        "{{\"id\":\"k{number}\",\"type\":\"candidate\",\"districtId\":\"d\",\"title\":\"Council\",\"seats\":1,\"candidates\":["
    )?;
    let mut between = "";
    for candidate in 0..count {
        write!(
            text,
            "{between}{{\"id\":\"c{candidate}\",\"name\":\"{name}\"}}"
        )?;
        between = ",";
    }
    text.push_str("]}")
}

// Adds a question whose title and description have so many characters.
fn push_question(
    text: &mut String,
    number: u32,
    title: u32,
    description: u32,
) -> Result<(), AllocError> {
    write!(
        text,
        "{{\"id\":\"k{number}\",\"type\":\"yesno\",\"districtId\":\"d\",\"title\":\""
    )?;
    push_many(text, "t", title)?;
    text.push_str("\",\"description\":\"")?;
    push_many(text, "x", description)?;
    text.push_str(
        "\",\"yesOption\":{\"id\":\"yes\",\"label\":\"Yes\"},\"noOption\":{\"id\":\"no\",\"label\":\"No\"}}",
    )
}

// Like contests on one card: candidates, or questions where there is no name.
#[derive(Clone, Copy)]
struct Content {
    count: u32,
    // Each has so many candidates; a question's title so many characters.
    size: u32,
    // The name of each candidate.
    name: &'static str,
    // The characters of a question's description.
    description: u32,
}

fn councils(count: u32, size: u32, name: &'static str) -> Content {
    Content {
        count,
        size,
        name,
        description: 0,
    }
}

fn questions(count: u32, title: u32, description: u32) -> Content {
    Content {
        count,
        size: title,
        name: "",
        description,
    }
}

// Adds such contests.
fn push_contests(text: &mut String, contests: Content) -> Result<(), AllocError> {
    let mut between = "";
    for number in 0..contests.count {
        text.push_str(between)?;
        if contests.name.is_empty() {
            push_question(text, number, contests.size, contests.description)?;
        } else {
            push_candidates(text, number, contests.size, contests.name)?;
        }
        between = ",";
    }
    Ok(())
}

// Adds so many styles; the last one alone has the contests.
fn push_styles(text: &mut String, styles: u32) -> Result<(), AllocError> {
    text.push_str("],\"ballotStyles\":[")?;
    for style in 1..styles {
        write!(
            text,
            "{{\"id\":\"s{style}\",\"precincts\":[\"p\"],\"districts\":[]}},"
        )?;
    }
    text.push_str("{\"id\":\"s\",\"precincts\":[\"p\"],\"districts\":[\"d\"]}]}")
}

// A definition with such contests, and so many styles; the last one alone has the contests.
fn definition(alloc: Global, contests: Content, styles: u32) -> Result<String, AllocError> {
    let mut text = String::from_str(
        alloc,
        "{\"title\":\"T\",\"date\":\"2024-11-05\",\"districts\":[{\"id\":\"d\",\"name\":\"D\"}],\"precincts\":[{\"id\":\"p\",\"name\":\"P\"}],\"contests\":[",
    )?;
    push_contests(&mut text, contests)?;
    push_styles(&mut text, styles)?;
    Ok(text)
}

#[test]
fn one_contest_of_two_candidates(rt: HostRuntime) -> Result<(), Fail> {
    let found = answer(rt.alloc(), TOWN.as_bytes(), 0)?;
    assert_eq!(rt; found.as_str(), TOWN_PLAN);
    let other = answer(rt.alloc(), TOWN.as_bytes(), 1)?;
    assert_eq!(rt; other.as_str(), "fault 4 1");
    Ok(())
}

// A name of 58 characters, and one of 59.
const FITS: &str = "Maximilian Alexander of the Long Street by the Old Town Ga";

const TOO_LONG: &str = "Maximilian Alexander of the Long Street by the Old Town Gat";

// A card without contests has two pages without bubbles.
const NO_CONTESTS: &str =
    "card 0 hollow 0\npage 1 of 2\n290 1810 T - 2024-11-05 - P - page 1 of 2\npage 2 of 2\n290 1810 T - 2024-11-05 - P - page 2 of 2\n";

// Whether what is answered for the one card of such contests has this text in it.
fn says(alloc: Global, made: Content, wanted: &str) -> Result<bool, AllocError> {
    let text = definition(alloc, made, 1)?;
    let found = answer(alloc, text.as_bytes(), 0)?;
    Ok(found.as_str().contains(wanted))
}

#[test]
fn contests_flow_through_columns_and_pages(rt: HostRuntime) -> Result<(), Fail> {
    let rows = [
        (councils(0, 0, "A"), NO_CONTESTS),
        (councils(1, 26, "Ada"), "\n0.0 4 8\n0.1 4 9\n"),
        (
            councils(1, 26, "Ada"),
            "\n0.25 4 33\n290 354 Council\n290 406 Vote for 1\n",
        ),
        (councils(1, 27, "Ada"), "fault 1 k0 29"),
        (
            councils(1, 1, FITS),
            "\n290 458 Maximilian Alexander of the L\n290 478 ong Street by the Old Town Ga\n",
        ),
        (councils(1, 30, TOO_LONG), "fault 2 k0 59"),
        (councils(3, 2, "\u{e9}"), "card 0 hollow 6\n"),
    ];
    for (made, wanted) in rows {
        assert!(rt; says(rt.alloc(), made, wanted)?, "{wanted}");
    }
    Ok(())
}

#[test]
fn a_card_has_62_pages_at_most(rt: HostRuntime) -> Result<(), Fail> {
    assert!(rt;
        says(
            rt.alloc(),
            councils(186, 26, "A"),
            "page 62 of 62\n183.0 4 8\n"
        )?
    );
    Ok(())
}

#[test]
fn a_card_of_more_pages_is_refused(rt: HostRuntime) -> Result<(), Fail> {
    assert!(rt; says(rt.alloc(), councils(187, 26, "A"), "fault 3 64")?);
    Ok(())
}

#[test]
fn five_hundred_contests_flow(rt: HostRuntime) -> Result<(), Fail> {
    let wanted = "page 19 of 20\n486.0 4 8\n487.0 4 11\n";
    assert!(rt; says(rt.alloc(), councils(500, 1, "A"), wanted)?);
    Ok(())
}

#[test]
fn five_hundred_contests_of_a_hundred_are_refused(rt: HostRuntime) -> Result<(), Fail> {
    assert!(rt; says(rt.alloc(), councils(500, 100, "A"), "fault 1 k0 102")?);
    Ok(())
}

#[test]
fn legal_paper_has_39_rows_of_contests(rt: HostRuntime) -> Result<(), Fail> {
    let rows = [
        (councils(1, 37, "Ada"), "\n0.0 4 8\n0.1 4 9\n"),
        (
            councils(1, 37, "Ada"),
            "\n0.36 4 44\n290 368 Council\n290 420 Vote for 1\n",
        ),
        (
            councils(1, 37, "Ada"),
            "\n290 2396 T - 2024-11-05 - P - page 1 of 2\npage 2 of 2\n290 2396 T - 2024-11-05 - P - page 2 of 2\n",
        ),
        (councils(1, 38, "Ada"), "fault 1 k0 40"),
        (councils(2, 20, "Ada"), "\n0.19 4 27\n1.0 13 8\n"),
    ];
    for (made, wanted) in rows {
        let letter = definition(rt.alloc(), made, 1)?;
        let text = on_legal(rt.alloc(), letter.as_str())?;
        let found = answer(rt.alloc(), text.as_bytes(), 0)?;
        assert!(rt; found.as_str().contains(wanted), "{wanted}");
    }
    Ok(())
}

#[test]
fn titles_and_descriptions_go_on_in_the_next_row(rt: HostRuntime) -> Result<(), Fail> {
    let rows = [
        (
            questions(1, 1, 0),
            "\n0.1 4 9\n290 354 t\n290 406 Vote for 1\n290 458 Yes\n290 510 No\n",
        ),
        (questions(1, 1, 58), "\n0.0 4 9\n0.1 4 10\n"),
        (
            questions(1, 1, 58),
            "\n290 426 xxxxxxxxxxxxxxxxxxxxxxxxxxxxx\n290 458 Vote for 1\n",
        ),
        (questions(1, 1, 59), "\n0.0 4 10\n0.1 4 11\n"),
        (questions(1, 1, 59), "\n290 458 x\n290 510 Vote for 1\n"),
        (questions(1, 1, 10_000), "fault 1 k0 177"),
        (questions(1, 256, 0), "\n0.0 4 12\n0.1 4 13\n"),
        (
            questions(1, 256, 0),
            "\n290 562 tttttttttttttttttttttttt\n290 614 Vote for 1\n",
        ),
        // Each fills a column: three on a page, and a last page without any.
        (
            questions(7, 1, 1160),
            "page 1 of 4\n0.0 4 28\n0.1 4 29\n1.0 13 28\n1.1 13 29\n2.0 22 28\n2.1 22 29\n290 354 t\n290 406 xxx",
        ),
        (
            questions(7, 1, 1160),
            "page 2 of 4\n3.0 4 28\n3.1 4 29\n4.0 13 28\n4.1 13 29\n5.0 22 28\n5.1 22 29\n",
        ),
        (
            questions(7, 1, 1160),
            "page 3 of 4\n6.0 4 28\n6.1 4 29\n290 354 t\n",
        ),
        (
            questions(7, 1, 1160),
            "\n290 1446 Vote for 1\n290 1498 Yes\n290 1550 No\n290 1810 T - 2024-11-05 - P - page 3 of 4\npage 4 of 4\n290 1810 T - 2024-11-05 - P - page 4 of 4\n",
        ),
    ];
    for (made, wanted) in rows {
        let text = definition(rt.alloc(), made, 1)?;
        let found = answer(rt.alloc(), text.as_bytes(), 0)?;
        assert!(rt; found.as_str().contains(wanted), "{wanted}");
    }
    Ok(())
}

#[test]
fn all_cards_are_planned_up_to_the_first_fault(rt: HostRuntime) -> Result<(), Fail> {
    let rows = [
        (councils(500, 1, "A"), 1, "1 plans"),
        (councils(1, 26, "A"), 1000, "1000 plans"),
        (councils(1, 27, "A"), 1000, "card 999 fault 1 k0 29"),
    ];
    for (made, styles, wanted) in rows {
        let text = definition(rt.alloc(), made, styles)?;
        let found = answer_to_all(rt.alloc(), text.as_bytes())?;
        assert_eq!(rt; found.as_str(), wanted);
    }
    Ok(())
}
