ghost use Rattle.std.specs.Prelude.{◌<◌, ◌^◌, length};

use std::alloc::Global;
use std::process::Abort;
use std::test::Fail;
use vx_base::OutOfMemory;
use vx_grid::Paper;
use vx_readings::*;
use vx_scan_model::PageReading;

const FIRST: &str = "page 1 card 7 side 3 kind test-absentee\nborder";

/// Some lines, so many places in the last of them, and more lines.
fn text_of(alloc: Global, front: &str, places: usize, back: &str) -> Result<String, OutOfMemory> {
    let mut text = String::new(alloc);
    text.push_str(front)?;
    for _ in 0..places {
        text.push_str(" 12,-3")?;
    }
    text.push_str(back)?;
    Ok(text)
}

/// How many pages a text says, and the line that leaves the grammar, or 0.
fn walk(alloc: Global, text: &[u8]) -> Result<(u32, u32), OutOfMemory>
    requires { length text.now < 2 ^ 31 }
{
    let mut reader = ReadingsReader::new(alloc, Paper::Letter, 5, text);
    'pages: loop {
        match reader.next() {
            Ok(Some(_)) => {}
            Ok(None) => return Ok((reader.pages(), 0)),
            Err(ReadingsFault::Line(line)) => return Ok((reader.pages(), line)),
            Err(ReadingsFault::OutOfMemory) => return Err(OutOfMemory),
        }
    }
}

/// The same of a text in parts.
fn walk_parts(
    alloc: Global,
    front: &str,
    places: usize,
    back: &str,
) -> Result<(u32, u32), OutOfMemory> {
    let text = text_of(alloc, front, places, back)?;
    let bytes = text.as_bytes();
    if bytes.len() < 1 << 31 {
        walk(alloc, bytes)
    } else {
        Err(OutOfMemory)
    }
}

/// The block's page, and the score of its bubble.
fn assert_reading<R: Abort>(rt: &R, reading: &PageReading) {
    assert_eq!(rt; (reading.code.version, reading.code.tag), (1, 5));
    assert_eq!(rt; (reading.code.card, reading.code.page), (7, 3));
    assert!(rt; reading.code.test && !reading.turned);
    assert_eq!(rt; reading.scores.as_slice(), [19].as_slice());
}

/// Which bubble the block names, and in which line.
fn assert_bubbles<R: Abort>(rt: &R, said: &SaidReading) {
    assert_eq!(rt;
        said.names.as_slice(),
        [BubbleName {
            contest: 4,
            option: 1
        }]
        .as_slice()
    );
    assert_eq!(rt; said.first_bubble, 3);
}

#[test]
fn a_block_says_its_reading(rt: HostRuntime) -> Result<(), Fail> {
    let text = text_of(rt.alloc(), FIRST, 146, "\nbubble 0 4 1 19 marginal\nend\n")?;
    let bytes = text.as_bytes();
    assert!(rt; bytes.len() < 1 << 31);
    let mut reader = ReadingsReader::new(rt.alloc(), Paper::Letter, 5, bytes);
    let Some(SaidPage::Reading(said)) = reader.next()? else {
        return Err("no reading")?;
    };
    assert_reading(&rt, &said.reading);
    assert_bubbles(&rt, &said);
    Ok(())
}

#[test]
fn texts_leave_the_grammar_at_a_line(rt: HostRuntime) -> Result<(), Fail> {
    let alloc = rt.alloc();
    let cases = [
        (FIRST, 146, "\nend", (1, 0)),
        (
            FIRST,
            146,
            "\nbubble 0 0 0 5 clear\nbubble 1 0 1 0 marked\nend\n",
            (1, 0),
        ),
        (
            "page 1 card 7 side 3 kind other turned\nborder",
            146,
            "\nend\npage 2 fault ?\n",
            (2, 0),
        ),
        (
            "page 1 card 7 side 3 kind precinct\r\nborder",
            146,
            "\nend\n",
            (0, 1),
        ),
        (
            "page 1 card 4294967296 side 3 kind precinct\nborder",
            146,
            "\nend\n",
            (0, 1),
        ),
        (
            "page 1 card 4294967295 side 3 kind precinct\nborder",
            146,
            "\nend\n",
            (1, 0),
        ),
        (
            "page 1 card 07 side 3 kind precinct\nborder",
            146,
            "\nend\n",
            (0, 1),
        ),
        (
            "page 2 card 7 side 3 kind precinct\nborder",
            146,
            "\nend\n",
            (0, 1),
        ),
        (
            "page 1 fault x\npage 1 card 7 side 3 kind other\nborder",
            146,
            "\nend\n",
            (1, 2),
        ),
        (FIRST, 145, "\nend\n", (0, 2)),
        (FIRST, 147, "\nend\n", (0, 2)),
        (
            "page 1 card 7 side 3 kind other\nborder -0,5",
            145,
            "\nend\n",
            (0, 2),
        ),
        (
            "page 1 card 7 side 3 kind other\nborder 2147483648,5",
            145,
            "\nend\n",
            (0, 2),
        ),
        (
            "page 1 card 7 side 3 kind other\nborder -2147483648,5",
            145,
            "\nend\n",
            (1, 0),
        ),
        ("page 1 card 7 side 3 kind other", 0, "", (0, 2)),
        (FIRST, 146, "", (0, 3)),
        (FIRST, 146, "\n", (0, 3)),
        (FIRST, 146, "\nbubble 0 0 0 5 clear", (0, 4)),
        (FIRST, 146, "\nbubble 1 0 0 5 clear\nend\n", (0, 3)),
        (FIRST, 146, "\nbubble 0 0 0 5 dark\nend\n", (0, 3)),
        (FIRST, 146, "\nbubble 0 0 0 5 clear \nend\n", (0, 3)),
        (FIRST, 146, "\nend\n\n", (1, 4)),
        ("page 1 fault ", 0, "", (0, 1)),
        ("page 1 fault", 0, "\n", (0, 1)),
        ("page 1 fault  ", 0, "\n", (1, 0)),
        ("", 0, "", (0, 0)),
        ("", 0, "\n", (0, 1)),
    ];
    for (front, places, back, expected) in cases {
        assert_eq!(rt;
            walk_parts(alloc, front, places, back)?,
            expected,
            "{front}, {places}, {back}"
        );
    }
    assert_eq!(rt; walk(alloc, b"page 1 fault \xff\xfe\n".as_slice())?, (1, 0));
    Ok(())
}
