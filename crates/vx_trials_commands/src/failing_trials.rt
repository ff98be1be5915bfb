//! The commands that are tried, what they do in order, and what they are run over.

use crate::devices::{Answer, Failing, Held, attempt};
use crate::failing_fronts::Act::{self, Append, Before, Lines, Page};
use crate::rows::ONE_SHEET;
use std::test::Fail;
use std::thread::Threads;
use vx_io::Records;
use vx_town::{TOWN, records_of};

/// A command, the records before it, the inputs that it takes, in order, and behind how many acts it takes each of
/// them, whether it reads the journal, its acts in order, and how it ends where nothing fails.
///
/// An input is asked for its size and then read in one piece, and no other is asked for anything. The journal is
/// asked for the number of its records, and then for each, before any act. A text is written in one piece.
#[derive(Clone, Copy)]
pub(crate) struct Trial {
    pub(crate) words: &'static [&'static str],
    pub(crate) before: &'static [&'static str],
    pub(crate) asks: &'static [&'static str],
    pub(crate) takes: &'static [usize],
    pub(crate) reads_journal: bool,
    pub(crate) acts: &'static [Act],
    pub(crate) ends: &'static str,
}

/// A script that decides the contest of a blank sheet.
const SCRIPT: &[u8] = b"claim 1 b1 1\nselect 1 b1 1 mayor 1\n\nrelease 1 b1 1\n";

/// The words of an export.
pub(crate) const EXPORT: &[&str] = &[
    "export",
    "e",
    "2024-11-06T08:00:00Z",
    "00000000-0000-4000-8000-000000000001",
];

/// How the first sheet of a report begins, and what stands behind its last.
const FIRST_SHEET: &str = "{\"@type\":\"CVR.CVR\"";

const BEHIND_SHEETS: &str = "],\"Election\":";

/// Commands that only read their inputs. The last two end where an input leaves its form.
pub(crate) const READERS: [Trial; 5] = [
    Trial {
        words: &["print", "e", "0", "precinct"],
        before: &[],
        asks: &["e"],
        takes: &[0],
        reads_journal: false,
        acts: &[Page, Page],
        ends: "ok",
    },
    Trial {
        words: &["read", "e", "s", "t"],
        before: &[],
        asks: &["e", "s", "t"],
        takes: &[0, 0, 2],
        reads_journal: false,
        acts: &[Lines(5), Lines(3), Lines(1)],
        ends: "ok",
    },
    Trial {
        words: &["check", "e", "s", "r"],
        before: &[],
        asks: &["e", "s", "r"],
        takes: &[0, 0, 0],
        reads_journal: false,
        acts: &[Lines(1), Lines(1)],
        ends: "ok",
    },
    Trial {
        words: &["read", "e", "t", "d", "s"],
        before: &[],
        asks: &["e", "t", "d"],
        takes: &[0, 0, 1],
        reads_journal: false,
        acts: &[Lines(1)],
        ends: "pbm 3 1 0",
    },
    Trial {
        words: &["check", "e", "s", "f"],
        before: &[],
        asks: &["e", "s", "f"],
        takes: &[0, 0, 0],
        reads_journal: false,
        acts: &[Lines(1)],
        ends: "not certified pages 1 2",
    },
];

/// Counts. The first begins a journal; its second scan is one small image, the first of a sheet that
/// can't be read, so that the sheets behind it go across scans, and the last image is alone. The second
/// finds its first sheet there. The third ends at an input that is no bitmap, while an image waits.
pub(crate) const COUNTS: [Trial; 3] = [
    Trial {
        words: &["count", "e", "b1", "2", "s", "t", "s", "s"],
        before: &[],
        asks: &["e", "s", "t", "s", "s"],
        takes: &[0, 1, 3, 3, 4],
        reads_journal: true,
        acts: &[
            Append,
            Append,
            Lines(2),
            Lines(1),
            Append,
            Lines(2),
            Lines(1),
            Lines(1),
        ],
        ends: "ok",
    },
    Trial {
        words: &["count", "e", "b1", "1", "s", "s"],
        before: ONE_SHEET,
        asks: &["e", "s", "s"],
        takes: &[0, 0, 1],
        reads_journal: true,
        acts: &[Lines(1), Append, Lines(2), Lines(1)],
        ends: "ok",
    },
    Trial {
        words: &["count", "e", "b1", "1", "s", "t", "d", "s"],
        before: &[],
        asks: &["e", "s", "t", "d"],
        takes: &[0, 1, 3, 3],
        reads_journal: true,
        acts: &[Append, Append, Lines(2)],
        ends: "pbm 6 1 0",
    },
];

/// Commands on the journal. Where it is empty, `decide` begins it before it takes its script.
pub(crate) const JOURNALS: [Trial; 6] = [
    Trial {
        words: &["decide", "e", "d"],
        before: ONE_SHEET,
        asks: &["e", "d"],
        takes: &[0, 0],
        reads_journal: true,
        acts: &[Append, Lines(1), Append, Lines(1), Append, Lines(1)],
        ends: "ok",
    },
    Trial {
        words: &["decide", "e", "d"],
        before: &[],
        asks: &["e", "d"],
        takes: &[0, 1],
        reads_journal: true,
        acts: &[Append],
        ends: "decision line 1 2 no sheet",
    },
    Trial {
        words: &["queue", "e"],
        before: ONE_SHEET,
        asks: &["e"],
        takes: &[0],
        reads_journal: true,
        acts: &[Lines(2)],
        ends: "ok",
    },
    Trial {
        words: &["queue", "e"],
        before: &[],
        asks: &["e"],
        takes: &[0],
        reads_journal: true,
        acts: &[Lines(1)],
        ends: "ok",
    },
    Trial {
        words: EXPORT,
        before: ONE_SHEET,
        asks: &["e"],
        takes: &[0],
        reads_journal: true,
        acts: &[Before(FIRST_SHEET), Before(BEHIND_SHEETS), Lines(1)],
        ends: "ok",
    },
    Trial {
        words: EXPORT,
        before: &[],
        asks: &["e"],
        takes: &[0],
        reads_journal: true,
        acts: &[Before(BEHIND_SHEETS), Lines(1)],
        ends: "ok",
    },
];

/// What the commands are run over: both pages of the town's card, and what is read of them.
#[derive(Drop)]
pub(crate) struct Day {
    pub(crate) scan: Vec<u8>,
    pub(crate) readings: Vec<u8>,
}

/// The day's files: the town's election, both pages of its card, a small image, readings, those of one page
/// that couldn't be read, a script.
pub(crate) fn files_of(day: &Day) -> [(&str, &[u8]); 6] {
    [
        ("e", TOWN.as_bytes()),
        ("s", day.scan.as_slice()),
        ("t", b"P4\n8 1\n\0"),
        ("r", day.readings.as_slice()),
        ("f", b"page 1 fault 2.1 NoCorner"),
        ("d", SCRIPT),
    ]
}

/// The day of the town, by its own `print` and `read`.
pub(crate) fn make_day<R: Threads + Sync + AllocGlobal>(rt: &R) -> Result<Day, Fail> {
    let mut day = Day {
        scan: Vec::new(rt.alloc()),
        readings: Vec::new(rt.alloc()),
    };
    day.scan = text_over(rt, &day, &["print", "e", "0", "precinct"])?;
    day.readings = text_over(rt, &day, &["read", "e", "s"])?;
    Ok(day)
}

/// What a command writes over the day's files and no record.
fn text_over<R: Threads + Sync + AllocGlobal>(
    rt: &R,
    day: &Day,
    words: &[&str],
) -> Result<Vec<u8>, Fail> {
    let none = Records::new(rt.alloc());
    Ok(run_over(rt, day, &none, words, Failing::NONE)?.text)
}

/// Runs a command over the day's files and records.
pub(crate) fn run_over<R: Threads + Sync + AllocGlobal>(
    rt: &R,
    day: &Day,
    records: &Records,
    words: &[&str],
    failing: Failing<'_>,
) -> Result<Answer, Fail> {
    let files = files_of(day);
    let held = Held {
        files: &files,
        records,
    };
    Ok(attempt(rt, held, words, failing)?)
}

/// Runs a trial over the records before it.
pub(crate) fn run_trial<R: Threads + Sync + AllocGlobal>(
    rt: &R,
    day: &Day,
    trial: &Trial,
    failing: Failing<'_>,
) -> Result<Answer, Fail> {
    let records = records_of(rt.alloc(), trial.before)?;
    run_over(rt, day, &records, trial.words, failing)
}
