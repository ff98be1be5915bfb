use std::alloc::Global;
use std::test::Fail;
use vx_io::Words;
use vx_json::{Text, Texts};
use vx_words::{Command, UsageFault, parse};

/// The words of a line, and behind them so many scans.
fn words_of(rt: &HostRuntime, line: &[&str], scans: u32) -> Result<Words, Fail> {
    let mut words = Words::new(rt.alloc());
    for word in line {
        if words.count() < 1_000_000 {
            words.push(word)?;
        }
    }
    for _ in 0..scans {
        if words.count() < 1_000_000 {
            words.push("s")?;
        }
    }
    Ok(words)
}

/// A command that has its election alone.
fn alone(alloc: Global, name: &str, election: &Text) -> Result<String, Fail> {
    Ok(format!(in alloc; "{name} {}", election.as_str())?)
}

/// A command that has an election and so many scans.
fn with_scans(alloc: Global, name: &str, election: &Text, scans: &Texts) -> Result<String, Fail> {
    Ok(format!(in alloc; "{name} {} {}", election.as_str(), scans.len())?)
}

/// A command in the debug form of its parts, where it has others than an election and scans.
fn with_parts(alloc: Global, command: &Command) -> Result<String, Fail> {
    Ok(match command {
        Command::Print {
            election,
            card,
            kind,
            test,
        } => format!(in alloc; "print {} {card} {kind:?} {test}", election.as_str())?,
        Command::Check {
            election,
            scans,
            readings,
        } => {
            let election = election.as_str();
            format!(in alloc; "check {election} {} {}", scans.as_str(), readings.as_str())?
        }
        Command::Count {
            election,
            batch,
            workers,
            scans,
        } => {
            let election = election.as_str();
            format!(in alloc;
                "count {election} {} {workers} {}",
                batch.as_str(),
                scans.len()
            )?
        }
        Command::Decide { election, script } => {
            format!(in alloc; "decide {} {}", election.as_str(), script.as_str())?
        }
        Command::Export {
            election,
            moment,
            device,
        } => {
            let election = election.as_str();
            format!(in alloc; "export {election} {} {}", moment.as_str(), device.as_str())?
        }
        Command::Demo { seed, sheets } => format!(in alloc; "demo {seed} {sheets}")?,
        Command::Center {
            election,
            moment,
            device,
            items,
        } => {
            let election = election.as_str();
            let device = device.as_str();
            format!(in alloc;
                "center {election} {} {device} {}",
                moment.as_str(),
                items.len()
            )?
        }
        _ => String::new(alloc),
    })
}

/// A sample or a desk in the debug form of its parts.
fn with_more(alloc: Global, command: &Command) -> Result<String, Fail> {
    Ok(match command {
        Command::Sample {
            election,
            seed,
            size,
            hand,
        } => {
            let election = election.as_str();
            format!(in alloc;
                "sample {election} {} {size} {}",
                seed.as_str(),
                hand.as_str()
            )?
        }
        Command::Desk {
            election,
            batch,
            scans,
        } => {
            let election = election.as_str();
            format!(in alloc; "desk {election} {} {}", batch.as_str(), scans.len())?
        }
        _ => String::new(alloc),
    })
}

/// A board or a risk in the debug form of its parts.
fn with_drawn(alloc: Global, command: &Command) -> Result<String, Fail> {
    Ok(match command {
        Command::Board {
            election,
            seed,
            size,
        } => {
            let election = election.as_str();
            format!(in alloc; "board {election} {} {size}", seed.as_str())?
        }
        Command::Risk {
            election,
            seed,
            size,
            hand,
            limit,
        } => {
            let election = election.as_str();
            let seed = seed.as_str();
            format!(in alloc; "risk {election} {seed} {size} {} {limit}", hand.as_str())?
        }
        _ => String::new(alloc),
    })
}

/// A command in the debug form of its parts.
fn told_of(alloc: Global, command: &Command) -> Result<String, Fail> {
    match command {
        Command::Read { election, scans } => with_scans(alloc, "read", election, scans),
        Command::Try { election, scans } => with_scans(alloc, "try", election, scans),
        Command::Queue { election } => alone(alloc, "queue", election),
        Command::Cards { election } => alone(alloc, "cards", election),
        Command::Results { election } => alone(alloc, "results", election),
        Command::Summary { election } => alone(alloc, "summary", election),
        Command::Sample { .. } | Command::Desk { .. } => with_more(alloc, command),
        Command::Board { .. } | Command::Risk { .. } => with_drawn(alloc, command),
        _ => with_parts(alloc, command),
    }
}

/// What words are read as: the command in the debug form of its parts, or why they are none.
fn told(rt: &HostRuntime, words: &Words) -> Result<String, Fail> {
    match parse(rt.alloc(), words) {
        Ok(command) => told_of(rt.alloc(), &command),
        Err(UsageFault::Usage) => Ok(String::from_str(rt.alloc(), "usage")?),
        Err(UsageFault::OutOfMemory) => Ok(String::from_str(rt.alloc(), "no memory")?),
    }
}

const DEVICE: &str = "00000000-0000-4000-8000-00000000000a";

const SEED: &str = "00000000000000000000000000000000000000000000000000000000000000af";

/// Lines of words and what they are read as.
const LINES: &[(&[&str], &str)] = &[
    (&[], "usage"),
    (&["center"], "usage"),
    (&["help"], "usage"),
    (&["--help"], "usage"),
    (&["print", "e", "0", "precinct"], "print e 0 Precinct false"),
    (
        &["print", "e", "1023", "test-absentee"],
        "print e 1023 Absentee true",
    ),
    (&["print", "e", "1024", "precinct"], "usage"),
    (&["print", "e", "00", "precinct"], "usage"),
    (&["print", "e", "+1", "precinct"], "usage"),
    (&["print", "e", "0", "other"], "usage"),
    (&["print", "e", "0"], "usage"),
    (&["print", "e", "0", "precinct", "more"], "usage"),
    (&["read", "e", "s"], "read e 1"),
    (&["read", "e"], "usage"),
    (&["read", "e", "-s"], "usage"),
    (&["read", "e", ""], "usage"),
    (&["check", "e", "s", "r"], "check e s r"),
    (&["check", "e", "s"], "usage"),
    (&["check", "e", "s", "r", "more"], "usage"),
    (&["count", "e", "b-1", "64", "s", "t"], "count e b-1 64 2"),
    (&["count", "e", "b1", "0", "s"], "usage"),
    (&["count", "e", "b1", "65", "s"], "usage"),
    (&["count", "e", "b.1", "1", "s"], "usage"),
    (&["count", "e", "-b", "1", "s"], "usage"),
    (&["count", "e", "b1", "1"], "usage"),
    (&["decide", "e", "s"], "decide e s"),
    (&["decide", "e"], "usage"),
    (&["decide", "e", "s", "more"], "usage"),
    (&["queue"], "usage"),
    (&["queue", "e"], "queue e"),
    (&["queue", "e", "more"], "usage"),
    (&["cards"], "usage"),
    (&["cards", "e"], "cards e"),
    (&["cards", "e", "more"], "usage"),
    (&["results", "e"], "results e"),
    (&["results", "e", "more"], "usage"),
    (&["summary", "e"], "summary e"),
    (&["summary", "e", "more"], "usage"),
    (&["try", "e"], "usage"),
    (&["try", "e", "s"], "try e 1"),
    (&["desk", "e", "b-1", "s", "t"], "desk e b-1 2"),
    (&["desk", "e", "b-1"], "usage"),
    (&["desk", "e", "b.1", "s"], "usage"),
    (
        &["export", "e", "2024-02-29T23:59:59Z", DEVICE],
        "export e 2024-02-29T23:59:59Z 00000000-0000-4000-8000-00000000000a",
    ),
    (
        &[
            "export",
            "e",
            "0000-12-31T00:00:00Z",
            "{00000000-0000-4000-8000-00000000000A}",
        ],
        "export e 0000-12-31T00:00:00Z 00000000-0000-4000-8000-00000000000a",
    ),
    (
        &[
            "export",
            "e",
            "2024-11-06T08:00:00Z",
            "urn:uuid:00000000-0000-4000-8000-00000000000A",
        ],
        "export e 2024-11-06T08:00:00Z 00000000-0000-4000-8000-00000000000a",
    ),
    (&["demo", "7", "10"], "demo 7 10"),
    (&["demo", "0", "1000"], "demo 0 1000"),
    (
        &["demo", "18446744073709551615", "1"],
        "demo 18446744073709551615 1",
    ),
    (&["demo", "18446744073709551616", "1"], "usage"),
    (&["demo", "7", "1001"], "usage"),
    (&["demo", "7", "0"], "usage"),
    (&["demo", "07", "1"], "usage"),
    (&["demo", "+7", "1"], "usage"),
    (&["demo", "7"], "usage"),
    (&["demo", "7", "1", "more"], "usage"),
    (
        &[
            "center",
            "e",
            "2024-02-29T23:59:59Z",
            DEVICE,
            "script:a:b",
            "scan:b1:scan:s",
        ],
        "center e 2024-02-29T23:59:59Z 00000000-0000-4000-8000-00000000000a 2",
    ),
    (&["center", "e", "2024-02-29T23:59:59Z", DEVICE], "usage"),
    (&["export", "e", "2023-02-29T00:00:00Z", DEVICE], "usage"),
    (&["export", "e", "2024-02-30T00:00:00Z", DEVICE], "usage"),
    (&["export", "e", "2024-11-06T08:00:60Z", DEVICE], "usage"),
    (&["export", "e", "2024-11-06T24:00:00Z", DEVICE], "usage"),
    (&["export", "e", "2024-11-06T08:00:00.0Z", DEVICE], "usage"),
    (
        &["export", "e", "2024-11-06T08:00:00+00:00", DEVICE],
        "usage",
    ),
    (&["export", "e", "2024-11-06 08:00:00Z", DEVICE], "usage"),
    (&["export", "e", "2024-11-06T08:00:00Z", "device"], "usage"),
    (&["export", "e", "2024-11-06T08:00:00Z"], "usage"),
    (
        &["export", "e", "2024-11-06T08:00:00Z", DEVICE, "more"],
        "usage",
    ),
    (
        &[
            "export",
            "e",
            "9999-12-31T23:59:59Z",
            "00000000-0000-4000-8000-00000000000A",
        ],
        "export e 9999-12-31T23:59:59Z 00000000-0000-4000-8000-00000000000a",
    ),
];

/// The same of the commands that draw by a seed.
const DRAWN: &[(&[&str], &str)] = &[
    (
        &["sample", "e", SEED, "1", "h"],
        "sample e 00000000000000000000000000000000000000000000000000000000000000af 1 h",
    ),
    (
        &["sample", "e", SEED, "10000", "h"],
        "sample e 00000000000000000000000000000000000000000000000000000000000000af 10000 h",
    ),
    (&["sample", "e", SEED, "10001", "h"], "usage"),
    (&["sample", "e", SEED, "0", "h"], "usage"),
    (&["sample", "e", SEED, "01", "h"], "usage"),
    (&["sample", "e", "af", "1", "h"], "usage"),
    (
        &[
            "sample",
            "e",
            "00000000000000000000000000000000000000000000000000000000000000aF",
            "1",
            "h",
        ],
        "usage",
    ),
    (&["sample", "e", SEED, "1"], "usage"),
    (&["sample", "e", SEED, "1", "h", "more"], "usage"),
    (
        &["board", "e", SEED, "1"],
        "board e 00000000000000000000000000000000000000000000000000000000000000af 1",
    ),
    (
        &["board", "e", SEED, "10000"],
        "board e 00000000000000000000000000000000000000000000000000000000000000af 10000",
    ),
    (&["board", "e", SEED, "10001"], "usage"),
    (&["board", "e", SEED, "0"], "usage"),
    (&["board", "e", "af", "1"], "usage"),
    (&["board", "e", SEED], "usage"),
    (&["board", "e", SEED, "1", "h"], "usage"),
    (
        &["risk", "e", SEED, "1", "h", "1"],
        "risk e 00000000000000000000000000000000000000000000000000000000000000af 1 h 1",
    ),
    (
        &["risk", "e", SEED, "10000", "h", "999"],
        "risk e 00000000000000000000000000000000000000000000000000000000000000af 10000 h 999",
    ),
    (&["risk", "e", SEED, "1", "h", "1000"], "usage"),
    (&["risk", "e", SEED, "1", "h", "0"], "usage"),
    (&["risk", "e", SEED, "1", "h", "050"], "usage"),
    (&["risk", "e", SEED, "1", "50", "h"], "usage"),
    (&["risk", "e", SEED, "10001", "h", "50"], "usage"),
    (&["risk", "e", "af", "1", "h", "50"], "usage"),
    (&["risk", "e", SEED, "1", "h"], "usage"),
    (&["risk", "e", SEED, "1", "h", "50", "more"], "usage"),
];

#[test]
fn lines_of_words_are_read(rt: HostRuntime) -> Result<(), Fail> {
    for (line, told_as) in LINES {
        let words = words_of(&rt, line, 0)?;
        assert_eq!(rt; told(&rt, &words)?.as_str(), *told_as);
    }
    Ok(())
}

#[test]
fn lines_of_words_that_draw_are_read(rt: HostRuntime) -> Result<(), Fail> {
    for (line, told_as) in DRAWN {
        let words = words_of(&rt, line, 0)?;
        assert_eq!(rt; told(&rt, &words)?.as_str(), *told_as);
    }
    Ok(())
}

/// The first words of a line, how many scans stand behind them, and what they are read as.
const SCANS: &[(&[&str], u32, &str)] = &[
    (&["read", "e"], 64, "read e 64"),
    (&["read", "e"], 65, "usage"),
    (&["count", "e", "b1", "1"], 64, "count e b1 1 64"),
    (&["count", "e", "b1", "1"], 65, "usage"),
    (&["try", "e"], 64, "try e 64"),
    (&["try", "e"], 65, "usage"),
    (&["desk", "e", "b1"], 64, "desk e b1 64"),
    (&["desk", "e", "b1"], 65, "usage"),
];

#[test]
fn there_are_64_scans_at_most(rt: HostRuntime) -> Result<(), Fail> {
    for (line, scans, told_as) in SCANS {
        let words = words_of(&rt, line, *scans)?;
        assert_eq!(rt; told(&rt, &words)?.as_str(), *told_as);
    }
    Ok(())
}
