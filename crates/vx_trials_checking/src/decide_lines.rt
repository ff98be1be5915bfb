use std::alloc::{AllocError, Global};
use std::process::Abort;
use std::test::Fail;
use vx_base::Bytes;
use vx_command::{Status, status_of};
use vx_command_decide::decide;
use vx_io::{Calls, KeeperCalls, MemInputs, MemKeeper, MemSink, NamedBytes, Records};
use vx_town::{TOWN, TOWN_HEADER, records_of};

/// The town's election as `e`, and a script as `s`.
fn inputs_of(alloc: Global, script: &[u8]) -> Result<MemInputs, Fail> {
    let mut files = NamedBytes::new(alloc);
    files.push("e", Bytes::from_slice(alloc, TOWN.as_bytes())?)?;
    files.push("s", Bytes::from_slice(alloc, script)?)?;
    Ok(MemInputs::new(files, Calls::new(alloc)))
}

/// Adds bytes as characters.
fn push_bytes(text: &mut String, bytes: &[u8]) -> Result<(), AllocError> {
    for byte in bytes {
        text.push(char::from(*byte))?;
    }
    Ok(())
}

/// The devices of a `decide`.
#[derive(Drop)]
struct Devices {
    inputs: MemInputs,
    out: MemSink,
    keeper: MemKeeper,
}

fn devices_of(alloc: Global, records: &[&str], script: &[u8]) -> Result<Devices, Fail> {
    let kept = records_of(alloc, records)?;
    Ok(Devices {
        inputs: inputs_of(alloc, script)?,
        out: MemSink::new(alloc, 10_000, Calls::new(alloc))?,
        keeper: MemKeeper::new(kept, KeeperCalls::new(alloc)),
    })
}

/// Adds the records from `from` on, each on a line of its own.
fn push_records(text: &mut String, records: &Records, from: usize) -> Result<(), AllocError> {
    for index in from..records.len() {
        text.push('\n')?;
        push_bytes(text, records.record(index).as_slice())?;
    }
    Ok(())
}

/// What a `decide` has written that ended so, its status, and the records from `from` on.
fn text_of(
    alloc: Global,
    status: &Status,
    devices: &Devices,
    from: usize,
) -> Result<String, AllocError> {
    let mut text = String::new(alloc);
    push_bytes(&mut text, devices.out.held())?;
    write!(text, "{status}")?;
    push_records(&mut text, devices.keeper.records(), from)?;
    Ok(text)
}

/// What `decide` writes of a script over these records, its status, and the records from `from` on.
fn written(alloc: Global, records: &[&str], script: &[u8], from: usize) -> Result<String, Fail> {
    let mut devices = devices_of(alloc, records, script)?;
    let Devices {
        inputs,
        out,
        keeper,
    } = &mut devices;
    let status = status_of(decide(alloc, "e", "s", inputs, out, keeper));
    Ok(text_of(alloc, &status, &devices, from)?)
}

/// Scripts whose first line is none: another word, a value out of its range, a word too many or too few,
/// bytes that are no text.
const BAD: [&[u8]; 32] = [
    b" ",
    b"claim",
    b"claim 1 b1",
    b"claim 1 b1 1 1",
    b"Claim 1 b1 1",
    b"claim  1 b1 1",
    b"claim 1 b1  1\n",
    b" claim 1 b1 1",
    b"claim 1 b1 1 ",
    b"claim 1 b1 1\r\n",
    b"claim\t1 b1 1",
    b"\xef\xbb\xbfclaim 1 b1 1",
    b"claim 1 b\xff 1\n",
    b"claim 0 b1 1",
    b"claim 01 b1 1",
    b"claim 10000 b1 1",
    b"claim -1 b1 1",
    b"claim 1 b.1 1",
    b"claim 1 b1 0",
    b"claim 1 b1 1000000",
    b"claim 1 b1 99999999999999999999",
    b"accept 1 b1 1",
    b"accept 1 b1 1 judge\n",
    b"accept 1 b1 1 0",
    b"overvote 1 b1 1 mayor 0",
    b"select 1 b1 1 mayor -",
    b"select 1 b1 1 mayor 0,1",
    b"select 1 b1 1 mayor 1000",
    b"name 1 b1 1 mayor 1000 candidate 0",
    b"name 1 b1 1 mayor 0 candidate 1000",
    b"name 1 b1 1 mayor 0 words Zoe",
    b"name 1 b1 1 mayor 0 text Zo\te",
];

/// A script over no record leaves the header alone, and writes so.
fn assert_writes<R: AllocGlobal + Abort>(
    rt: &R,
    script: &[u8],
    expected: &str,
) -> Result<(), Fail> {
    let alloc = rt.alloc();
    let text = written(alloc, &[], script, 0)?;
    let whole = format!(in alloc; "{expected}\n{TOWN_HEADER}")?;
    assert_eq!(rt; text.as_str(), whole.as_str(), "{script:?}");
    Ok(())
}

#[test]
fn the_first_line_that_is_refused_ends_a_script(rt: HostRuntime) -> Result<(), Fail> {
    for script in BAD {
        assert_writes(&rt, script, "decision line 1 bad")?;
    }
    let rows: [(&[u8], &str); 5] = [
        (b"", "ok"),
        (b"\n\n", "ok"),
        (b"\nclaim 1 b1 1 \n", "decision line 2 bad"),
        (b"\nclaim 1 b1 1\n", "decision line 2 2 no sheet"),
        (b"name 1 b1 1 mayor 0 text ", "decision line 1 bad"),
    ];
    for (script, expected) in rows {
        assert_writes(&rt, script, expected)?;
    }
    Ok(())
}

#[test]
fn what_stands_before_a_refused_line_is_kept(rt: HostRuntime) -> Result<(), Fail> {
    let records = [TOWN_HEADER, "1 add b1 1 0 1 precinct 0:gc"];
    let rows: [(&[u8], &str); 5] = [
        (
            b"claim 7 b1 1\n\nselect 7 b1 1 mayor 1 1\nrelease 7 b1 1",
            "line 1 done\nline 3 done\nline 4 done\nok\n1 claim 7 b1 1\n1 select 7 b1 1 0 1\n1 release 7 b1 1",
        ),
        (
            b"claim 7 b1 1\naccept 7 b1 1 mayor\nrelease 7 b1 1\n",
            "line 1 done\ndecision line 2 8 still marginal 0\n1 claim 7 b1 1",
        ),
        (
            b"claim 7 b1 1\nselect 7 b1 1 mayor\novervote 7 b1 1 mayor\n",
            "line 1 done\nline 2 done\nline 3 done\nok\n1 claim 7 b1 1\n1 select 7 b1 1 0 -\n1 overvote 7 b1 1 0",
        ),
        (
            b"claim 7 b1 1\nselect 7 b1 1 mayor 1000\n",
            "line 1 done\ndecision line 2 bad\n1 claim 7 b1 1",
        ),
        (
            b"claim 7 b1 1\noverride 7 b1 1 mayor\n",
            "line 1 done\ndecision line 2 bad\n1 claim 7 b1 1",
        ),
    ];
    for (script, expected) in &rows {
        let text = written(rt.alloc(), &records, script, 2)?;
        assert_eq!(rt; text.as_str(), *expected);
    }
    Ok(())
}
