use std::alloc::{AllocError, Global};
use std::test::Fail;
use vx_base::Bytes;
use vx_command::{Status, status_of};
use vx_command_queue::queue;
use vx_io::{Calls, KeeperCalls, MemInputs, MemKeeper, MemSink, NamedBytes};
use vx_town::{TOWN, TOWN_HEADER, records_of};

/// The town's header without its last digit.
const SHORT: &str = "1 election 16cbf4c3a45dae96ed01a82ac6d66a24812b6309d97421e2dc4282725ade6e7";

/// The devices of a `queue`.
#[derive(Drop)]
struct Devices {
    inputs: MemInputs,
    out: MemSink,
    keeper: MemKeeper,
}

fn devices_of(alloc: Global, records: &[&str]) -> Result<Devices, AllocError> {
    let kept = records_of(alloc, records)?;
    let mut files = NamedBytes::new(alloc);
    files.push("e", Bytes::from_slice(alloc, TOWN.as_bytes())?)?;
    Ok(Devices {
        inputs: MemInputs::new(files, Calls::new(alloc)),
        out: MemSink::new(alloc, 10_000, Calls::new(alloc))?,
        keeper: MemKeeper::new(kept, KeeperCalls::new(alloc)),
    })
}

/// What a `queue` has written that ended so, and then its status.
fn text_of(alloc: Global, status: &Status, out: &MemSink) -> Result<String, AllocError> {
    let mut text = String::new(alloc);
    for byte in out.held() {
        text.push(char::from(*byte))?;
    }
    write!(text, "{status}")?;
    Ok(text)
}

/// What `queue` writes over these records, and then its status.
fn written(alloc: Global, records: &[&str]) -> Result<String, AllocError> {
    let mut devices = devices_of(alloc, records)?;
    let Devices {
        inputs,
        out,
        keeper,
    } = &mut devices;
    let status = status_of(queue(alloc, "e", inputs, out, keeper));
    text_of(alloc, &status, &devices.out)
}

#[test]
fn contests_wait_until_they_are_decided(rt: HostRuntime) -> Result<(), Fail> {
    let blank = "1 add b1 1 0 1 precinct 0:cc";
    let over = "1 add a2 999999 0 1 test-other 0:mm";
    let claim = "1 claim 9999 b1 1";
    let decided = "1 accept 9999 b1 1 0";
    let rows: [(&[&str], &str); 6] = [
        (&[], "waiting 0\nok"),
        (
            &[TOWN_HEADER, blank],
            "wait b1 1 mayor BlankBallot holder -\nwaiting 1\nok",
        ),
        (
            &[TOWN_HEADER, blank, over, claim],
            "wait b1 1 mayor BlankBallot holder 9999\nwait a2 999999 mayor Overvote holder -\nwaiting 2\nok",
        ),
        (
            &[TOWN_HEADER, blank, over, claim, decided],
            "wait a2 999999 mayor Overvote holder -\nwaiting 1\nok",
        ),
        (
            &[TOWN_HEADER, "1 add b1 1 0 1 precinct 0:gc"],
            "wait b1 1 mayor MarginalMark holder -\nwaiting 1\nok",
        ),
        (&[TOWN_HEADER, claim], "journal 1 2 no sheet"),
    ];
    for (records, expected) in &rows {
        let text = written(rt.alloc(), records)?;
        assert_eq!(rt; text.as_str(), *expected);
    }
    Ok(())
}

/// Journals that stop at a record, and what `queue` says of them.
const STOPPED: &[(&[&str], &str)] = &[
    (&[""], "journal 0 bad 0"),
    (&[SHORT], "journal 0 bad 74"),
    (&[TOWN_HEADER, "1 claim 1 b1 1 "], "journal 1 bad 14"),
    (&[TOWN_HEADER, "1 add b1 1 5 1 precinct"], "journal 1 unfit"),
];

#[test]
fn journals_that_stop_are_told(rt: HostRuntime) -> Result<(), Fail> {
    for (records, expected) in STOPPED {
        let text = written(rt.alloc(), records)?;
        assert_eq!(rt; text.as_str(), *expected);
    }
    Ok(())
}
