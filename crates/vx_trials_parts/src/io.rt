use std::alloc::{AllocError, Global};
use std::cell::RefCell;
use std::fmt::Display;
use std::process::Abort;
use std::rt::HostRuntime;
use std::test::Fail;
use std::{env, fs, io, process};
use vx_base::Bytes;
use vx_io::{
    Calls, Failed, Inputs, Keeper, KeeperCalls, MemInputs, MemKeeper, MemSink, NamedBytes, Records,
    StdInputs, StdSink, TakeFault, Words, give, take,
};

/// The bytes taken, where they were.
fn assert_takes(
    rt: &(impl Abort + AllocGlobal),
    inputs: &mut impl Inputs,
    name: &str,
    limit: u64,
    text: &[u8],
) {
    match take(rt.alloc(), inputs, name, limit) {
        Ok(bytes) => assert!(rt; bytes.as_slice() == text, "other bytes"),
        Err(fault) => panic!(rt; "{fault:?}"),
    }
}

fn assert_refuses(
    rt: &(impl Abort + AllocGlobal),
    inputs: &mut impl Inputs,
    name: &str,
    limit: u64,
    fault: TakeFault,
) {
    match take(rt.alloc(), inputs, name, limit) {
        Ok(_) => panic!(rt; "taken"),
        Err(found) => assert_eq!(rt; found, fault),
    }
}

/// One file.
fn one_file(alloc: Global) -> Result<MemInputs, AllocError> {
    let mut files = NamedBytes::new(alloc);
    files.push("a", Bytes::from_slice(alloc, b"ballot")?)?;
    Ok(MemInputs::new(files, Calls::new(alloc)))
}

/// A sink with room takes a text.
fn assert_gives(rt: &(impl Abort + AllocGlobal)) -> Result<(), AllocError> {
    let mut out = MemSink::new(rt.alloc(), 10, Calls::new(rt.alloc()))?;
    assert_eq!(rt; give(&mut out, b"ballot"), Ok(()));
    Ok(())
}

/// A keeper keeps a record, and tells it.
fn assert_keeps(rt: &(impl Abort + AllocGlobal)) {
    let mut keeper = MemKeeper::new(Records::new(rt.alloc()), KeeperCalls::new(rt.alloc()));
    assert_eq!(rt; keeper.append(b"one"), Ok(()));
    assert_eq!(rt; keeper.records().len(), 1);
    let mut body = Bytes::new(rt.alloc());
    assert_eq!(rt; keeper.fetch(0, &mut body), Ok(()));
}

#[test]
fn what_takes_memory_is_done_where_there_is_enough(rt: HostRuntime) -> Result<(), Fail> {
    let mut words = Words::new(rt.alloc());
    words.push("print")?;
    let mut inputs = one_file(rt.alloc())?;
    assert_takes(&rt, &mut inputs, "a", 6, b"ballot");
    assert_gives(&rt)?;
    assert_keeps(&rt);
    Ok(())
}

/// The path of a file that begins so and isn't there yet.
fn file_of(rt: &HostRuntime, name: &str) -> Result<String, Fail> {
    let folder = env::temp_dir(rt)?;
    let number = process::id(rt.process());
    Ok(format!(in rt.alloc(); "{}/{name}_{number}", folder.as_str())?)
}

/// The file's bytes are taken, whole and from a place on, and are refused where they are too many.
fn assert_reads<R: Abort + AllocGlobal>(
    rt: &R,
    inputs: &mut StdInputs<'_, HostRuntime>,
    file: &str,
) {
    let mut part = [b'-'; 6];
    assert_takes(rt, inputs, file, 6, b"ballot");
    assert_refuses(rt, inputs, file, 5, TakeFault::TooLong(6));
    assert_eq!(rt; inputs.read(file, 2, &mut part), Ok(4));
    assert_eq!(rt; part.as_slice(), b"llot--".as_slice());
    let mut two = [b'-'; 2];
    assert_eq!(rt; inputs.read(file, 3, &mut two), Ok(2));
    assert_eq!(rt; two.as_slice(), b"lo".as_slice());
    assert_eq!(rt; inputs.read(file, 6, &mut part), Err(Failed));
}

#[test]
fn real_files_are_taken_or_refused(rt: HostRuntime) -> Result<(), Fail> {
    let folder = env::temp_dir(&rt)?;
    let mut inputs = StdInputs::new(&rt);
    assert_refuses(
        &rt,
        &mut inputs,
        folder.as_str(),
        1 << 40,
        TakeFault::Failed,
    );
    let file = file_of(&rt, "vx_io")?;
    fs::write(&rt, file.as_str(), b"ballot")?;
    assert_reads(&rt, &mut inputs, file.as_str());
    fs::remove_file(&rt, file.as_str())?;
    assert_refuses(&rt, &mut inputs, file.as_str(), 6, TakeFault::NoInput);
    Ok(())
}

/// Bytes that differ from those 65,536 before them.
fn long_text(alloc: Global, size: u32) -> Result<Vec<u8>, AllocError> {
    let mut text = Vec::new(alloc);
    for i in 0..size {
        text.push((i % 251) as u8)?;
    }
    Ok(text)
}

#[test]
fn long_files_are_taken_whole(rt: HostRuntime) -> Result<(), Fail> {
    let file = file_of(&rt, "vx_io_long")?;
    let mut inputs = StdInputs::new(&rt);
    for size in [65_537, 5_000_000] {
        let text = long_text(rt.alloc(), size)?;
        fs::write(&rt, file.as_str(), text.as_slice())?;
        assert_takes(&rt, &mut inputs, file.as_str(), 1 << 26, text.as_slice());
    }
    fs::remove_file(&rt, file.as_str())?;
    Ok(())
}

/// An output that keeps what is written to it, at most three bytes a time, and refuses more once it
/// holds `room` of them.
#[derive(Drop)]
struct Paper {
    bytes: RefCell<Vec<u8>>,
    room: usize,
}

impl Print for Paper {
    fn print<D: Display + Drop>(&self, _value: D) -> io::Result<()> {
        Err(io::Error::from(io::ErrorKind::Unsupported))
    }

    fn println<D: Display + Drop>(&self, _value: D) -> io::Result<()> {
        Err(io::Error::from(io::ErrorKind::Unsupported))
    }

    fn write_all(&self, _bytes: &[u8]) -> io::Result<()> {
        Err(io::Error::from(io::ErrorKind::Unsupported))
    }

    fn write_some(&self, bytes: &[u8]) -> io::Result<usize> {
        let Ok(mut held) = self.bytes.try_borrow_mut() else {
            return Err(io::Error::from(io::ErrorKind::Other));
        };
        let count = bytes.len().min(3);
        if held.len() >= self.room || held.extend_from_slice(&bytes[..count]).is_err() {
            return Err(io::Error::from(io::ErrorKind::StorageFull));
        }
        Ok(count)
    }
}

#[test]
fn the_real_sink_writes_what_it_takes(rt: HostRuntime) -> Result<(), Fail> {
    let paper = Paper {
        bytes: RefCell::new(Vec::new(rt.alloc())),
        room: 8,
    };
    let mut out = StdSink::new(&paper);
    assert_eq!(rt; give(&mut out, b"ballot"), Ok(()));
    assert_eq!(rt; give(&mut out, b"papers"), Err(Failed));
    let Ok(held) = paper.bytes.try_borrow() else {
        panic!(rt; "in use");
    };
    assert_eq!(rt; held.as_slice(), b"ballotpap".as_slice());
    Ok(())
}
