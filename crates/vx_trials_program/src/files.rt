//! Real files of these trials: the town's election, a scan of its printed pages, a script, a file of ranked
//! contests, and a journal, in a folder of their own.

use std::os::unix::fs::PermissionsExt;
use std::rt::HostRuntime;
use std::test::Fail;
use std::{env, fs, process};
use vx_base::Bytes;
use vx_command_print::{Ballot, print};
use vx_grid::Kind;
use vx_io::{Calls, MemInputs, MemSink, NamedBytes};
use vx_town::TOWN;

/// Decides both sheets of two batches: each has a vote for the first candidate.
const SCRIPT: &str = "claim 1 b1 1\n\
     select 1 b1 1 mayor 0\n\
     release 1 b1 1\n\
     claim 1 b2 1\n\
     select 1 b2 1 mayor 0\n\
     release 1 b2 1\n";

/// The one contest as a ranked one of one rank.
const RANKED: &str = r#"{"ranked":[{"id":"m","contests":["mayor"]}]}"#;

/// The paths of the files of a trial.
#[derive(Drop)]
pub(crate) struct Paths {
    folder: String,
    /// The folder of the journal alone.
    kept: String,
    pub(crate) election: String,
    pub(crate) scan: String,
    pub(crate) script: String,
    pub(crate) ranked: String,
    pub(crate) journal: String,
}

/// The path of a folder that doesn't last, by the trial's name.
fn folder_of(rt: &HostRuntime, trial: &str) -> Result<String, Fail> {
    let folder = env::temp_dir(rt)?;
    let number = process::id(rt.process());
    Ok(format!(in rt.alloc(); "{}/vx_program_{number}_{trial}", folder.as_str())?)
}

/// The path of a file in a folder.
fn file_in(rt: &HostRuntime, folder: &str, name: &str) -> Result<String, Fail> {
    Ok(format!(in rt.alloc(); "{folder}/{name}")?)
}

/// The paths in a folder.
fn paths_in(rt: &HostRuntime, folder: String) -> Result<Paths, Fail> {
    let election = file_in(rt, folder.as_str(), "town.json")?;
    let scan = file_in(rt, folder.as_str(), "town.pbm")?;
    let script = file_in(rt, folder.as_str(), "script")?;
    let ranked = file_in(rt, folder.as_str(), "ranked.json")?;
    let kept = file_in(rt, folder.as_str(), "kept")?;
    let journal = file_in(rt, kept.as_str(), "journal")?;
    Ok(Paths {
        folder,
        kept,
        election,
        scan,
        script,
        ranked,
        journal,
    })
}

/// Both pages of the town's card.
fn printed(rt: &HostRuntime) -> Result<Bytes, Fail> {
    let ballot = Ballot {
        card: 0,
        kind: Kind::Precinct,
        test: false,
    };
    let mut files = NamedBytes::new(rt.alloc());
    files.push("e", Bytes::from_slice(rt.alloc(), TOWN.as_bytes())?)?;
    let mut inputs = MemInputs::new(files, Calls::new(rt.alloc()));
    let mut out = MemSink::new(rt.alloc(), 2_000_000, Calls::new(rt.alloc()))?;
    print(rt.alloc(), "e", ballot, &mut inputs, &mut out).map_err(|_| "nothing is printed")?;
    Ok(Bytes::from_slice(rt.alloc(), out.held())?)
}

/// Writes all but the journal.
fn write_all(rt: &HostRuntime, paths: &Paths) -> Result<(), Fail> {
    fs::write(rt, paths.election.as_str(), TOWN.as_bytes())?;
    fs::write(rt, paths.script.as_str(), SCRIPT.as_bytes())?;
    fs::write(rt, paths.ranked.as_str(), RANKED.as_bytes())?;
    Ok(fs::write(rt, paths.scan.as_str(), printed(rt)?.as_slice())?)
}

/// Makes the folder of a trial and its files; the journal isn't there yet.
pub(crate) fn write_files(rt: &HostRuntime, trial: &str) -> Result<Paths, Fail> {
    let paths = paths_in(rt, folder_of(rt, trial)?)?;
    fs::create_dir_all(rt, paths.kept.as_str())?;
    write_all(rt, &paths)?;
    Ok(paths)
}

/// The path of the log beside a journal.
pub(crate) fn log_of(rt: &HostRuntime, paths: &Paths) -> Result<String, Fail> {
    Ok(format!(in rt.alloc(); "{}-wal", paths.journal.as_str())?)
}

/// Gives the journal and its folder these modes.
pub(crate) fn set_modes(
    rt: &HostRuntime,
    paths: &Paths,
    file: u32,
    folder: u32,
) -> Result<(), Fail> {
    let (journal, kept) = (paths.journal.as_str(), paths.kept.as_str());
    fs::set_permissions(rt, journal, fs::Permissions::from_mode(file))?;
    Ok(fs::set_permissions(rt, kept, fs::Permissions::from_mode(folder))?)
}

/// Gives leave to all again.
pub(crate) fn give_leave(rt: &HostRuntime, paths: &Paths) -> Result<(), Fail> {
    let kept = fs::Permissions::from_mode(0o755);
    fs::set_permissions(rt, paths.kept.as_str(), kept)?;
    let journal = fs::Permissions::from_mode(0o644);
    Ok(fs::set_permissions(rt, paths.journal.as_str(), journal)?)
}

/// Removes the folder with all that is in it.
pub(crate) fn remove_files(rt: &HostRuntime, paths: &Paths) -> Result<(), Fail> {
    Ok(fs::remove_dir_all(rt, paths.folder.as_str())?)
}
