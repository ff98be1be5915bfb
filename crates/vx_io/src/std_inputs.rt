ghost use Rattle.std.specs.Prelude.{◌≡◌, ◌<◌, ◌≤◌, None, IfOk, length, take, is_err, if◌then◌else◌};
ghost use Rattle.vx_io.specs.Fakes.{raised};
ghost use Rattle.vx_io.specs.Outside.{CountsFaults, IsSameBehind, IsSizeOf, ReadsFrom};

use crate::answers::{count_told, piece_of, size_of, size_told};
use crate::outside::{Failed, Inputs};
use crate::tally::count_fault;
use std::fs::OpenFile;
use std::io::{Read, Seek, SeekFrom};
use std::marker::Model;
use std::rt::Files;
use std::{fs, io};

/// Real files, by their paths. It tells nothing of what they hold, and counts a fault at each error.
#[derive(Drop)]
pub struct StdInputs<'r, R: Files> {
    rt: &'r R,
    faults: u64,
}

impl<'r, R: Files> Model for StdInputs<'r, R> {
    ghost use Rattle.std.specs.Prelude.{ℕ};

    ghost Value = { ℕ };

    ghost view = { λ inputs. inputs.faults };
}

impl<'r, R: Files> StdInputs<'r, R> {
    pub fn new(rt: &'r R) -> StdInputs<'r, R>
        ensures { result ≡ 0 }
    {
        StdInputs { rt, faults: 0 }
    }
}

/// The size of a regular file that can be opened. A path that leads to anything else isn't opened:
/// that could wait forever.
fn size_of_file<R: Files>(rt: &R, path: &str) -> io::Result<u64> {
    let _size = size_of(&fs::metadata(rt, path)?)?;
    let file = fs::open(rt, path)?;
    size_of(&file.metadata()?)
}

/// Reads a file from an offset on into the front of a buffer, as far as both reach, and answers how
/// many bytes.
fn read_file<R: Files>(rt: &R, path: &str, at: u64, buf: &mut [u8]) -> io::Result<usize>
    ensures within { IfOk result (λ count. count ≤ length buf.new) }
    ensures behind { IfOk result (λ count. IsSameBehind count buf.old buf.new) }
{
    let mut file = fs::open(rt, path)?;
    let piece = piece_of(buf.len(), file.metadata()?.len(), at);
    file.seek(SeekFrom::Start(piece.from))?;
    file.read_exact(&mut buf[..piece.count])?;
    Ok(piece.count)
}

impl<R: Files> Inputs for StdInputs<'_, R> {
    ghost held = { λ _. None };

    ghost faults = { λ inputs. inputs };

    ghost asked = { λ _. None };

    fn size(&mut self, name: &str) -> Result<Option<u64>, Failed>
        ensures size { IfOk result (IsSizeOf None name.now) }
        ensures cause { CountsFaults (is_err result) self.old self.new }
        ensures counted { self.new ≡ (if is_err result then raised self.old else self.old) }
    {
        let size = size_told(size_of_file(self.rt, name));
        count_fault(&mut self.faults, size.is_err());
        size
    }

    fn read(&mut self, name: &str, at: u64, buf: &mut [u8]) -> Result<usize, Failed>
        ensures within { IfOk result (λ count. (0 < count) × (count ≤ length buf.new)) }
        ensures read { IfOk result (λ count. ReadsFrom None name.now at (take count buf.new)) }
        ensures behind { IfOk result (λ count. IsSameBehind count buf.old buf.new) }
        ensures cause { CountsFaults (is_err result) self.old self.new }
        ensures counted { self.new ≡ (if is_err result then raised self.old else self.old) }
    {
        let count = count_told(read_file(self.rt, name, at, buf));
        count_fault(&mut self.faults, count.is_err());
        count
    }
}
