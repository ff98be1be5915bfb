//! The records of a file that is only read.

use crate::refusal::refusal;
use crate::statements::copy_record;
use crate::table::{begin, count_of};
use sqlite::{Alter, Connection, Error, ErrorCode};
use std::alloc::{AllocError, Global};
use vx_base::Bytes;
use vx_io::KeeperError;

/// Records one behind the other, and where each ends. The table may count more: the first that can't be
/// read ends them.
#[derive(Drop)]
pub(crate) struct Shelf {
    bytes: Bytes,
    ends: Vec<usize>,
    records: i64,
}

/// Where an unreadable record ends what is read. Want of memory does not.
fn stopped(error: Error) -> Result<(), Error> {
    match refusal(error) {
        KeeperError::OutOfMemory => Err(Error::SqliteFailure(ErrorCode::OutOfMemory)),
        KeeperError::Failed => Ok(()),
    }
}

/// Copies the records of a table, as far as they can be read.
fn read_all<S: Alter>(connection: &mut Connection<S>, shelf: &mut Shelf) -> Result<(), Error> {
    for place in 0..shelf.records {
        if let Err(error) = copy_record(connection, place, &mut shelf.bytes) {
            return stopped(error);
        }
        shelf.end()?;
    }
    Ok(())
}

impl Shelf {
    /// The records of an open file.
    fn of<S: Alter>(alloc: Global, connection: &mut Connection<S>) -> Result<Shelf, Error> {
        let mut shelf = Shelf {
            bytes: Bytes::new(alloc),
            ends: Vec::new(alloc),
            records: begin(connection)?,
        };
        read_all(connection, &mut shelf)?;
        Ok(shelf)
    }

    /// The records of an open file, which is let go.
    pub(crate) fn over<S: Alter + Drop>(
        alloc: Global,
        mut connection: Connection<S>,
    ) -> Result<Shelf, Error> {
        Shelf::of(alloc, &mut connection)
    }

    /// Ends a record where the bytes end.
    fn end(&mut self) -> Result<(), AllocError> {
        self.ends.push(self.bytes.as_slice().len())?;
        Ok(())
    }

    /// How many records the table has.
    pub(crate) fn count(&self) -> Result<u64, Error> {
        count_of(self.records)
    }

    /// Where the record at an index begins.
    fn start(&self, index: usize) -> usize {
        if index == 0 || index > self.ends.len() {
            0
        } else {
            self.ends[index - 1]
        }
    }

    /// Copies the record at an index behind what is there.
    pub(crate) fn fetch(&self, index: u64, into: &mut Bytes) -> Result<(), Error> {
        let index = index as usize;
        if index >= self.ends.len() {
            return Err(Error::QueryReturnedNoRows);
        }
        let (from, to) = (self.start(index), self.ends[index]);
        let bytes = self.bytes.as_slice();
        if from <= to && to <= bytes.len() {
            Ok(into.extend_from_slice(&bytes[from..to])?)
        } else {
            Err(Error::SqliteFailure(ErrorCode::DatabaseCorrupt))
        }
    }
}
