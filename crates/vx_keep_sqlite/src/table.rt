ghost use Rattle.std.specs.Prelude.{◌≡◌, ◌+ℤ◌, pos, IfOk, OnErr, OnOk};

use crate::statements::{copy_record, count_records, insert_record, make_table};
use sqlite::{Alter, Connection, Error, ErrorCode};
use std::marker::Model;
use vx_base::Bytes;

/// The connection to an open file, and how many records its table has, which is all that is seen of it.
#[derive(Drop)]
pub(crate) struct Table<S: Alter> {
    connection: Connection<S>,
    records: i64,
}

impl<S: Alter> Model for Table<S> {
    ghost use Rattle.std.specs.Prelude.{ℤ};

    ghost Value = { ℤ };

    ghost view = { λ table. table.records };
}

/// Makes the table where it isn't there, and counts its records.
pub(crate) fn begin<S: Alter>(connection: &mut Connection<S>) -> Result<i64, Error> {
    make_table(connection)?;
    count_records(connection)
}

impl<S: Alter + Drop> Table<S> {
    /// The table of an open file.
    pub(crate) fn over(mut connection: Connection<S>) -> Result<Table<S>, Error> {
        match begin(&mut connection) {
            Ok(records) => Ok(Table {
                connection,
                records,
            }),
            Err(error) => Err(error),
        }
    }
}

/// A count of records, where it is one.
pub(crate) fn count_of(records: i64) -> Result<u64, Error>
    ensures { IfOk result (λ count. pos count ≡ records) }
{
    match u64::try_from(records) {
        Ok(count) => Ok(count),
        Err(_) => Err(Error::SqliteFailure(ErrorCode::DatabaseCorrupt)),
    }
}

/// The place of a record, which no table has where it is above the greatest.
fn place_of(index: u64) -> Result<i64, Error>
    ensures { IfOk result (λ place. place ≡ pos index) }
{
    match i64::try_from(index) {
        Ok(place) => Ok(place),
        Err(_) => Err(Error::QueryReturnedNoRows),
    }
}

/// The count with one record more.
fn one_more(records: i64) -> Result<i64, Error>
    ensures { IfOk result (λ more. more ≡ records +ℤ pos 1) }
{
    match records.checked_add(1) {
        Some(more) => Ok(more),
        None => Err(Error::SqliteFailure(ErrorCode::NoRowid)),
    }
}

impl<S: Alter> Table<S> {
    /// How many records there are.
    pub(crate) fn count(&self) -> Result<u64, Error>
        ensures { IfOk result (λ count. pos count ≡ self.now) }
    {
        count_of(self.records)
    }

    /// Copies the record at an index behind what is there.
    pub(crate) fn fetch(&mut self, index: u64, into: &mut Bytes) -> Result<(), Error>
        ensures { self.new ≡ self.old }
    {
        let place = place_of(index)?;
        copy_record(&mut self.connection, place, into)
    }

    /// Adds a record at the end, in a transaction of its own. It is counted where that is done.
    pub(crate) fn append(&mut self, body: &[u8]) -> Result<(), Error>
        ensures counted { OnOk result (self.new ≡ self.old +ℤ pos 1) }
        ensures as_before { OnErr result (self.new ≡ self.old) }
    {
        let next = one_more(self.records)?;
        insert_record(&mut self.connection, self.records, body)?;
        self.records = next;
        Ok(())
    }
}
