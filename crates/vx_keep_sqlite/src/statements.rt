//! What the journal's file is asked, a statement a function, and what its answers are told as.

ghost use Rattle.std.specs.Prelude.{ℕ, List, ◌≡◌, ◌↔◌, ◌++◌, [], ◌∷◌, Ok, IfOk, IsOk, IsTrue, OnOk, false};
ghost use Rattle.sqlite.specs.Held.{state};
ghost use Rattle.sqlite.specs.State.{Executes, HasCleanDisk, QueriesRow};
ghost use Rattle.sqlite_value.specs.Order.{Row as RowOf, column};
ghost use Rattle.sqlite_value.specs.declared.value.Value.TheVariants.{Blob, Int};
ghost use Rattle.vx_keep_sqlite.specs.Statements.{body_text, count_text, insert_text, table_text};

use sqlite::types::ValueRef;
use sqlite::{Alter, Connection, Error, ErrorCode, Row, params};
use vx_base::Bytes;

#[tactic(auto, unfolding(crate::specs::Statements::table_text))]
fn table_text() -> &'static str
    ensures { result.now ≡ table_text }
{
    "CREATE TABLE IF NOT EXISTS journal (place INTEGER PRIMARY KEY, body BLOB NOT NULL)"
}

#[tactic(auto, unfolding(crate::specs::Statements::count_text))]
fn count_text() -> &'static str
    ensures { result.now ≡ count_text }
{
    "SELECT count(*) FROM journal"
}

#[tactic(auto, unfolding(crate::specs::Statements::body_text))]
fn body_text() -> &'static str
    ensures { result.now ≡ body_text }
{
    "SELECT body FROM journal WHERE place = ?1"
}

#[tactic(auto, unfolding(crate::specs::Statements::insert_text))]
fn insert_text() -> &'static str
    ensures { result.now ≡ insert_text }
{
    "INSERT INTO journal (place, body) VALUES (?1, ?2)"
}

/// Makes the table where it isn't there.
pub(crate) fn make_table<S: Alter>(connection: &mut Connection<S>) -> Result<(), Error> {
    connection.execute(table_text(), &[])?;
    Ok(())
}

/// The row of a query that gives one.
fn row_of_count<S: Alter>(connection: &mut Connection<S>) -> Result<Row, Error>
    ensures { HasCleanDisk (state S.Store connection.new) →
        QueriesRow count_text [] (state S.Store connection.old) (state S.Store connection.new) result }
{
    connection.query_row(count_text(), &[])
}

/// How many records the table has.
pub(crate) fn count_records<S: Alter>(connection: &mut Connection<S>) -> Result<i64, Error>
    ensures { IfOk result (λ count. HasCleanDisk (state S.Store connection.new) → (row : RowOf) ×
        QueriesRow count_text [] (state S.Store connection.old) (state S.Store connection.new) (Ok row) × (column row 0 ≡ Int count)) }
{
    row_of_count(connection)?.get(0)
}

/// The row of the record at a place.
fn row_at<S: Alter>(connection: &mut Connection<S>, place: i64) -> Result<Row, Error>
    ensures { HasCleanDisk (state S.Store connection.new) →
        QueriesRow body_text (Int place ∷ []) (state S.Store connection.old) (state S.Store connection.new) result }
{
    connection.query_row(body_text(), params![place])
}

/// Copies the body that a row shows behind what is there.
fn copy_body(row: &Row, into: &mut Bytes) -> Result<(), Error>
    ensures { OnOk result ((body : List ℕ) × (column row.now 0 ≡ Blob body) × (into.new ≡ into.old ++ body)) }
{
    match row.get_ref(0)? {
        ValueRef::Blob(body) => Ok(into.extend_from_slice(body)?),
        _ => Err(Error::SqliteFailure(ErrorCode::DatabaseCorrupt)),
    }
}

/// Copies the record at a place behind what is there.
pub(crate) fn copy_record<S: Alter>(
    connection: &mut Connection<S>,
    place: i64,
    into: &mut Bytes,
) -> Result<(), Error>
    ensures { OnOk result (HasCleanDisk (state S.Store connection.new) → (row : RowOf) × (body : List ℕ) ×
        QueriesRow body_text (Int place ∷ []) (state S.Store connection.old) (state S.Store connection.new) (Ok row)
        × (column row 0 ≡ Blob body) × (into.new ≡ into.old ++ body)) }
{
    let row = row_at(connection, place)?;
    copy_body(&row, into)
}

/// Whether a record is kept: exactly one row was added, and no transaction is left open, in which it
/// would stand until that ends.
fn is_kept(rows: usize, is_committed: bool) -> Result<(), Error>
    ensures { IsOk result ↔ ((rows ≡ 1) × IsTrue is_committed) }
{
    if rows == 1 && is_committed {
        Ok(())
    } else {
        Err(Error::SqliteFailure(ErrorCode::TransactionState))
    }
}

/// Adds a record at a place, in a transaction of its own.
pub(crate) fn insert_record<S: Alter>(
    connection: &mut Connection<S>,
    place: i64,
    body: &[u8],
) -> Result<(), Error>
    ensures runs { OnOk result (HasCleanDisk (state S.Store connection.new) →
        Executes insert_text (Int place ∷ Blob body.now ∷ []) (state S.Store connection.old) (state S.Store connection.new) (Ok 1)) }
    ensures ended { OnOk result (connection.new.in_transaction ≡ false) }
{
    let rows = connection.execute(insert_text(), params![place, body])?;
    is_kept(rows, connection.is_autocommit())
}
