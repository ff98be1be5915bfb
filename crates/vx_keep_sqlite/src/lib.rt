//! The journal's records in a file that SQLite reads.
//!
//! `SqliteKeeper` is a keeper over one table, `journal(place INTEGER PRIMARY KEY, body BLOB NOT
//! NULL)`, `place` the record's index from 0. It tells nothing of what the file holds; its clauses
//! speak of its faults: they are counted in the call that meets one, and after the first each later
//! call is refused as one more. Want of memory is told from them and counts none.
//!
//! A record is one transaction, on the disk when `append` answers: the file is in SQLite's mode
//! `journal_mode = wal` with `synchronous = FULL`. New records stand in the log beside the file,
//! whose name ends in `-wal`, until they are copied into it: both belong together.
//!
//! A keeper that `reading` makes takes no record: the file and its log are read into memory, while nobody
//! writes them, and nothing is written to them or beside them (`sealed.rt`, `shelf.rt`). What SQLite is
//! asked stands in `statements.rt` and `specs/Statements.antt`.
#![tactic(auto)]

mod file;
mod keeper;
mod refusal;
mod sealed;
mod shelf;
mod statements;
mod table;

pub use keeper::{SqliteKeeper, drop_keeper};
