//! The walk of the commands that read their journal and write one text of what it keeps.
//!
//! `Account` is such a text: what it says of the kept events of an election, and how it is made. `give_account` does a
//! command that writes one: it takes the election, reads the journal and writes the text, which is `account_outcome` in
//! `specs/Outcome.antt`. It appends nothing. A command is then a type with its text and a call of `give_account`.
#![tactic(auto)]

mod account;
mod giving;

pub use account::Account;
pub use giving::give_account;
