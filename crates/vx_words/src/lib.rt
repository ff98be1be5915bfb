//! The words of a command line: which command they spell, by position and spelling.
//!
//! The commands' names are a table, in `name.rt` and `specs/Names.antt`. Which words stand behind a name is
//! in `specs/Words.antt`, one line a command; moments in `specs/Moments.antt`, devices in
//! `specs/Devices.antt`, items in `specs/Items.antt`, seeds and sizes of samples and limits of risk in
//! `specs/Samples.antt`. `parse` answers Usage exactly where the words are no command. The words are split by
//! `clap`, whose command line is made of the table in `line.rt` and `specs/Line.antt`; each command is made of
//! the words behind its name in `making.rt` and `auditing.rt`, and decided without memory in `deciding.rt`.
#![tactic(auto)]

mod arguments;
mod auditing;
mod command;
mod deciding;
mod fault;
mod items;
mod kinds;
mod laws;
mod line;
mod making;
mod moment;
mod name;
mod parsing;
mod reading;
mod sample;
mod seed;

pub use command::{Command, ItemWord, ItemWords};
pub use fault::UsageFault;
pub use laws::words_spell_one_command;
pub use parsing::parse;
pub use sample::{risk_limit, sample_seed, sample_size};
