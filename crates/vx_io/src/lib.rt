//! The outside as three traits, and what stands behind them.
//!
//! `Inputs` are named files, a `Sink` takes bytes, a `Keeper` keeps records. Each means what it
//! holds, told or not told, and a count of faults: in a call that answers `Failed` the count rises,
//! in any other it stands still. Inputs mean what they were asked as well, told or not told.
//! `MemInputs`, `MemSink` and `MemKeeper` hold everything in memory and fail at the listed calls and
//! at no other, but that a full sink fails too; `StdInputs` and `StdSink` are the real files and the
//! real standard output. `take` reads an input whole and `give` writes a text whole. `Words` are the
//! words of a command.
//!
//! The definitions stand in `specs/`: `Outside.antt` has what the outside holds and what a call
//! counts, `Asking.antt` what inputs are asked, `Take.antt` what `take` may answer, `Fakes.antt` and
//! `Keeping.antt` which calls fail in memory and what a call leaves, `Real.antt` what is asked of a
//! real file and what the system's answers are told as. `Laws.antt` has the laws for callers, which
//! the functions of `laws` promise: fronts of a text, what was taken text after text, counts of
//! faults, questions one after the other.
#![tactic(auto)]

mod answers;
mod giving;
mod laws;
mod lists;
mod mem_inputs;
mod mem_keeper;
mod mem_sink;
mod outside;
mod std_inputs;
mod std_sink;
mod taking;
mod tally;
mod words;

pub use giving::give;
pub use laws::{faults_counted, fronts_of_texts, questions_asked, texts_taken};
pub use lists::{Calls, KeeperCalls, NamedBytes, Records};
pub use mem_inputs::MemInputs;
pub use mem_keeper::MemKeeper;
pub use mem_sink::MemSink;
pub use outside::{Failed, Inputs, Keeper, KeeperError, Sink};
pub use std_inputs::StdInputs;
pub use std_sink::StdSink;
pub use taking::{TakeFault, take, take_reusing};
pub use tally::count_fault;
pub use words::Words;
