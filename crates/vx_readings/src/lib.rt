//! The text of readings, both ways: what is written of a page that was read, and what a text of readings
//! says.
//!
//! What is written stands in `specs/ReadingText.antt`: a block of lines for a reading, a line for a fault.
//! What a text says, or its first line that leaves the grammar, is `readings_of` in
//! `specs/Readings.antt`; the forms of its lines stand in `specs/Lines.antt`. A `ReadingsReader` gives one page
//! after another, exactly by them. That what is written is read back is the law
//! `written_readings_are_read_back`.
#![tactic(auto)]

mod block;
mod border;
mod bubbles;
mod fault;
mod head;
mod laws;
mod lines;
mod numbers;
mod reader;
mod said;
mod words;
mod writing;

pub use fault::ReadingsFault;
pub use laws::written_readings_are_read_back;
pub use reader::ReadingsReader;
pub use said::{BubbleName, SaidPage, SaidReading};
pub use writing::{push_block, push_fault};
