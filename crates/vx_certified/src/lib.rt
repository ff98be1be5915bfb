//! What stands over whole commands: `check` accepts what `read` wrote of a file of scans, and `demo` says nothing but
//! that all its pages were read as they were printed and marked, and that all readings were certified. There is no
//! work here; the contracts are laws.
//!
//! `specs/Sayable.antt` says that what is read can be said in a text of readings, and `specs/Certified.antt` what `check`
//! does of what `read` wrote: a line for each image. What a demo says stands in `specs/Truth.antt`. It rests on three
//! laws: a simulated scan fits its page (`vx_simulate`), a scan that fits is read as it was printed and marked
//! (`vx_scan_model`), and what a scan is read as is a certificate of it (`vx_scan_model`), which `check` accepts
//! (`vx_check`).
#![tactic(auto)]

mod demo;
mod readings;

pub use demo::{demo_has_three_cards, demo_pages_are_true, demo_says_so, demos_say_so};
pub use readings::{faults_are_one_line, readings_are_sayable, written_readings_are_certified};
