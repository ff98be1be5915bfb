//! Inputs in memory that put down what they are asked.

ghost use Rattle.std.specs.Prelude.{◌≡◌, ◌<◌, ◌≤◌, None, Some, IfOk, length, take, is_err};
ghost use Rattle.vx_io.specs.Fakes.{files_of};
ghost use Rattle.vx_io.specs.Outside.{CountsFaults, IsSameBehind, IsSizeOf, IsThere, ReadsFrom};

use std::alloc::{AllocError, Global};
use vx_io::{Failed, Inputs, MemInputs};

/// Inputs in memory, and a line for each call: `size NAME`, or `read NAME AT`. A line for which there is no
/// memory is missing.
#[derive(Drop)]
pub struct HeardInputs {
    alloc: Global,
    inputs: MemInputs,
    heard: String,
}

impl HeardInputs {
    /// Nothing was asked yet.
    pub fn new(alloc: Global, inputs: MemInputs) -> HeardInputs {
        HeardInputs {
            alloc,
            inputs,
            heard: String::new(alloc),
        }
    }

    /// The lines of all calls so far.
    pub fn heard(&self) -> &str {
        self.heard.as_str()
    }
}

/// Adds the line of a question for a size.
fn push_size(alloc: Global, heard: &mut String, name: &str) -> Result<(), AllocError> {
    let line = format!(in alloc; "size {name}\n")?;
    heard.push_str(line.as_str())
}

/// Adds the line of a reading.
fn push_read(alloc: Global, heard: &mut String, name: &str, at: u64) -> Result<(), AllocError> {
    let line = format!(in alloc; "read {name} {at}\n")?;
    heard.push_str(line.as_str())
}

impl Inputs for HeardInputs {
    ghost held = { λ heard. Some (files_of heard.inputs.files) };

    ghost faults = { λ heard. heard.inputs.tally.faults };

    ghost asked = { λ _. None };

    fn size(&mut self, name: &str) -> Result<Option<u64>, Failed> {
        let _ = push_size(self.alloc, &mut self.heard, name);
        self.inputs.size(name)
    }

    fn read(&mut self, name: &str, at: u64, buf: &mut [u8]) -> Result<usize, Failed> {
        let _ = push_read(self.alloc, &mut self.heard, name, at);
        self.inputs.read(name, at, buf)
    }
}

/// The lines where each of these inputs is asked for its size and then read in one piece from its front, one input
/// after another.
pub fn asked_in_order(alloc: Global, names: &[&str]) -> Result<String, AllocError> {
    let mut lines = String::new(alloc);
    for name in names {
        push_size(alloc, &mut lines, name)?;
        push_read(alloc, &mut lines, name, 0)?;
    }
    Ok(lines)
}
