ghost use Rattle.std.specs.Prelude.{◌≡◌, ◌≤◌, ◌∷◌, ◌++◌, [], length, OnOk, string_bytes};
ghost use Rattle.vx_command_cards.specs.Lines.{GotLines, ended};

use std::alloc::Global;
use vx_base::OutOfMemory;

/// Lines as one text, and how many they are.
#[derive(Drop)]
pub(crate) struct Lines {
    pub(crate) text: String,
    pub(crate) count: usize,
}

/// Adds a line with its end.
fn push_ended(text: &mut String, line: &str) -> Result<(), OutOfMemory>
    ensures { OnOk result (string_bytes text.new ≡ string_bytes text.old ++ ended line.now) }
{
    write!(text, "{line}\n")
}

impl Lines {
    /// No lines.
    pub(crate) fn new(alloc: Global) -> Lines
        ensures text { string_bytes result.text ≡ [] }
        ensures count { result.count ≡ 0 }
    {
        Lines {
            text: String::new(alloc),
            count: 0,
        }
    }

    /// Adds a line, and its end.
    pub(crate) fn push(&mut self, line: &str) -> Result<(), OutOfMemory>
        requires { self.old.count ≤ length (string_bytes self.old.text) }
        ensures lines { OnOk result (GotLines (line.now ∷ [])
            (string_bytes self.old.text) (string_bytes self.new.text) self.old.count self.new.count) }
        ensures room { OnOk result (self.new.count ≤ length (string_bytes self.new.text)) }
    {
        push_ended(&mut self.text, line)?;
        self.count += 1;
        Ok(())
    }
}
