ghost use Rattle.std.specs.Prelude.{◌≡◌, [], true, IfOk, IfSome};
ghost use Rattle.vx_events.specs.Ascending.{is_ascending};

use std::alloc::Global;
use std::marker::Model;
use vx_base::OutOfMemory;

/// A set of options of a contest, by their numbers from 0, in ascending order. Contracts see the
/// list of the numbers.
#[derive(Debug, Drop)]
pub struct Options {
    numbers: Vec<u32>,
}

impl Model for Options {
    ghost use Rattle.std.specs.Prelude.{◌≡◌, List, ℕ, true};
    ghost use Rattle.vx_events.specs.Ascending.{is_ascending};

    ghost Value = { List ℕ };

    ghost view = { λ options. options.numbers.items };

    ghost invariant = { λ options. is_ascending options.numbers.items ≡ true };
}

impl Options {
    /// No options; takes no memory.
    pub fn new(alloc: Global) -> Self
        ensures { result ≡ [] }
    {
        Options {
            numbers: Vec::new(alloc),
        }
    }

    /// The options of these numbers, which ascend; takes no memory.
    pub fn from_ascending(numbers: Vec<u32>) -> Self
        requires { is_ascending numbers.items ≡ true }
        ensures { result ≡ numbers.items }
    {
        Options { numbers }
    }

    /// The numbers, lent.
    pub fn as_slice(&self) -> &[u32]
        ensures value { result.now ≡ self.now }
        ensures ascending { is_ascending self.now ≡ true }
    {
        self.numbers.as_slice()
    }

    /// An equal value.
    pub fn copy(&self, alloc: Global) -> Result<Options, OutOfMemory>
        ensures { IfOk result (λ copy. copy ≡ self.now) }
    {
        Ok(Options {
            numbers: Vec::from_slice(alloc, self.numbers.as_slice())?,
        })
    }
}
