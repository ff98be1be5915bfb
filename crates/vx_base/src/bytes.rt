ghost use Rattle.std.specs.Prelude.{◌≡◌, ◌++◌, if◌then◌else◌, is_ok, IfOk};

use crate::list::ListOf;
use std::alloc::{AllocError, Global};

/// A list of bytes.
pub type Bytes = ListOf<u8>;

impl ListOf<u8> {
    /// A copy of a slice.
    pub fn from_slice(alloc: Global, items: &[u8]) -> Result<Self, AllocError>
        ensures { IfOk result (λ bytes. bytes ≡ items.now) }
    {
        Ok(ListOf::from_vec(Vec::from_slice(alloc, items)?))
    }

    /// Adds a copy of a slice at the end. After want of memory the bytes are as before.
    pub fn extend_from_slice(&mut self, more: &[u8]) -> Result<(), AllocError>
        ensures { self.new ≡ (if is_ok result then self.old ++ more.now else self.old) }
    {
        self.items.extend_from_slice(more)
    }
}
