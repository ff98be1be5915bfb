ghost use Rattle.std.specs.Prelude.{◌≡◌, IfOk};

use std::alloc::Global;
use vx_base::OutOfMemory;
use vx_json::Text;

/// What a sheet is known by: the batch that it was scanned in, and its number there.
#[derive(Debug, Drop)]
pub struct Key {
    /// 1 to 32 of the characters `A-Z a-z 0-9 _ -`.
    pub batch: Text,
    /// 1 to 999,999.
    pub number: u32,
}

impl Key {
    /// An equal value.
    pub fn copy(&self, alloc: Global) -> Result<Key, OutOfMemory>
        ensures { IfOk result (λ copy. copy ≡ self.now) }
    {
        Ok(Key {
            batch: self.batch.copy(alloc)?,
            number: self.number,
        })
    }
}
