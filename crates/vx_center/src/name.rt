ghost use Rattle.std.specs.Prelude.{◌≡◌, ◌≤◌, length};
ghost use Rattle.vx_center.specs.Sheets.{key_of};
ghost use Rattle.vx_center.specs.States.{name_of_key};

use vx_events::Key;

/// A key as one value of a fixed size, so that a sheet is looked for without memory.
#[derive(Clone, Copy, Debug, PartialEq, Eq, Hash)]
pub(crate) struct SheetName {
    /// The batch's bytes, with zeros up to 32.
    batch: [u8; 32],
    /// How many bytes the batch has.
    size: usize,
    number: u32,
}

impl SheetName {
    /// The name of the sheet of a batch, which has at most 32 bytes, with a number.
    pub(crate) fn new(batch: &str, number: u32) -> SheetName
        requires { length batch.now ≤ 32 }
        ensures { result ≡ name_of_key (key_of batch.now number) }
    {
        let bytes = batch.as_bytes();
        let mut padded = [0; 32];
        padded[..bytes.len()].copy_from_slice(bytes);
        SheetName {
            batch: padded,
            size: bytes.len(),
            number,
        }
    }

    /// The name of a key whose batch has at most 32 bytes.
    pub(crate) fn of_key(key: &Key) -> SheetName
        requires { length key.now.batch ≤ 32 }
        ensures { result ≡ name_of_key key.now }
    {
        SheetName::new(key.batch.as_str(), key.number)
    }
}
