//! The fixed parts of a page, each in pieces.

ghost use Rattle.std.specs.Prelude.{◌≡◌, ◌++◌, OnOk};
ghost use Rattle.std.specs.List.{flat_map};

use vx_base::{Bytes, OutOfMemory};

/// Adds pieces, one after the other.
pub fn push_pieces(text: &mut Bytes, pieces: &[&str]) -> Result<(), OutOfMemory>
    ensures { OnOk result (text.new ≡ text.old ++ flat_map (λ piece. piece.now) pieces.now) }
{
    for piece in pieces {
        text.extend_from_slice(piece.as_bytes())?;
    }
    Ok(())
}
