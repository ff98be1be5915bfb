ghost use Rattle.std.specs.Prelude.{◌≡◌, ◌+◌, ◌<◌, ◌/◌, ◌%◌, ℕ, length, ◌≢◌};
ghost use Rattle.std.specs.Int.{bit_at};
ghost use Rattle.vx_plane.specs.Count.{one_if};
ghost use Rattle.vx_bits.specs.Packed.{IsSameElsewhere, packed_pixel, stride_of};

/// The number of bytes of a packed row of `width` pixels.
pub(crate) fn stride(width: u32) -> usize
    ensures { result ≡ stride_of width }
{
    (width as usize + 7) / 8
}

/// Whether the pixel `x` of the packed row that begins at byte `start` is dark.
pub(crate) fn is_dark(rows: &[u8], start: usize, x: u32) -> bool
    requires { start + x / 8 < length rows.now }
    ensures { result ≡ packed_pixel rows.now start x }
{
    let byte = rows[start + (x / 8) as usize];
    (byte >> (7 - x % 8)) & 1 == 1
}

/// The byte with its bit `index`, from 0 for the lowest, set for dark and cleared for light.
fn with_bit(byte: u8, index: u32, dark: bool) -> u8
    requires { index < 8 }
    ensures same { bit_at result index ≡ one_if dark }
    ensures others { (i : ℕ) → i < 8 → i ≢ index → bit_at result i ≡ bit_at byte i }
{
    let bit = 1u8 << index;
    if dark { byte | bit } else { byte & !bit }
}

/// Makes the pixel `x` of the packed row that begins at byte `start` dark or light.
pub(crate) fn put(rows: &mut [u8], start: usize, x: u32, dark: bool)
    requires { start + x / 8 < length rows.old }
    ensures same { packed_pixel rows.new start x ≡ dark }
    ensures others { IsSameElsewhere rows.old rows.new start x }
{
    let at = start + (x / 8) as usize;
    let byte = with_bit(rows[at], 7 - x % 8, dark);
    rows[at] = byte;
}
