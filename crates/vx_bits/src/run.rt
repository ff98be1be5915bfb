ghost use Rattle.std.specs.Prelude.{◌≡◌, ◌+◌, ◌-◌, ◌*◌, ◌<◌, ◌≤◌, ◌/◌, ◌&&◌, ◌||◌, nat_le, nat_lt, ℕ, length, slice_set, slice_index, bit_or};
ghost use Rattle.vx_bits.specs.Packed.{packed_pixel};
ghost use Rattle.vx_bits.specs.Runs.{IsMask, IsRun};

/// Columns of a packed row, from `left` on and before `right`, with the bits of their first byte from
/// `left` on and those of their last byte before `right`.
#[derive(Clone, Copy)]
pub(crate) struct Run {
    pub(crate) left: u32,
    pub(crate) right: u32,
    first_bits: u8,
    last_bits: u8,
}

/// The byte of which the pixels from index `first` on and before index `last` are dark.
fn mask(first: u32, last: u32) -> u8
    requires order { first < last }
    requires end { last ≤ 8 }
    ensures { IsMask result first last }
{
    let above = 1u32 << (8 - first);
    let below = 1u32 << (8 - last);
    (above - below) as u8
}

impl Run {
    /// The columns from `left` on and before `right`.
    pub(crate) fn new(left: u32, right: u32) -> Run
        requires { left < right }
        ensures run { IsRun result }
        ensures left { result.left ≡ left }
        ensures right { result.right ≡ right }
    {
        let first = left / 8 * 8;
        let last = (right - 1) / 8 * 8;
        Run {
            left,
            right,
            first_bits: mask(left - first, 8),
            last_bits: mask(0, right - last),
        }
    }
}

/// Makes the pixels of the byte at an index dark that a mask has.
fn add_bits(rows: &mut [u8], at: usize, bits: u8)
    requires { at < length rows.old }
    ensures { rows.new ≡ slice_set rows.old at (bit_or (slice_index rows.old at) bits) }
{
    rows[at] |= bits;
}

/// Makes the pixels of a run dark, eight at a time, in the packed row that begins at byte `start`.
pub(crate) fn darken_run(rows: &mut [u8], start: usize, run: Run)
    requires run { IsRun run }
    requires inside { start + (run.right - 1) / 8 < length rows.old }
    ensures { (other x : ℕ) → packed_pixel rows.new other x ≡ (packed_pixel rows.old other x
        || (nat_le (8 * start + run.left) (8 * other + x) && nat_lt (8 * other + x) (8 * start + run.right))) }
{
    let first = start + (run.left / 8) as usize;
    let last = start + ((run.right - 1) / 8) as usize;
    if first == last {
        add_bits(rows, first, run.first_bits & run.last_bits);
        return;
    }
    add_bits(rows, first, run.first_bits);
    for k in first + 1..last {
        add_bits(rows, k, 0xff);
    }
    add_bits(rows, last, run.last_bits);
}
