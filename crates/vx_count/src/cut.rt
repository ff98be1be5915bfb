ghost use Rattle.std.specs.Prelude.{◌≡◌, ◌≤◌};
ghost use Rattle.vx_grid.specs.Places.{IsWithin};
ghost use Rattle.vx_count.specs.Cut.{IsCut, frame_before};

/// The columns, or the rows, of a rectangle that lie in a frame.
#[derive(Clone, Copy)]
pub(crate) struct Cut {
    /// The first of them.
    pub first: u32,
    /// How many there are.
    pub count: u32,
}

/// How many of a frame's columns, or rows, lie before a place.
fn before(place: i32, frame: u32) -> u32
    ensures { result ≡ frame_before place frame }
{
    if place < 0 {
        0
    } else {
        (place as u32).min(frame)
    }
}

/// Cuts the `size` columns, or rows, from `from` on at a frame that has `frame` of them.
pub(crate) fn cut_at_frame(from: i32, size: u32, frame: u32) -> Cut
    requires from { IsWithin 10000 from }
    requires size { size ≤ 4096 }
    ensures { IsCut from size frame result.first result.count }
{
    let first = before(from, frame);
    Cut {
        first,
        count: before(from + size as i32, frame) - first,
    }
}
