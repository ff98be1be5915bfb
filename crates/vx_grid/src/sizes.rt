/// Half the width and half the height of a thing: it has so many columns on each side of its centre
/// and so many rows above and below it.
#[derive(Clone, Copy, Debug, PartialEq, Eq)]
pub struct HalfSides {
    pub across: u32,
    pub down: u32,
}

/// A timing mark.
pub const MARK: HalfSides = HalfSides {
    across: 18,
    down: 6,
};

/// The box of a bubble.
pub const BUBBLE: HalfSides = HalfSides {
    across: 20,
    down: 13,
};

/// A box of the page code.
pub const CODE_BOX: HalfSides = HalfSides {
    across: 14,
    down: 10,
};

/// The reach of a window past its box.
const REACH: HalfSides = HalfSides { across: 8, down: 6 };

/// The window of a bubble: its box, grown by the reach on all sides.
pub const BUBBLE_WINDOW: HalfSides = HalfSides {
    across: BUBBLE.across + REACH.across,
    down: BUBBLE.down + REACH.down,
};

/// The window of a box of the page code: the box, grown by the reach on all sides.
pub const CODE_WINDOW: HalfSides = HalfSides {
    across: CODE_BOX.across + REACH.across,
    down: CODE_BOX.down + REACH.down,
};

/// The pixels of a bubble's printed outline.
pub const OUTLINE_PIXELS: u32 = 192;

/// The pixels inside a bubble's outline.
pub const INNER_PIXELS: u32 = 624;
