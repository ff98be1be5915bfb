//! The ballot page's grid: where the timing marks and the grid points stand on either paper, how
//! large marks, bubbles and code boxes are, and the small words of marks, sides and kinds that every
//! other crate uses.
//!
//! A page is 1700 pixels wide at 200 pixels an inch, and 2200 or 2800 pixels high. Grid columns are 0
//! to 33, and rows 0 to 40 or 51. A timing mark stands at each border point of the grid. Each number
//! stands once, in `specs/Paper.antt`, `Grid.antt`, `Sizes.antt`, `Marks.antt` and `Regions.antt`.
#![tactic(auto)]

mod border;
mod kind;
mod lines;
mod numbers;
mod paper;
mod places;
mod side;
mod sizes;
mod state;

pub use border::Border;
pub use kind::{Kind, kind_word};
pub use lines::{
    FIRST_CONTEST_ROW, centre_x, centre_y, contest_rows, first_code_row, foot_row, x_of, y_of,
};
pub use numbers::{MOST_MARKS, mark_of, marks};
pub use paper::{PAGE_WIDTH, Paper, last_row, page_height};
pub use places::{Point, Rect, bubble_window, code_window};
pub use side::Side;
pub use sizes::{BUBBLE, CODE_BOX, HalfSides, INNER_PIXELS, MARK, OUTLINE_PIXELS};
pub use state::{State, States, Thresholds};
