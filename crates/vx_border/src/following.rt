ghost use Rattle.std.specs.Prelude.{◌≡◌, ◌-◌, IfOk, OnOk, IfErr, length};
ghost use Rattle.vx_grid.specs.Paper.{last_row as last_row_of};
ghost use Rattle.vx_grid.specs.Marks.{marks_to};
ghost use Rattle.vx_grid.specs.Places.{AreWithin, point_at};
ghost use Rattle.vx_mark_model.specs.Border.{IsLack, IsBorderOf};
ghost use Rattle.vx_mark_model.specs.Corner.{IsCorner};
ghost use Rattle.vx_mark_model.specs.Following.{right_end_of, AreAllFollowed};

use vx_count::Counter;
use vx_grid::{Border, Paper, Point, marks};
use vx_mark::{best_near, first_corner};
use vx_mark_model::{
    BorderFault, a_list_is_followed, accepted_places_are_framed, expected, first_left, index_of,
    is_near, leader_of, right_of, side_of,
};

/// Finds the marks after the corner, each from the mark that leads to it.
fn follow(counter: &Counter, paper: Paper, places: &mut [Point]) -> Result<(), BorderFault>
    requires all { length places.old ≡ 168 }
    requires corner { IsCorner counter.now (point_at places.old 0) }
    ensures all { length places.new ≡ 168 }
    ensures found { OnOk result (AreAllFollowed paper counter.now places.new) }
    ensures lacks { IfErr result (IsLack paper counter.now) }
{
    // For the proof alone: what this call's clause says of the page.
    let _width = counter.width();
    let _height = counter.height();
    accepted_places_are_framed();
    a_list_is_followed();
    for k in 1..marks(paper) {
        let predicted = expected(paper, k, places[leader_of(paper, k) as usize]);
        match best_near(counter, predicted) {
            Some(place) => places[k as usize] = place,
            None => {
                let (side, index) = (side_of(paper, k), index_of(paper, k));
                return Err(BorderFault::NoMark(side, index, predicted));
            }
        }
    }
    Ok(())
}

/// The place of the last mark of the bottom row.
fn bottom_end(paper: Paper, places: &[Point]) -> Point
    requires { length places.now ≡ 168 }
    ensures { result ≡ point_at places.now (marks_to (last_row_of paper) - 1) }
{
    places[marks(paper) as usize - 1]
}

/// The place of the last mark of the right column.
fn right_end(paper: Paper, places: &[Point]) -> Point
    requires { length places.now ≡ 168 }
    ensures { result ≡ right_end_of (last_row_of paper) places.now }
{
    places[first_left(paper) as usize - 1]
}

/// Follows the border of a scan of this paper: its marks from the corner along the top row, down
/// the right column, down the left column and along the bottom row, which has to lead to the end of
/// the right column. There are 146 of them, or 168 on legal paper.
pub fn trace(counter: &Counter, paper: Paper) -> Result<Border, BorderFault>
    ensures border { IsBorderOf paper counter.now result }
    ensures within { IfOk result (λ border. AreWithin 9000 border.places) }
{
    // For the proof alone: what this call's clause says of the page.
    let _width = counter.width();
    let _height = counter.height();
    accepted_places_are_framed();
    a_list_is_followed();
    let Some(corner) = first_corner(counter) else {
        return Err(BorderFault::NoCorner);
    };
    let mut places = [corner; 168];
    follow(counter, paper, &mut places)?;
    let end = right_of(bottom_end(paper, &places));
    let found = right_end(paper, &places);
    if is_near(end, found) {
        Ok(Border::new(paper, places))
    } else {
        Err(BorderFault::OpenBorder(end, found))
    }
}
