ghost use Rattle.std.specs.Prelude.{◌≡◌, ◌<◌, Some, length, slice_get, take};
ghost use Rattle.vx_grid.specs.Marks.{marks as marks_of};

use crate::paper::Paper;
use crate::places::Point;
use std::marker::Model;

/// The places of a scan's timing marks, in the order of the marks, and the paper that has them.
#[derive(Debug, Drop)]
pub struct Border {
    paper: Paper,
    places: [Point; 168],
}

impl Model for Border {
    ghost use Rattle.std.specs.Prelude.{take};
    ghost use Rattle.vx_grid.specs.Marks.{marks};
    ghost use Rattle.vx_grid.specs.Borders.{MarkPlaces};

    ghost Value = { MarkPlaces };

    ghost view = { λ a. record { paper = a.paper; places = take (marks a.paper) a.places } };
}

impl Border {
    /// The border of these places, whatever they are: as many as the paper has marks.
    pub fn new(paper: Paper, places: [Point; 168]) -> Border
        ensures { result ≡ record { paper = paper; places = take (marks_of paper) places } }
    {
        Border { paper, places }
    }

    /// The place of timing mark `k`, below the paper's number of marks.
    pub fn at(&self, k: u32) -> Point
        requires { k < marks_of self.now.paper }
        ensures place { slice_get self.now.places k ≡ Some result }
        ensures all { length self.now.places ≡ marks_of self.now.paper }
    {
        self.places[k as usize]
    }

    /// The paper whose marks these are.
    pub fn paper(&self) -> Paper
        ensures { result ≡ self.now.paper }
    {
        self.paper
    }
}
