//! Laws of what is found. These functions do nothing; their contracts are the laws.

ghost use Rattle.vx_margin.specs.Laws.{TimingMarksAreMarks, ImagesHaveNoDeficit, AcceptedHaveLowDeficits, CoresBetweenMarksAreLight, LowDeficitsLieNear, AcceptedBelong, NextMarksAreExpected, BordersAreFound, ChainsLieAtMarks, CornerChainsLieAtMarks, GridPlacesLieNear, WindowsLieBetween, WindowsHold, FollowedAreChains, TurnedChainsLieAtMarks, TurnedWindowsHold};

/// The timing marks of a page are those at its border points.
pub fn timing_marks_are_marks()
    ensures { TimingMarksAreMarks }
{}

/// Without flips nothing is wrong at the image of a mark's centre, so in the scan no more is than its flips.
pub fn images_have_no_deficit()
    ensures { ImagesHaveNoDeficit }
{}

/// An accepted place that is seen in the frame zone has a low deficit without the flips.
pub fn accepted_places_have_low_deficits()
    ensures { AcceptedHaveLowDeficits }
{}

/// A core that meets two marks has light pixels between them.
pub fn cores_between_marks_are_light()
    ensures { CoresBetweenMarksAreLight }
{}

/// A place with a low deficit that isn't far from a mark's image lies near it.
pub fn low_deficits_lie_near()
    ensures { LowDeficitsLieNear }
{}

/// An accepted place that is seen in the frame zone belongs to a timing mark.
pub fn accepted_places_belong()
    ensures { AcceptedBelong }
{}

/// From a place at a mark the next mark is expected near its image.
pub fn next_marks_are_expected()
    ensures { NextMarksAreExpected }
{}

/// In a scan that shows its marks the border is found.
pub fn borders_are_found()
    ensures { BordersAreFound }
{}

/// A chain of accepted places that begins at the first mark lies at the marks.
pub fn chains_lie_at_marks()
    ensures { ChainsLieAtMarks }
{}

/// A chain of accepted places that begins where a corner may be begins at the first mark, and lies at the
/// marks.
pub fn corner_chains_lie_at_marks()
    ensures { CornerChainsLieAtMarks }
{}

/// A grid place between places at the marks lies near the image of its grid point.
pub fn grid_places_lie_near()
    ensures { GridPlacesLieNear }
{}

/// A window near the image of a grid point holds the image of its box, and shows only its zone.
pub fn windows_lie_between()
    ensures { WindowsLieBetween }
{}

/// So it counts what its box has and nothing but its zone, but for the flips.
pub fn windows_hold()
    ensures { WindowsHold }
{}

/// Followed places are a chain.
pub fn followed_places_are_chains()
    ensures { FollowedAreChains }
{}

/// Where a scan turned by 180 degrees shows a page's marks, a chain that begins where a corner may be lies
/// at the marks of the turned page.
pub fn turned_chains_lie_at_marks()
    ensures { TurnedChainsLieAtMarks }
{}

/// And a window at a grid place between them holds no more than the zone at the other end of the paper.
pub fn turned_windows_hold()
    ensures { TurnedWindowsHold }
{}
