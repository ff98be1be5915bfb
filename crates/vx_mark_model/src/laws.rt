//! Laws of corners, of best places, of followed lists and of borders. These functions do nothing; their
//! contracts are the laws.

ghost use Rattle.vx_mark_model.specs.Best.{BestPlaceIsOne};
ghost use Rattle.vx_mark_model.specs.Corner.{CornerIsOne};
ghost use Rattle.vx_mark_model.specs.Laws.{AcceptedAreFramed, CornerIsFollowed, FollowedGrows, FollowedIsSame, FollowedIsOne, BorderIsOne};

/// A scan has one corner at most.
pub fn the_corner_is_one()
    ensures { CornerIsOne }
{}

/// There is one best place near another at most.
pub fn the_best_place_is_one()
    ensures { BestPlaceIsOne }
{}

/// An accepted place lies in the frame.
pub fn accepted_places_are_framed()
    ensures { AcceptedAreFramed }
{}

/// The corner alone is followed, a followed list grows by the best place near where its next mark is
/// expected, whatever list it is kept in, and each list that begins with its places is followed as far.
pub fn a_list_is_followed()
    ensures corner { CornerIsFollowed }
    ensures grows { FollowedGrows }
    ensures same { FollowedIsSame }
{}

/// Two followed lists of the same number of marks have the same places: so a scan has one border at
/// most, and one first mark that isn't found, and one answer.
pub fn borders_are_one()
    ensures followed { FollowedIsOne }
    ensures answer { BorderIsOne }
{
    the_corner_is_one();
    the_best_place_is_one();
}
