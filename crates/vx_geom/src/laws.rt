//! Laws of slants, for proofs that stand on this crate.

ghost use Rattle.vx_geom.specs.Laws.{SlantsAreBijections, SlantsMoveNearby, SlantsAreRigid, SlantsMoveNearlyAsAWhole, SlantsConserveCounts};
ghost use Rattle.vx_geom.specs.Back.{SlantsMoveBackNearlyAsAWhole};

/// Each way of a slant undoes the other.
pub fn slants_are_bijections()
    ensures { SlantsAreBijections }
{}

/// Columns of the paper that lie near each other are moved down alike, and rows of the scan to the
/// right.
pub fn slants_move_nearby()
    ensures { SlantsMoveNearby }
{}

/// A slant moves a small rectangle almost rigidly.
pub fn slants_are_rigid()
    ensures { SlantsAreRigid }
{}

/// A slant moves at most 64 by 64 pixels of the paper as a whole, but for one pixel in each direction.
pub fn slants_move_nearly_as_a_whole()
    ensures { SlantsMoveNearlyAsAWhole }
{}

/// The way back moves at most 64 by 64 pixels of the scan as a whole, but for one pixel in each direction.
pub fn slants_move_back_nearly_as_a_whole()
    ensures { SlantsMoveBackNearlyAsAWhole }
{}

/// A slant conserves counts.
pub fn slants_conserve_counts()
    ensures { SlantsConserveCounts }
{}
