//! Laws of what `cards` tells. These functions do nothing; their contracts are the laws.

ghost use Rattle.vx_command_cards.specs.Laws.{FeedsAreLines, PlansCountHollow};

/// The characters that `cards` tells as hollow are those that the plan of a card counts as such.
pub fn hollow_boxes_are_those_of_plans()
    ensures { PlansCountHollow }
{}

/// The text of `cards` has as many line feeds as lines, whatever the names of an election are.
pub fn line_feeds_are_those_of_lines()
    ensures { FeedsAreLines }
{}
