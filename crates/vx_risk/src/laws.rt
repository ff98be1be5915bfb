//! Laws of the bound and of the draws that are enough. These functions do nothing; their contracts
//! are the laws.

ghost use Rattle.vx_risk.specs.Laws.{MillionthsAreRoundedUp, OrderIsNothing, MoreNeverHelps, DrawsNeverHurt, EnoughIsLeast};

/// The millionths are at least the bound, and less than the bound and one millionth; a bound of more
/// than one is told as one.
pub fn millionths_are_rounded_up()
    ensures { MillionthsAreRoundedUp }
{}

/// The bound depends on how many draws overstate by one vote and by two, and not on their order.
pub fn order_is_nothing()
    ensures { OrderIsNothing }
{}

/// One more overstatement never makes the bound less.
pub fn more_never_helps()
    ensures { MoreNeverHelps }
{}

/// A draw without an overstatement never makes the bound greater.
pub fn draws_never_hurt()
    ensures { DrawsNeverHurt }
{}

/// With as many draws as are enough the limit is met where none overstates, with more too, and with
/// fewer it isn't.
pub fn enough_is_least()
    ensures { EnoughIsLeast }
{}
