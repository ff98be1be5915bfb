//! Laws for those that start threads and call a shared center. These functions do nothing; their
//! contracts are the laws.

ghost use denote.Ref.{NamedLft};
ghost use denote.Param.Send.{IsSend, IsSync};
ghost use Rattle.vx_shared.specs.Laws.{
  FirstAddsAreDone,
  HistoriesInterleave,
  InterleavingsAreWhole,
  ListsHaveHistories,
  NothingIsMade,
};
ghost use Rattle.vx_shared.specs.contracts.sharing.SharedCenter.{the_row};

use crate::pass::Pass;
use vx_center::{same_keys_are_equal, sheets_come_in_order};

/// Threads may share a center and hand it over, whatever the lifetime of its election.
pub fn center_is_shared()
    ensures shared { (lifetime : NamedLft) → IsSync (the_row lifetime) }
    ensures handed { (lifetime : NamedLft) → IsSend (the_row lifetime) }
{}

fn handed<T: Send>() {}

/// Threads may hand a pass over.
pub fn pass_is_handed() {
    handed::<Pass>();
}

/// At first nothing is made with a pass; and where a pass that had made no call before has made all calls
/// of a history, of some lists, the events of the history interleave these lists.
pub fn passes_gain_their_calls()
    ensures nothing { NothingIsMade }
    ensures interleaved { HistoriesInterleave }
{}

/// Whatever was kept, lists of events have a legal history whose events interleave them: that of one list
/// behind the other.
pub fn lists_have_histories()
    ensures { ListsHaveHistories }
{}

/// Where events interleave lists, each event of each list comes, each that comes is of one of them, and no
/// more come than the lists have.
pub fn interleavings_are_whole()
    ensures { InterleavingsAreWhole }
{}

/// A call that adds a sheet under a new key is Done somewhere in its history, where the history adds no other
/// sheet under that key and there is room for all of its events.
pub fn first_adds_are_done()
    ensures { FirstAddsAreDone }
{
    sheets_come_in_order();
    same_keys_are_equal();
}
