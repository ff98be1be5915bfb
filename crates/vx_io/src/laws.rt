//! Laws for the proofs of callers. These functions do nothing; their contracts are the laws. A body
//! that calls one has its laws among the facts of that call, and hands them to its lemmas.

ghost use Rattle.vx_io.specs.Laws.{AskedLaws, FaultLaws, PrefixLaws, TookFrontLaws, TookLaws};

/// Fronts of a text.
pub fn fronts_of_texts()
    ensures { PrefixLaws }
{}

/// What a sink has taken, text after text, and the front of the last.
pub fn texts_taken()
    ensures texts { TookLaws }
    ensures fronts { TookFrontLaws }
{}

/// What inputs were asked, some questions after others.
pub fn questions_asked()
    ensures { AskedLaws }
{}

/// A device's count of faults over calls in a row.
pub fn faults_counted()
    ensures { FaultLaws }
{}
