//! The call `run_audit`: the totals of a report, and its comparison with paper ballots that hands have read.
//!
//! `totals_text` is what `totals` writes of a report: `totals_text` in `specs/Totals.antt`, by the sums of
//! `vx_tally`, of which alone `sums_text` writes the same. For an audit `draw_sample` draws records by the words of a
//! generator, `sample_of` in `specs/Sample.antt`; `read_hand` reads what hands have read, `hand_of` in
//! `specs/Hand.antt`; and `audit_text` compares the two, contest by contest, by `specs/Pairs.antt` and
//! `specs/Audit.antt`. Nothing here says anything of the risk that an election's outcome is wrong.
//!
//! Neither needs a report, where there is none: `read_hand_by` wants contests and a `Directory`, which is given the
//! ballots' ids one after another, `specs/Finding.antt`; and `Findings` take the drawn records one at a time,
//! `specs/Found.antt`. `specs/Laws.antt` says that hands are read alike by whatever finds each ballot at its place.
//!
//! `run_audit` does the commands `totals` and `audit`, whole. What they do is `asked_outcome` in
//! `specs/Outcome.antt`, acts in order and the status that they end with; which words ask for which stands in
//! `specs/Words.antt`, the numbers and lines of their statuses in `specs/Status.antt`, how far their acts are
//! done when the call answers in `specs/Done.antt`. Acts, and how they break off, are those of `vx_command`.
#![tactic(auto)]

mod asking;
mod comparing;
mod drawing;
mod finding;
mod hand;
mod laws;
mod lines;
mod marks;
mod naming;
mod places;
mod reading;
mod sample;
mod status;
mod taking;
mod top;
mod totals;
mod units;
mod words;
mod writing;

pub use comparing::{Findings, audit_text};
pub use finding::{Directory, drop_directory};
pub use hand::{Hand, HandFault, HandLine, drop_hand};
pub use laws::{ballots_are_found_in_order, hands_are_read_alike};
pub use lines::{read_hand, read_hand_by};
pub use reading::read_sized;
pub use sample::{Places, draw_places, draw_sample};
pub use status::{AuditMessage, AuditStatus};
pub use top::run_audit;
pub use totals::{sums_text, totals_of, totals_text};
