//! The commands `sample` and `risk`: records of a journal that a seed draws, beside what hands read of their ballots.
//!
//! Both take an election, read its journal, take what hands read of its sheets, and write a text: `drawn_outcome` in
//! `specs/Drawn.antt`. Which text is `text_asked` in `specs/Asked.antt`. They make the records of the journal one at a
//! time, so none is in memory but those that are looked at: beside the journal they take its records' ids.
//!
//! `sample` compares each drawn record with what hands read, `sample_outcome` in `specs/SampleOutcome.antt`, which is
//! `audit` over what the report of the journal's events says. What is drawn, read and compared stands in `vx_audit`.
//!
//! `risk` says of each contest how strong the evidence is that such a sample gives of its outcome, `risk_outcome` in
//! `specs/RiskOutcome.antt`. A contest stands by the votes of the records, `specs/Standing.antt`; its selections are
//! `sides_of` in `specs/Sides.antt`. Each draw of the sample, with replacement, says by how many votes its record
//! overstates the contest's margin, `specs/Said.antt` and `specs/Findings.antt`. What that bounds the risk by is
//! `vx_risk`'s; `specs/Rows.antt` has what is told of each contest and `specs/Text.antt` its lines.
//!
//! Neither appends anything.
#![tactic(auto)]

mod asking;
mod commands;
mod comparing;
mod finding;
mod laws;
mod reading;
mod rows;
mod said;
mod sides;
mod standing;
mod telling;
mod walking;
mod weighing;
mod writing;

pub use commands::{risk, sample};
pub use laws::{
    each_draw_counts, larger_samples_begin_alike, margin_is_the_least_lead, met_is_the_bound,
};
