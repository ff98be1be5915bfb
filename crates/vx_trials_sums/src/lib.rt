//! Trials of sums: reports that are read back and summed, with a table of bad ones, and drawn adds and removes beside a
//! list that is summed anew; the rounds of ranked ballots, by hand and drawn, beside a second count; bounds of an audit's
//! risk. Nothing stands on it.
#![tactic(auto)]

#[cfg(test)]
mod bounds;
#[cfg(test)]
mod reports;
#[cfg(test)]
mod rounds_counting;
#[cfg(test)]
mod rounds_drawn;
#[cfg(test)]
mod rounds_plain;
#[cfg(test)]
mod rounds_worked;
#[cfg(test)]
mod tallies;
