//! Trials of the commands through the whole program: each call of each device failing in turn, each input
//! missing in turn, and a count that is stopped at each append and run again; `count`, `decide` and `queue` with any number of workers,
//! sheets that are read side by side, what is refused, and a contest that waits; demos; what `center` writes,
//! keeps and refuses, and two scripts of it side by side. Nothing stands on it.
#![tactic(auto)]

#[cfg(test)]
mod asking;
#[cfg(test)]
mod center_failing;
#[cfg(test)]
mod center_gates;
#[cfg(test)]
mod center_histories;
#[cfg(test)]
mod center_refusals;
#[cfg(test)]
mod centers;
#[cfg(test)]
mod demos;
#[cfg(test)]
mod devices;
#[cfg(test)]
mod failing;
#[cfg(test)]
mod failing_fronts;
#[cfg(test)]
mod failing_stops;
#[cfg(test)]
mod failing_trials;
#[cfg(test)]
mod gates;
#[cfg(test)]
mod rows;
#[cfg(test)]
mod runs;
#[cfg(test)]
mod stops;
#[cfg(test)]
mod trial_gates;
#[cfg(test)]
mod trials;
