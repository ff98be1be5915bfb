//! Trials of `results`, `summary`, `sample`, `risk` and `board`: journals that were counted by hand, and that their texts are
//! what `totals` and `audit` write of their export; journals of other elections, and devices that fail. Nothing stands on
//! it.
#![tactic(auto)]

#[cfg(test)]
mod boarded;
#[cfg(test)]
mod devices;
#[cfg(test)]
mod drawing;
#[cfg(test)]
mod risks;
#[cfg(test)]
mod sampled;
#[cfg(test)]
mod summed;
#[cfg(test)]
mod worked;
