//! Trials over several crates, and those that need the text of an election. Nothing stands on it.
#![tactic(auto)]

#[cfg(test)]
mod elections;
#[cfg(test)]
mod layouts;
#[cfg(test)]
mod margins;
#[cfg(test)]
mod outside;
#[cfg(test)]
mod painting;
#[cfg(test)]
mod readings;
#[cfg(test)]
mod town;
