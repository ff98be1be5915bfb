//! Trials of texts that are read: definitions of elections, with each refusal at each member; and the records of a
//! journal, its header among them, against a second grammar that is written plainly here. Nothing stands on it.
#![tactic(auto)]

#[cfg(test)]
mod grammar;
#[cfg(test)]
mod records;
#[cfg(test)]
mod refusals;
#[cfg(test)]
mod spellings;
#[cfg(test)]
mod words;
