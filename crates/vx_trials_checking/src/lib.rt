//! Trials of what commands say of their inputs, each command called alone: what `print`, `read` and `check` write
//! of worked rows, of texts that leave the form of readings and of each change of one number of a clean block;
//! what `decide` and `queue` write of scripts and broken journals, line by line; lines of words and what they are
//! read as. Nothing stands on it.
#![tactic(auto)]

#[cfg(test)]
mod changes;
#[cfg(test)]
mod decide_lines;
#[cfg(test)]
mod forms;
#[cfg(test)]
mod queue_lines;
#[cfg(test)]
mod scans;
#[cfg(test)]
mod spelled_words;
#[cfg(test)]
mod texts;
#[cfg(test)]
mod worked;
