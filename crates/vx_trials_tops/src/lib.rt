//! Trials of the top calls beside `run`, over devices in memory. Of `gray`: the worked rows, tiles and their
//! neighbours, inputs that leave the grammar. Of `ranked`: worked rows, files of ranked contests that are refused,
//! journals. Of `totals` and `audit`: the worked report and one of three records, what hands read that leaves its
//! form, inputs that aren't there or are too long. Of each, words that are none of its, and devices that fail.
#![tactic(auto)]

#[cfg(test)]
mod audit_faults;
#[cfg(test)]
mod audit_hands;
#[cfg(test)]
mod audit_reports;
#[cfg(test)]
mod audit_words;
#[cfg(test)]
mod audit_worked;
#[cfg(test)]
mod devices;
#[cfg(test)]
mod gray_faults;
#[cfg(test)]
mod gray_tiles;
#[cfg(test)]
mod gray_worked;
#[cfg(test)]
mod ranked_elections;
#[cfg(test)]
mod ranked_faults;
#[cfg(test)]
mod ranked_files;
#[cfg(test)]
mod ranked_worked;
