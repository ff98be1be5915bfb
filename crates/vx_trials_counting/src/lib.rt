//! Trials of counting: a second machine, written plainly, that looks through the kept events from the front
//! at each question, answers as the center does over histories that are drawn; whole reports beside those
//! that another program made; journals that are read or stopped; sheets of two readings. Nothing stands on it.
#![tactic(auto)]

#[cfg(test)]
mod alike;
#[cfg(test)]
mod drawing;
#[cfg(test)]
mod finals;
#[cfg(test)]
mod histories;
#[cfg(test)]
mod journals;
#[cfg(test)]
mod machine;
#[cfg(test)]
mod reports;
#[cfg(test)]
mod sheets;
#[cfg(test)]
mod worked;
