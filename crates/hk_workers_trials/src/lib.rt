//! Trials of the workers: runs by several threads, polls that meet at a gate, and what one worker leaves or steals.
#![tactic(auto)]

#[cfg(test)]
mod desks;
#[cfg(test)]
mod gates;
#[cfg(test)]
mod meetings;
#[cfg(test)]
mod runs;
#[cfg(test)]
mod thefts;
