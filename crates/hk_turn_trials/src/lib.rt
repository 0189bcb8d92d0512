//! Trials of the turn lock, of the ready queue and of the deques, by callers with threads of their own.
#![tactic(auto)]

#[cfg(test)]
mod decks;
#[cfg(test)]
mod orders;
#[cfg(test)]
mod piles;
#[cfg(test)]
mod small;
