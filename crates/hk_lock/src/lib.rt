//! A lock that hands a value from turn to turn, always lawful for the key of its seats.
#![tactic(auto)]

mod lawful;
mod rule;
mod seat;
mod turn_lock;
mod view;

pub use lawful::Lawful;
pub use seat::Seat;
pub use turn_lock::TurnLock;
pub use view::View;
