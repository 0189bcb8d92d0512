//! Workers that run compilers side by side, behind a turn lock and a ready queue or with deques from which they steal, and
//! rounds of polls that never wait.
#![tactic(auto)]

mod deques;
mod desk;
mod hiring;
mod key;
mod pool;
mod rest;
mod rounds;
mod stealing;
mod step;
mod thieving;
mod whole;
mod working;

pub use deques::{Owner, StealEnd, Thief};
pub use desk::{Desk, Pass, Ready, Seat, WorkerEnd};
pub use key::Key;
pub use pool::{open_desk, run_pool};
pub use rounds::run_rounds;
pub use stealing::{open_decks, run_steal};
pub use thieving::steal_worker;
pub use working::worker;
