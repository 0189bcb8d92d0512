//! What a suspended compiler means, the fixpoint of its runs, and the histories of events that lead there.
#![tactic(auto)]

mod chains;
mod compiler;
mod confluence;
mod cycles;
mod deeds;
mod done;
mod ending;
mod event;
mod polled;
mod reported;
mod results;
mod sends;
mod still;

pub use chains::chains_keep_laws;
pub use compiler::{Compiler, Maker, laws, made};
pub use confluence::{every_order, kept_are_seeds, known_by_events, least_fixpoint};
pub use deeds::deeds_keep_laws;
pub use done::{done_items, ends_where_known};
pub use ending::report;
pub use event::Event;
pub use polled::Polled;
pub use reported::Report;
pub use results::{Outcome, Results};
pub use still::still_waiting;
