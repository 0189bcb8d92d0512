//! The pages of tags and the numbered pages: rules that create them, made of the tables of a rules file and of a plan.
#![tactic(auto)]

mod copying;
mod dates;
mod expanding;
mod growing;
mod members;
mod name_order;
mod piece_pages;
mod table_page;
mod tag_fault;
mod tag_pages;
mod tag_texts;
mod untabled;

pub use expanding::expand;
pub use tag_fault::TagFault;
pub use untabled::without_tables;
