//! The forms of the values of a rules file: names, identifiers, patterns and routes.
#![tactic(auto)]

mod id_form;
mod members;
mod names;
mod pattern_form;
mod pattern_text;
mod route_form;

pub use id_form::{id_of, paths_listed, version_of};
pub use members::{both, items_in, only, only_in, table_in, text_in, two, value_at};
pub use names::{is_context_name, is_snapshot_name};
pub use pattern_form::pattern_of;
pub use pattern_text::text_of_pattern;
pub use route_form::route_of;
