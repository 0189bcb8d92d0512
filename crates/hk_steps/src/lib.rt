//! The steps and the fields of a rules file, with the contexts and the patterns that they name not yet numbered.
#![tactic(auto)]

mod draft;
mod field_form;
mod list_form;
mod step_form;

pub use draft::{DraftField, DraftStep, Drafts};
pub use field_form::{context_fields, copy_by, key_by};
pub use list_form::{count_of, order_or, pattern_by, snapshot_or_final, text_at};
pub use step_form::{chain_by, default_name};
