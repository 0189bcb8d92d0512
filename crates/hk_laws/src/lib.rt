//! Laws that tell a wrong definition of the formats from the right one, in the words of their subjects.
#![tactic(auto)]

mod dates;
mod numbers;
mod routes;
mod scalars;
mod tags;
mod templates;
mod values;
mod wrong;

pub use dates::date_laws;
pub use numbers::number_laws;
pub use routes::route_laws;
pub use scalars::scalar_laws;
pub use tags::tag_laws;
pub use templates::template_laws;
pub use values::value_laws;
pub use wrong::wrong_definitions_break_laws;
