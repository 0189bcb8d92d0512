//! Metadata: headers of files, companion files, and dates.
#![tactic(auto)]

mod answer;
mod date;
mod date_format;
mod date_pattern;
mod header;
mod joined;
mod line;
mod lines;
mod metadata;
mod reader;
mod scalar;

pub use answer::{HeaderFault, Split};
pub use date::{Moment, date_of, last_component};
pub use date_format::format_date;
pub use date_pattern::pattern_ok;
pub use header::{read_companion, split};
pub use metadata::{Metadata, merge};
