//! Templates: their grammar, read and printed.
#![tactic(auto)]

mod cut;
mod fault;
mod frame;
mod key;
mod laws;
mod node;
mod parser;
mod print;
mod reader;
mod template;
mod token;
mod trim;

pub use fault::TemplateFault;
pub use laws::grammar_laws;
pub use node::Node;
pub use print::print_template;
pub use reader::parse;
pub use template::Template;
