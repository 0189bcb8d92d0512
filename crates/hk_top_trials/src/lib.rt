//! Trials of the public calls of hk_words and hk_writer.
#![tactic(auto)]

#[cfg(test)]
mod site;
#[cfg(test)]
mod words;
