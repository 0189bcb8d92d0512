// The texts of pages: links and addresses.
use crate::row::shown;
use hk_html::{links, url_of};
use std::alloc::Global;
use std::fmt::Write;
use std::test::Fail;

pub fn linked(alloc: Global, body: &[u8]) -> Result<String, Fail> {
    let mut text = String::new(alloc);
    for link in &links(alloc, body)? {
        write!(text, "[{}]", shown(alloc, link.as_slice())?)?;
    }
    Ok(text)
}

pub fn url(alloc: Global, target: &[u8]) -> Result<String, Fail> {
    Ok(shown(alloc, url_of(alloc, target)?.as_slice())?)
}
