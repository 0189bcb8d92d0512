// Identifiers: their refusals and their printing.
use crate::row::shown;
use hk_base::{Identifier, Shared};
use std::alloc::Global;
use std::test::Fail;

/// An identifier as it is printed, by way of a second owner and a copy, or its fault.
pub fn identifier(alloc: Global, path: &[u8], version: Option<&[u8]>) -> Result<String, Fail> {
    match Identifier::read(alloc, path, version) {
        Ok(id) => printed(alloc, id),
        Err(refusal) => Ok(format!(in alloc; "{refusal:?}")?),
    }
}

fn printed(alloc: Global, id: Identifier) -> Result<String, Fail> {
    let id = Shared::new(alloc, id)?;
    let other = id.try_clone()?.get().copy(alloc)?;
    Ok(shown(alloc, other.print(alloc)?.as_slice())?)
}
