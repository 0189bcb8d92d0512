// What a build takes of the cache.
ghost use Rattle.std.specs.Prelude.{◌≡◌, [], Ok, Err, IfOk, IfSome};
ghost use Rattle.std.specs.FinMap.{get};
ghost use Rattle.hk_outside.specs.Causes.{HasCause};
ghost use Rattle.hk_store.specs.Stored.{IsStored};
ghost use Rattle.hk_store.specs.StoreText.{sealed, store_text};
ghost use Rattle.hk_app.specs.Standing.{store_path};
ghost use Rattle.hk_app.specs.Taking as spec;
ghost use Rattle.hk_app.specs.Taking.{IsReadOf, IsTakenOf};
ghost use Rattle.hk_app.specs.TakenBy.{taken_by};

use crate::taken::Taken;
use hk_base::{NoMemory, Refusal, Text};
use hk_outside::{Tree, TreeFault};
use hk_store::{StoreDamage, Stored, read_store};
use hk_texts::damage_line;
use std::alloc::Global;

impl Taken {
    /// No entries, and nothing to say.
    pub fn nothing(alloc: Global) -> Result<Taken, NoMemory>
        ensures nothing { IfOk result (λ t. taken_by t ≡ spec.nothing) }
        ensures stored { IfOk result (λ t. IsStored t.stored) }
    {
        Ok(Taken {
            stored: nothing_stored(alloc),
            damage: Text::from_slice(alloc, b"")?,
            bytes: None,
        })
    }
}

/// A store without entries.
pub fn nothing_stored(alloc: Global) -> Stored
    ensures { result ≡ [] }
{
    Stored {
        entries: Vec::new(alloc),
    }
}

/// What the cache holds as `store`: its entries, none where it is absent, and none with a line where it is damaged. One
/// read; linear in the bytes.
pub fn take_store<C: Tree>(alloc: Global, cache: &mut C) -> Result<Taken, TreeFault>
    ensures taken { IfSome (C.files cache.old) (λ m. IfOk result (λ t. IsTakenOf (get m store_path) (taken_by t))) }
    ensures stored { IfOk result (λ t. IsStored t.stored) }
    ensures same { C.files cache.new ≡ C.files cache.old }
    ensures cause { HasCause (C.faults cache.old) (C.faults cache.new) result }
{
    match cache.read(alloc, b"store")? {
        Some(bytes) => Ok(taken_of(alloc, bytes)?),
        None => Ok(Taken::nothing(alloc)?),
    }
}

/// The entries of a store's bytes.
fn taken_of(alloc: Global, bytes: Vec<u8>) -> Result<Taken, NoMemory>
    ensures taken { IfOk result (λ t. IsReadOf bytes.items (taken_by t)) }
    ensures stored { IfOk result (λ t. IsStored t.stored) }
{
    match read_store(alloc, &bytes) {
        Ok(stored) => whole(alloc, stored, bytes),
        Err(Refusal::Fault(damage)) => damaged(alloc, &damage),
        Err(Refusal::NoMemory) => Err(NoMemory),
    }
}

/// The entries of a store with the bytes that they were read from.
fn whole(alloc: Global, stored: Stored, bytes: Vec<u8>) -> Result<Taken, NoMemory>
    requires stored { IsStored stored }
    requires bytes { bytes.items ≡ sealed (store_text stored) }
    ensures taken { IfOk result (λ t. taken_by t ≡ spec.taken_of (Ok stored)) }
    ensures stored { IfOk result (λ t. IsStored t.stored) }
{
    let damage = Text::from_slice(alloc, b"")?;
    Ok(Taken {
        stored,
        damage,
        bytes: Some(Text::from_vec(bytes)),
    })
}

/// No entries, and the line of the damage.
fn damaged(alloc: Global, damage: &StoreDamage) -> Result<Taken, NoMemory>
    ensures taken { IfOk result (λ t. taken_by t ≡ spec.taken_of (Err damage.now)) }
    ensures stored { IfOk result (λ t. IsStored t.stored) }
{
    Ok(Taken {
        stored: nothing_stored(alloc),
        damage: damage_line(alloc, damage)?,
        bytes: None,
    })
}
