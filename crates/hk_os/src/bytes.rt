// Bytes from a reader, and to a writer.
ghost use Rattle.std.specs.Prelude.{◌≡◌, ◌↔◌, IfOk, IfSome, IsErrOf};
ghost use Rattle.std.specs.IoError.{error_kind};
ghost use Rattle.std.specs.Io.KnownBytes.{Keeps};
ghost use Rattle.hk_outside.specs.Sink.{Appends};
ghost use Rattle.hk_outside.specs.declared.tree.TreeFault.TheVariants.{NoMemory};

use hk_outside::TreeFault;
use std::alloc::Global;
use std::io;
use std::io::{ErrorKind, Read, Write};

/// How many turns a loop over the system's answers takes at most.
pub const TURNS: u64 = 1 << 40;

/// What an error of the system means for the caller.
pub fn fault_of(error: &io::Error) -> TreeFault
    ensures { (result ≡ NoMemory) ↔ (error_kind error.now ≡ ErrorKind.OutOfMemory) }
{
    if error.kind() == ErrorKind::OutOfMemory {
        TreeFault::NoMemory
    } else {
        TreeFault::Failed
    }
}

/// All bytes that a reader has left. Linear.
pub fn read_all<R: Read>(alloc: Global, reader: &mut R) -> Result<Vec<u8>, TreeFault>
    ensures { IfOk result (λ v. IfSome (R.remaining reader.old) (λ bytes. v.items ≡ bytes)) }
{
    let mut bytes = Vec::new(alloc);
    match reader.read_to_end(&mut bytes) {
        Ok(_) => Ok(bytes),
        Err(error) => Err(fault_of(&error)),
    }
}

/// Writes all of the bytes, or some first of them and answers `Failed`; it never answers `NoMemory`. Linear.
pub fn write_all<W: Write>(writer: &mut W, bytes: &[u8]) -> Result<(), TreeFault>
    ensures appends { Appends bytes.now (W.contents writer.old) (W.contents writer.new) result }
    ensures memory { ¬ (IsErrOf result NoMemory) }
{
    let mut at = 0;
    for _ in 0..TURNS {
        if at >= bytes.len() {
            return finish(writer);
        }
        match writer.write(&bytes[at..]) {
            Ok(0) => return Err(TreeFault::Failed),
            Ok(count) => at += count,
            Err(error) if error.kind() == ErrorKind::Interrupted => {}
            Err(_) => return Err(TreeFault::Failed),
        }
    }
    Err(TreeFault::Failed)
}

fn finish<W: Write>(writer: &mut W) -> Result<(), TreeFault>
    ensures keeps { Keeps (W.contents writer.old) (W.contents writer.new) }
    ensures memory { ¬ (IsErrOf result NoMemory) }
{
    match writer.flush() {
        Ok(()) => Ok(()),
        Err(_) => Err(TreeFault::Failed),
    }
}
