// The count of faults of a folder or a sink of the system.
ghost use Rattle.std.specs.Prelude.{◌≡◌, ◌+◌, ◌-◌, ◌^◌, min, is_err, if◌then◌else◌};
ghost use Rattle.hk_outside.specs.Causes.{HasCause};

use hk_outside::TreeFault;

/// The count after a call with this answer: one more after each fault and each want of memory, but for the last number of
/// the type.
pub fn counted<T>(faults: u64, answer: &Result<T, TreeFault>) -> u64
    ensures value { result ≡ (if is_err answer.now then min (faults + 1) (2 ^ 64 - 1) else faults) }
    ensures cause { HasCause faults result answer.now }
{
    match answer {
        Ok(_) => faults,
        Err(_) => faults.saturating_add(1),
    }
}
