// The names that a rules file gives: of snapshots and of contexts.
ghost use Rattle.std.specs.Prelude.{◌≡◌};
ghost use Rattle.std.specs.List.{list_all, slice_get};
ghost use Rattle.hk_forms.specs.Names as spec;

fn is_letter(byte: u8) -> bool
    ensures { result ≡ spec.is_letter byte }
{
    (65 <= byte && byte <= 90) || (97 <= byte && byte <= 122)
}

fn is_name_byte(byte: u8) -> bool
    ensures { result ≡ spec.is_name_byte byte }
{
    (is_letter(byte) || (48 <= byte && byte <= 57)) || (byte == b'_' || byte == b'-')
}

fn are_name_bytes(text: &[u8]) -> bool
    ensures { result ≡ list_all spec.is_name_byte text.now }
{
    text.iter().all(|byte| is_name_byte(*byte))
}

/// Whether the text is the name of a context. Linear.
pub fn is_context_name(text: &[u8]) -> bool
    ensures { result ≡ spec.is_context_name text.now }
{
    (1 <= text.len() && text.len() <= 64) && are_name_bytes(text)
}

fn begins_snapshot(text: &[u8]) -> bool
    ensures { result ≡ spec.begins_snapshot (slice_get text.now 0) }
{
    match text.get(0) {
        Some(byte) => *byte != b'_',
        None => false,
    }
}

/// Whether the text is the name of a snapshot. Linear.
pub fn is_snapshot_name(text: &[u8]) -> bool
    ensures { result ≡ spec.is_snapshot_name text.now }
{
    begins_snapshot(text) && is_context_name(text)
}
