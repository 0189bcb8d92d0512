// Keys of fields and of templates.
ghost use Rattle.std.specs.Prelude.{◌≡◌};
ghost use Rattle.std.specs.List.{list_all};
ghost use Rattle.hk_base.specs.Key as spec;

const LONGEST: usize = 64;

/// Whether these bytes are a key: a letter or `_`, then letters, digits, `_`, `-` and `.`, with no `-` at the end, and
/// 64 bytes at most. Linear; takes no memory.
pub fn is_key(bytes: &[u8]) -> bool
    ensures { result ≡ spec.is_key bytes.now }
{
    begins_with_letter(bytes)
        && all_key_bytes(bytes)
        && !ends_with_dash(bytes)
        && bytes.len() <= LONGEST
}

fn all_key_bytes(bytes: &[u8]) -> bool
    ensures { result ≡ list_all spec.is_key_byte bytes.now }
{
    bytes.iter().all(|byte| is_key_byte(*byte))
}

fn is_letter(byte: u8) -> bool
    ensures { result ≡ spec.is_letter byte }
{
    byte.is_ascii_lowercase() || byte.is_ascii_uppercase() || byte == b'_'
}

fn is_key_byte(byte: u8) -> bool
    ensures { result ≡ spec.is_key_byte byte }
{
    is_letter(byte) || byte.is_ascii_digit() || byte == b'-' || byte == b'.'
}

fn begins_with_letter(bytes: &[u8]) -> bool
    ensures { result ≡ spec.begins_with_letter bytes.now }
{
    match bytes.first() {
        Some(byte) => is_letter(*byte),
        None => false,
    }
}

fn ends_with_dash(bytes: &[u8]) -> bool
    ensures { result ≡ spec.ends_with_dash bytes.now }
{
    match bytes.split_last() {
        Some((last, _)) => *last == b'-',
        None => false,
    }
}
