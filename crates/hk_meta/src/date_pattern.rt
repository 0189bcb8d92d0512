// Which texts are date patterns.
ghost use Rattle.std.specs.Prelude.{◌≡◌, false, nat_lt};
ghost use Rattle.std.specs.List.{list_all};
ghost use Rattle.hk_meta.specs.DatePattern as spec;

const MAX_PATTERN: usize = 256;

/// Whether `format_date` prints by this pattern: ASCII of at most 256 bytes, where each `%` begins `%Y`, `%m`, `%d`,
/// `%H`, `%M`, `%S`, `%e`, `%B`, `%b`, `%A`, `%a` or `%%`. Linear; takes no memory.
pub fn pattern_ok(pattern: &[u8]) -> bool
    ensures { result ≡ spec.pattern_ok pattern.now }
{
    if pattern.len() > MAX_PATTERN {
        return false;
    }
    is_ascii(pattern) && has_forms(pattern)
}

fn is_ascii(pattern: &[u8]) -> bool
    ensures { result ≡ list_all (λ c. nat_lt c 128) pattern.now }
{
    pattern.iter().all(|byte| *byte < 128)
}

fn has_forms(pattern: &[u8]) -> bool
    ensures { result ≡ spec.forms_from false pattern.now }
{
    let mut begun = false;
    for byte in pattern {
        if begun && !is_form(*byte) {
            return false;
        }
        begun = !begun && *byte == b'%';
    }
    !begun
}

fn is_form(letter: u8) -> bool
    ensures { result ≡ spec.is_form letter }
{
    matches!(
        letter,
        b'Y' | b'm' | b'd' | b'H' | b'M' | b'S' | b'e' | b'B' | b'b' | b'A' | b'a' | b'%'
    )
}
