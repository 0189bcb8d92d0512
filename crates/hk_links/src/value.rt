// Which values of links stay inside the site, and the paths in them.
ghost use Rattle.std.specs.Prelude.{◌≡◌, ◌≤◌, length};
ghost use Rattle.std.specs.List.{prefix_len};
ghost use Rattle.hk_html.specs.Kind.{after_run};
ghost use Rattle.hk_links.specs.Value as spec;

/// Whether the value leads to a place inside the site: it begins with neither `//` nor a scheme. Linear in a scheme.
pub fn is_internal(value: &[u8]) -> bool
    ensures { result ≡ spec.is_internal value.now }
{
    !(value.starts_with(b"//") || has_scheme(value))
}

/// Whether the value begins with an ASCII letter, and then ASCII letters, digits, `+`, `-` and `.` up to a `:`.
fn has_scheme(value: &[u8]) -> bool
    ensures { result ≡ spec.has_scheme value.now }
{
    first(value).is_ascii_alphabetic() && first(after_scheme(value)) == b':'
}

fn after_scheme(value: &[u8]) -> &[u8]
    ensures { result.now ≡ after_run spec.is_scheme_byte value.now }
{
    &value[scheme_len(value)..]
}

/// How many bytes of a scheme the value begins with. Linear in that.
fn scheme_len(value: &[u8]) -> usize
    ensures value { result ≡ prefix_len spec.is_scheme_byte value.now }
    ensures bound { result ≤ length value.now }
{
    value
        .iter()
        .take_while(|byte| is_scheme_byte(**byte))
        .count()
}

fn is_scheme_byte(byte: u8) -> bool
    ensures { result ≡ spec.is_scheme_byte byte }
{
    byte.is_ascii_alphanumeric() || byte == b'+' || byte == b'-' || byte == b'.'
}

/// The first byte, or NUL of no bytes.
fn first(text: &[u8]) -> u8
    ensures { result ≡ spec.first text.now }
{
    if text.is_empty() { 0 } else { text[0] }
}

/// What stands before the first `#`, and of that what stands before the first `?`. Linear.
pub fn path_of(value: &[u8]) -> &[u8]
    ensures { result.now ≡ spec.path_of value.now }
{
    before(before(value, b'#'), b'?')
}

fn before(text: &[u8], mark: u8) -> &[u8]
    ensures { result.now ≡ spec.before mark text.now }
{
    &text[..len_before(text, mark)]
}

/// How many bytes stand before the first such byte, or all. Linear in that.
fn len_before(text: &[u8], mark: u8) -> usize
    ensures value { result ≡ prefix_len (spec.is_other mark) text.now }
    ensures bound { result ≤ length text.now }
{
    text.iter().take_while(|byte| **byte != mark).count()
}
