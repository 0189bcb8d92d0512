// Kinds of bytes and runs of them.
ghost use Rattle.std.specs.Prelude.{◌≡◌, ◌<◌, ◌≤◌, length};
ghost use Rattle.std.specs.List.{prefix_len};
ghost use Rattle.std.specs.Str.{str_eq_ignore_ascii_case};
ghost use Rattle.hk_html.specs.Kind as spec;

/// Whether the byte is a space, a tab, an LF, a CR or a form feed.
pub fn is_white(byte: u8) -> bool
    ensures { result ≡ spec.is_white byte }
{
    byte == b' ' || byte == b'\t' || byte == b'\n' || byte == b'\r' || byte == 12
}

pub fn is_tag_byte(byte: u8) -> bool
    ensures { result ≡ spec.is_tag_byte byte }
{
    !(is_white(byte) || byte == b'/' || byte == b'>')
}

pub fn is_attribute_byte(byte: u8) -> bool
    ensures { result ≡ spec.is_attribute_byte byte }
{
    !(is_white(byte) || byte == b'/' || byte == b'>' || byte == b'=')
}

pub fn is_value_byte(byte: u8) -> bool
    ensures { result ≡ spec.is_value_byte byte }
{
    !(is_white(byte) || byte == b'>')
}

/// How much white the text begins with. Linear in that.
pub fn white_len(text: &[u8]) -> usize
    ensures value { result ≡ prefix_len spec.is_white text.now }
    ensures bound { result ≤ length text.now }
{
    text.iter().take_while(|byte| is_white(**byte)).count()
}

/// How long the name of a tag is with which the text begins. Linear in that.
pub fn tag_name_len(text: &[u8]) -> usize
    ensures value { result ≡ prefix_len spec.is_tag_byte text.now }
    ensures bound { result ≤ length text.now }
{
    text.iter().take_while(|byte| is_tag_byte(**byte)).count()
}

/// How many bytes of an attribute's name the text begins with. Linear in that.
pub fn attribute_name_len(text: &[u8]) -> usize
    ensures value { result ≡ prefix_len spec.is_attribute_byte text.now }
    ensures bound { result ≤ length text.now }
{
    text.iter()
        .take_while(|byte| is_attribute_byte(**byte))
        .count()
}

/// How long the value without quotes is with which the text begins. Linear in that.
pub fn value_len(text: &[u8]) -> usize
    ensures value { result ≡ prefix_len spec.is_value_byte text.now }
    ensures bound { result ≤ length text.now }
{
    text.iter().take_while(|byte| is_value_byte(**byte)).count()
}

/// How many bytes stand before the first `quote`, or all. Linear in that.
pub fn quoted_len(text: &[u8], quote: u8) -> usize
    ensures value { result ≡ prefix_len (spec.is_other quote) text.now }
    ensures bound { result ≤ length text.now }
{
    text.iter().take_while(|byte| **byte != quote).count()
}

/// The first byte, or NUL of no bytes.
pub fn first(text: &[u8]) -> u8
    ensures value { result ≡ spec.first text.now }
    ensures there { 0 < result → 0 < length text.now }
{
    if text.is_empty() { 0 } else { text[0] }
}

/// Whether two names are the same without regard to ASCII case.
pub fn is_same_name(left: &[u8], right: &[u8]) -> bool
    ensures { result ≡ str_eq_ignore_ascii_case left.now right.now }
{
    left.eq_ignore_ascii_case(right)
}
