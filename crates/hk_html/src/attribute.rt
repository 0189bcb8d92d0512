// Reading one attribute of a tag.
ghost use Rattle.std.specs.Prelude.{◌≡◌, ℕ, ◌+◌, ◌<◌, ◌≤◌, ◌^◌, List, length, drop};
ghost use Rattle.hk_html.specs.Kind as kind;
ghost use Rattle.hk_html.specs.Part as spec;
ghost use Rattle.hk_html.specs.Part.{attribute, value_part};
ghost use Rattle.hk_html.specs.Read.{size_of, sizes_of};

use crate::kind::{attribute_name_len, first, is_same_name, quoted_len, value_len, white_len};
use crate::place::rest_of;

/// How long an attribute is: one without `=`, with the white after it, or one with a value.
#[derive(Clone, Copy, Debug, PartialEq, Eq, Drop)]
pub enum Attribute {
    Bare(usize),
    Valued(Sizes),
}

/// How long the name is, what stands between name and value, the value, and the quote that closes it.
#[derive(Clone, Copy, Debug, PartialEq, Eq, Drop)]
pub struct Sizes {
    pub name: usize,
    pub between: usize,
    pub value: usize,
    pub close: usize,
}

/// Reads the attribute with which the text begins. Linear in the attribute and the white after it.
pub fn read_attribute(text: &[u8]) -> Attribute
    requires { 0 < length text.now }
    ensures sizes { result ≡ sizes_of (attribute (kind.first text.now) (drop 1 text.now)) }
    ensures fits { size_of result ≤ length text.now }
{
    let rest = rest_of(text, 1);
    let name = attribute_name_len(rest);
    let after_name = rest_of(rest, name);
    let white = white_len(after_name);
    let after_white = rest_of(after_name, white);
    if first(after_white) != b'=' {
        return Attribute::Bare(1 + name + white);
    }
    let after_sign = rest_of(after_white, 1);
    let gap = white_len(after_sign);
    read_value(1 + name, white + 1 + gap, rest_of(after_sign, gap))
}

/// Reads the value with which the text begins, after so many bytes of the attribute.
fn read_value(name: usize, between: usize, text: &[u8]) -> Attribute
    requires { name + between + length text.now < 2 ^ 64 }
    ensures sizes { (before : List ℕ) (sign : List ℕ) → length before ≡ name → length sign ≡ between
        → result ≡ sizes_of (value_part before sign text.now) }
    ensures fits { size_of result ≤ name + between + length text.now }
{
    let quote = first(text);
    if quote == b'"' || quote == b'\'' {
        let rest = rest_of(text, 1);
        let value = quoted_len(rest, quote);
        let close = if value < rest.len() { 1 } else { 0 };
        Attribute::Valued(Sizes {
            name,
            between: between + 1,
            value,
            close,
        })
    } else {
        let value = value_len(text);
        Attribute::Valued(Sizes {
            name,
            between,
            value,
            close: 0,
        })
    }
}

/// Whether an attribute of this name holds a URL.
pub fn is_link(name: &[u8]) -> bool
    ensures { result ≡ spec.is_link name.now }
{
    is_same_name(name, b"href") || is_same_name(name, b"src")
}
