// Keys that are no words, and paths of partials.
ghost use Rattle.std.specs.Prelude.{◌≡◌, ◌==◌, ◌||◌, not};
ghost use Rattle.std.specs.List.{list_all};
ghost use Rattle.hk_template.specs.Key as spec;

use hk_base::{is_key, is_path};

/// Whether these bytes are a key and none of the words of tags.
pub fn is_bare_key(bytes: &[u8]) -> bool
    ensures { result ≡ spec.is_bare_key bytes.now }
{
    is_key(bytes) && !is_word(bytes)
}

/// Whether these bytes are an identifier's path without `"` and `$`.
pub fn is_partial_path(bytes: &[u8]) -> bool
    ensures { result ≡ spec.is_partial_path bytes.now }
{
    is_path(bytes) && has_no_quote(bytes)
}

fn has_no_quote(bytes: &[u8]) -> bool
    ensures { result ≡ list_all (λ c. not (c == 34 || c == 36)) bytes.now }
{
    bytes.iter().all(|byte| !(*byte == b'"' || *byte == b'$'))
}

fn is_word(bytes: &[u8]) -> bool
    ensures { result ≡ spec.is_word bytes.now }
{
    bytes == b"if".as_slice()
        || bytes == b"for".as_slice()
        || bytes == b"partial".as_slice()
        || bytes == b"else".as_slice()
        || bytes == b"sep".as_slice()
        || bytes == b"endif".as_slice()
        || bytes == b"endfor".as_slice()
}
