// Trims blanks at the ends of texts.
ghost use Rattle.std.specs.Prelude.{◌≡◌};
ghost use Rattle.hk_template.specs.Tree as spec;

/// The text without the blanks at its beginning, where `wanted`. Linear in those blanks.
pub fn trim_start_if(wanted: bool, bytes: &[u8]) -> &[u8]
    ensures { result.now ≡ spec.trim_start_if wanted bytes.now }
{
    if wanted { trim_start(bytes) } else { bytes }
}

/// The text without the blanks at its end, where `wanted`. Linear in those blanks.
pub fn trim_end_if(wanted: bool, bytes: &[u8]) -> &[u8]
    ensures { result.now ≡ spec.trim_end_if wanted bytes.now }
{
    if wanted { trim_end(bytes) } else { bytes }
}

fn trim_start(bytes: &[u8]) -> &[u8]
    ensures { result.now ≡ spec.trim_start bytes.now }
{
    let mut rest = bytes;
    while let Some((first, more)) = rest.split_first() {
        if !is_blank(*first) {
            return rest;
        }
        rest = more;
    }
    rest
}

fn trim_end(bytes: &[u8]) -> &[u8]
    ensures { result.now ≡ spec.trim_end bytes.now }
{
    let mut rest = bytes;
    while let Some((last, front)) = rest.split_last() {
        if !is_blank(*last) {
            return rest;
        }
        rest = front;
    }
    rest
}

fn is_blank(byte: u8) -> bool
    ensures { result ≡ spec.is_blank byte }
{
    byte == b' ' || byte == b'\t' || byte == b'\r' || byte == b'\n'
}
