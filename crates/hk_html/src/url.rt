// The URL of a target.
ghost use Rattle.std.specs.Prelude.{◌≡◌, IfOk};
ghost use Rattle.hk_html.specs.Url as spec;

use hk_base::{NoMemory, Text};
use percent_encoding::{AsciiSet, NON_ALPHANUMERIC, ascii_set, percent_encode};
use std::alloc::Global;

const ESCAPED: AsciiSet = ascii_set!(
    NON_ALPHANUMERIC
        .remove(b'-')
        .remove(b'.')
        .remove(b'_')
        .remove(b'~')
        .remove(b'/')
);

/// `/` and the target. ASCII letters, digits, `-`, `.`, `_`, `~` and `/` stay; any other byte becomes `%` and two
/// upper-case hexadecimal digits. `NoMemory` only for want of memory. Linear.
pub fn url_of(alloc: Global, target: &[u8]) -> Result<Text, NoMemory>
    ensures { IfOk result (λ url. url ≡ spec.url_of target.now) }
{
    let mut url = String::new(alloc);
    url.push('/')?;
    percent_encode(target, ESCAPED).append_to(&mut url)?;
    Ok(Text::from_vec(url.into_bytes()))
}
