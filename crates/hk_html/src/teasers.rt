// What stands before the mark of a teaser.
ghost use Rattle.std.specs.Prelude.{◌≡◌, option_copied};
ghost use Rattle.hk_html.specs.Teasers.{teaser_of};

use crate::place::place_of_word;

/// The bytes before the first `<!--more-->`, lent; `None` exactly where there is no such mark. Linear; takes no memory.
pub fn teaser(body: &[u8]) -> Option<&[u8]>
    ensures { option_copied result ≡ teaser_of body.now }
{
    let place = place_of_word(body, b"<!--more-->");
    if place < body.len() {
        Some(&body[..place])
    } else {
        None
    }
}
