// Where comments and raw text end.
ghost use Rattle.std.specs.Prelude.{◌≡◌, ◌+◌, ◌≤◌, length, drop, min, codes};
ghost use Rattle.hk_html.specs.Piece as spec;
ghost use Rattle.hk_html.specs.Place as place;

use crate::kind::{is_same_name, tag_name_len};
use crate::place::{front_of, place_of_word, rest_of};

/// How long the comment is with which the text begins. Linear in that.
pub fn comment_len(text: &[u8]) -> usize
    requires { 4 ≤ length text.now }
    ensures { result ≡ min (place.place_of_word (codes "-->") (drop 4 text.now) + 7) (length text.now) }
{
    let rest = rest_of(text, 4);
    let place = place_of_word(rest, b"-->");
    if place < rest.len() && rest.len() - place > 3 {
        place + 7
    } else {
        text.len()
    }
}

/// How long the raw text is that follows a tag of this name. Linear in that.
pub fn raw_len(text: &[u8], name: &[u8]) -> usize
    ensures value { result ≡ length (spec.raw_text name.now text.now) }
    ensures bound { result ≤ length text.now }
{
    if has_raw_text(name) {
        raw_end(text, name)
    } else {
        0
    }
}

fn has_raw_text(name: &[u8]) -> bool
    ensures { result ≡ spec.has_raw_text name.now }
{
    is_same_name(name, b"script") || is_same_name(name, b"style")
}

/// Where the raw text ends.
fn raw_end(text: &[u8], name: &[u8]) -> usize
    ensures value { result ≡ place.first_place (spec.ends_raw_text name.now) text.now }
    ensures bound { result ≤ length text.now }
{
    for at in 0..text.len() {
        if ends_raw_text(rest_of(text, at), name) {
            return at;
        }
    }
    text.len()
}

/// Whether `</` and the name come next.
fn ends_raw_text(text: &[u8], name: &[u8]) -> bool
    ensures { result ≡ spec.ends_raw_text name.now text.now }
{
    if !text.starts_with(b"</") {
        return false;
    }
    let rest = rest_of(text, 2);
    is_same_name(front_of(rest, tag_name_len(rest)), name)
}
