// Places in a text, and what stands from a place on.
ghost use Rattle.std.specs.Prelude.{◌≡◌, ◌≤◌, length, take, drop};
ghost use Rattle.hk_html.specs.Place as spec;

/// What stands from `at` on. Constant.
pub fn rest_of(text: &[u8], at: usize) -> &[u8]
    requires { at ≤ length text.now }
    ensures { result.now ≡ drop at text.now }
{
    &text[at..]
}

/// The first `count` bytes. Constant.
pub fn front_of(text: &[u8], count: usize) -> &[u8]
    requires { count ≤ length text.now }
    ensures { result.now ≡ take count text.now }
{
    &text[..count]
}

/// Where `word` begins for the first time, or else the length. Linear in the text times the word; takes no memory.
pub fn place_of_word(text: &[u8], word: &[u8]) -> usize
    ensures value { result ≡ spec.place_of_word word.now text.now }
    ensures bound { result ≤ length text.now }
{
    for at in 0..text.len() {
        if rest_of(text, at).starts_with(word) {
            return at;
        }
    }
    text.len()
}
