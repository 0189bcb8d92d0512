// Cuts a text into tokens from the left.
ghost use Rattle.std.specs.Prelude.{◌≡◌, ◌≤◌, ◌<◌, ◌∷◌, [], length, option_map, option_copied, IfSome, position, ◌==◌, codes};
ghost use Rattle.hk_base.specs.Key as keys;
ghost use Rattle.hk_template.specs.Key as paths;
ghost use Rattle.hk_template.specs.Cut as spec;
ghost use Rattle.hk_template.specs.Token.{if_, for_, partial};
ghost use Rattle.hk_template.specs.ParserViews.{cut_view, token_view, word_view};

use crate::key::{is_bare_key, is_partial_path};
use crate::token::{Token, Word};
use hk_base::is_key;

/// A token, and what follows it.
#[derive(Clone, Copy, Drop)]
pub struct Cut<'a> {
    pub token: Token<'a>,
    pub rest: &'a [u8],
}

/// The token at the front of a text. `None` where none stands there. Linear in the bytes up to the next dollar sign.
#[tactic(auto, unfolding(crate::specs::Cut::token_at))]
pub fn token_at<'a>(bytes: &'a [u8]) -> Option<Cut<'a>>
    ensures { option_map cut_view result ≡ spec.token_at bytes.now }
{
    match bytes.split_first() {
        None => None,
        Some((first, rest)) => {
            if *first == b'$' {
                after_dollar(rest)
            } else {
                Some(text_before(bytes))
            }
        }
    }
}

fn text_before<'a>(bytes: &'a [u8]) -> Cut<'a>
    ensures { cut_view result ≡ spec.text_before bytes.now (spec.run_length bytes.now) }
{
    let count = run_length(bytes);
    Cut {
        token: Token::Text(&bytes[..count]),
        rest: &bytes[count..],
    }
}

/// The token that a dollar sign before these bytes begins.
fn after_dollar<'a>(bytes: &'a [u8]) -> Option<Cut<'a>>
    ensures { option_map cut_view result ≡ spec.after_dollar bytes.now }
{
    match bytes.split_first() {
        None => None,
        Some((second, rest)) => {
            if *second == b'$' {
                Some(Cut {
                    token: Token::Dollar,
                    rest,
                })
            } else {
                tag_before(bytes)
            }
        }
    }
}

/// The tag that ends at the next dollar sign.
fn tag_before<'a>(bytes: &'a [u8]) -> Option<Cut<'a>>
    ensures { option_map cut_view result ≡ spec.tag_before bytes.now (spec.run_length bytes.now) }
{
    let count = run_length(bytes);
    if count < bytes.len() {
        let token = tag_of(&bytes[..count])?;
        Some(Cut {
            token,
            rest: &bytes[count + 1..],
        })
    } else {
        None
    }
}

/// How many bytes stand before the first dollar sign.
fn run_length(bytes: &[u8]) -> usize
    ensures value { result ≡ spec.run_length bytes.now }
    ensures bound { result ≤ length bytes.now }
{
    match dollar_place(bytes) {
        Some(count) => count,
        None => bytes.len(),
    }
}

fn dollar_place(bytes: &[u8]) -> Option<usize>
    ensures value { result ≡ position (λ c. c == 36) bytes.now }
    ensures bound { IfSome result (λ count. count < length bytes.now) }
{
    bytes.iter().position(|byte| *byte == b'$')
}

/// The tag that these bytes spell between two dollar signs.
#[tactic(auto, unfolding(crate::specs::Cut::tag_of))]
fn tag_of<'a>(bytes: &'a [u8]) -> Option<Token<'a>>
    ensures { option_map token_view result ≡ spec.tag_of bytes.now }
{
    match after_front(bytes, b"-") {
        Some(rest) => tag_with(true, rest),
        None => tag_with(false, bytes),
    }
}

fn tag_with<'a>(left: bool, bytes: &'a [u8]) -> Option<Token<'a>>
    ensures { option_map token_view result ≡ spec.tag_with left bytes.now (spec.before_end (45 ∷ []) bytes.now) }
{
    match before_end(bytes, b"-") {
        Some(front) => Some(Token::Tag(left, word_of(front)?, true)),
        None => Some(Token::Tag(left, word_of(bytes)?, false)),
    }
}

/// The word that these bytes spell.
#[tactic(auto, unfolding(crate::specs::Cut::word_of))]
fn word_of<'a>(bytes: &'a [u8]) -> Option<Word<'a>>
    ensures { option_map word_view result ≡ spec.word_of bytes.now }
{
    if let Some(word) = fixed_word(bytes) {
        return Some(word);
    }
    if let Some(word) = if_word(bytes) {
        return Some(word);
    }
    if let Some(word) = for_word(bytes) {
        return Some(word);
    }
    if let Some(word) = partial_word(bytes) {
        return Some(word);
    }
    if is_bare_key(bytes) {
        return Some(Word::Key(bytes));
    }
    None
}

fn if_word<'a>(bytes: &'a [u8]) -> Option<Word<'a>>
    ensures { option_map word_view result ≡ spec.word_if if_ keys.is_key (spec.between (codes "if(") (codes ")") bytes.now) }
{
    let key = between(bytes, b"if(", b")")?;
    if is_key(key) {
        Some(Word::If(key))
    } else {
        None
    }
}

fn for_word<'a>(bytes: &'a [u8]) -> Option<Word<'a>>
    ensures { option_map word_view result ≡ spec.word_if for_ keys.is_key (spec.between (codes "for(") (codes ")") bytes.now) }
{
    let key = between(bytes, b"for(", b")")?;
    if is_key(key) {
        Some(Word::For(key))
    } else {
        None
    }
}

fn partial_word<'a>(bytes: &'a [u8]) -> Option<Word<'a>>
    ensures { option_map word_view result ≡ spec.word_if partial paths.is_partial_path (spec.between (codes "partial(\"") (codes "\")") bytes.now) }
{
    let path = between(bytes, b"partial(\"", b"\")")?;
    if is_partial_path(path) {
        Some(Word::Partial(path))
    } else {
        None
    }
}

fn fixed_word<'a>(bytes: &[u8]) -> Option<Word<'a>>
    ensures { option_map word_view result ≡ spec.fixed_word bytes.now }
{
    if bytes == b"else".as_slice() {
        Some(Word::Else)
    } else if bytes == b"endif".as_slice() {
        Some(Word::EndIf)
    } else if bytes == b"sep".as_slice() {
        Some(Word::Sep)
    } else if bytes == b"endfor".as_slice() {
        Some(Word::EndFor)
    } else {
        None
    }
}

/// What stands between a front and an end.
fn between<'a>(bytes: &'a [u8], front: &[u8], end: &[u8]) -> Option<&'a [u8]>
    ensures { option_copied result ≡ spec.between front.now end.now bytes.now }
{
    before_end(after_front(bytes, front)?, end)
}

fn after_front<'a>(bytes: &'a [u8], front: &[u8]) -> Option<&'a [u8]>
    ensures { option_copied result ≡ spec.after_front front.now bytes.now }
{
    let count = front.len().min(bytes.len());
    if &bytes[..count] == front {
        Some(&bytes[count..])
    } else {
        None
    }
}

fn before_end<'a>(bytes: &'a [u8], end: &[u8]) -> Option<&'a [u8]>
    ensures { option_copied result ≡ spec.before_end end.now bytes.now }
{
    let count = bytes.len().saturating_sub(end.len());
    if &bytes[count..] == end {
        Some(&bytes[..count])
    } else {
        None
    }
}
