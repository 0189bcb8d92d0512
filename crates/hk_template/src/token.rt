// Tokens of a template, as slices of its text.

/// The word of a tag.
#[derive(Clone, Copy, Drop)]
pub enum Word<'a> {
    Key(&'a [u8]),
    If(&'a [u8]),
    Else,
    EndIf,
    For(&'a [u8]),
    Sep,
    EndFor,
    Partial(&'a [u8]),
}

/// A token. A tag has its left dash, its word and its right dash.
#[derive(Clone, Copy, Drop)]
pub enum Token<'a> {
    Text(&'a [u8]),
    Dollar,
    Tag(bool, Word<'a>, bool),
}
