// A walk over the pieces of a glob and a path, with a mark at the last `*` and the last `**`.
ghost use Rattle.std.specs.Prelude.{◌≡◌, ◌∷◌, ◌≤◌, ◌<◌, false, length, drop, IfSome};
ghost use Rattle.std.specs.Option.{option_copied};
ghost use Rattle.hk_pattern.specs.declared.piece.Piece.TheVariants.{Star, Stars};
ghost use Rattle.hk_pattern.specs.Glob as spec;
ghost use Rattle.hk_pattern.specs.Walk as spec_walk;
ghost use Rattle.hk_pattern.specs.Walk.{Keeps, begins, Headed, Walked};

use crate::piece::Piece;

/// Where the pieces up to the next `*` or `**` lead.
enum Head<'a> {
    Covered,
    Star(&'a [Piece], &'a [u8]),
    Stars(&'a [Piece], &'a [u8]),
    /// The path ends before the bytes do.
    TooShort,
    Differs,
}

/// Where the pieces up to the next `**` lead.
enum Walk<'a> {
    Covered,
    Stars(&'a [Piece], &'a [u8]),
    /// The path ends before the bytes do, also with a later start.
    TooShort,
    /// No start in this part of the path leads on.
    Crossed,
    Differs,
}

/// Whether the path can be cut into parts that match the pieces in turn. Linear for pieces that end with their one star,
/// at worst pieces times path; takes no memory.
pub(crate) fn covers(pieces: &[Piece], path: &[u8]) -> bool
    ensures { result ≡ spec.covers pieces.now path.now }
{
    match find_stars(pieces, path) {
        Walk::Covered => true,
        Walk::Stars(after, rest) => covers_after_stars(after, rest),
        Walk::TooShort | Walk::Crossed | Walk::Differs => false,
    }
}

/// The same where a `**` stands before the pieces. The mark moves on by a byte, or past the next slash.
fn covers_after_stars(pieces: &[Piece], path: &[u8]) -> bool
    ensures { result ≡ spec.covers (Stars ∷ pieces.now) path.now }
{
    let mut pieces = pieces;
    let mut path = path;
    loop {
        match find_stars(pieces, path) {
            Walk::Covered => return true,
            Walk::TooShort => return false,
            Walk::Stars(after, rest) => {
                pieces = after;
                path = rest;
            }
            Walk::Crossed => match past_slash(path) {
                Some(later) => path = later,
                None => return false,
            },
            Walk::Differs => path = &path[1..],
        }
    }
}

/// What stands after the first slash.
fn past_slash(path: &[u8]) -> Option<&[u8]>
    ensures value { option_copied result ≡ spec_walk.past_slash path.now }
    ensures shorter { IfSome result (λ later. length later.now < length path.now) }
{
    let mut rest = path;
    while let [byte, later @ ..] = rest {
        if *byte == b'/' {
            return Some(later);
        }
        rest = later;
    }
    None
}

fn find_stars<'a>(pieces: &'a [Piece], path: &'a [u8]) -> Walk<'a>
    ensures { Walked pieces.now path.now result }
{
    match find_star(pieces, path) {
        Head::Covered => Walk::Covered,
        Head::Star(after, rest) => find_stars_after_star(after, rest),
        Head::Stars(after, rest) => Walk::Stars(after, rest),
        Head::TooShort => Walk::TooShort,
        Head::Differs => Walk::Differs,
    }
}

/// The same where a `*` stands before the pieces. The mark moves on by a byte, and never past a slash.
fn find_stars_after_star<'a>(pieces: &'a [Piece], path: &'a [u8]) -> Walk<'a>
    ensures { Walked (Star ∷ pieces.now) path.now result }
{
    let mut pieces = pieces;
    let mut path = path;
    loop {
        match find_star(pieces, path) {
            Head::Covered => return Walk::Covered,
            Head::TooShort => return Walk::TooShort,
            Head::Stars(after, rest) => return Walk::Stars(after, rest),
            Head::Star(after, rest) => {
                pieces = after;
                path = rest;
            }
            Head::Differs => {
                if path[0] == b'/' {
                    return Walk::Crossed;
                }
                path = &path[1..];
            }
        }
    }
}

fn find_star<'a>(pieces: &'a [Piece], path: &'a [u8]) -> Head<'a>
    ensures { Headed pieces.now path.now result }
{
    let count = equal_count(pieces, path);
    let rest = &path[count..];
    match &pieces[count..] {
        [] if rest.is_empty() => Head::Covered,
        [Piece::Star, after @ ..] => Head::Star(after, rest),
        [Piece::Stars, after @ ..] => Head::Stars(after, rest),
        [Piece::Byte(_), ..] if rest.is_empty() => Head::TooShort,
        _ => Head::Differs,
    }
}

/// How many of the first pieces are the first bytes of the path.
fn equal_count(pieces: &[Piece], path: &[u8]) -> usize
    ensures pieces_left { result ≤ length pieces.now }
    ensures path_left { result ≤ length path.now }
    ensures keeps { Keeps pieces.now path.now (drop result pieces.now) (drop result path.now) }
    ensures last { begins (drop result pieces.now) (drop result path.now) ≡ false }
{
    let mut count = 0;
    while count < pieces.len() && count < path.len() && pieces[count].is_byte(path[count]) {
        count += 1;
    }
    count
}
