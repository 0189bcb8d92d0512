// The pieces of a glob.
ghost use Rattle.std.specs.Prelude.{◌≡◌, ◌∷◌, [], ◌<◌, length, MatchOption, IfOk};
ghost use Rattle.hk_pattern.specs.Glob as spec;

use hk_base::NoMemory;
use std::alloc::Global;

/// A piece of a glob: a byte, any bytes without `/`, or any bytes.
#[derive(Clone, Copy, Debug, PartialEq, Eq, Drop)]
pub(crate) enum Piece {
    Byte(u8),
    Star,
    Stars,
}

impl Piece {
    pub(crate) fn is_byte(self, byte: u8) -> bool
        ensures { result ≡ spec.is_byte self byte }
    {
        match self {
            Piece::Byte(own) => own == byte,
            Piece::Star | Piece::Stars => false,
        }
    }
}

/// The pieces of a glob's text, in one pass over it.
pub(crate) fn read_pieces(alloc: Global, text: &[u8]) -> Result<Vec<Piece>, NoMemory>
    ensures { IfOk result (λ v. v.items ≡ spec.pieces text.now) }
{
    let mut pieces = Vec::with_capacity(alloc, text.len())?;
    let mut rest = text;
    while let Some((piece, after)) = first_piece(rest) {
        pieces.push(piece)?;
        rest = after;
    }
    Ok(pieces)
}

/// The first piece, and the text after it.
fn first_piece(text: &[u8]) -> Option<(Piece, &[u8])>
    ensures { MatchOption result (text.now ≡ [])
        (λ p. (spec.pieces text.now ≡ p.0 ∷ spec.pieces p.1.now) × (length p.1.now < length text.now)) }
{
    match text {
        [] => None,
        [b'\\', byte, after @ ..] => Some((Piece::Byte(*byte), after)),
        [b'*', b'*', after @ ..] => Some((Piece::Stars, after)),
        [b'*', after @ ..] => Some((Piece::Star, after)),
        [byte, after @ ..] => Some((Piece::Byte(*byte), after)),
    }
}
