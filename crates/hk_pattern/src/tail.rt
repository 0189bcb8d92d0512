// The bytes after a glob's last `*` or `**`, compared from the end before the walk.
ghost use Rattle.std.specs.Prelude.{◌≡◌};
ghost use Rattle.hk_pattern.specs.Glob as spec;

use crate::piece::Piece;
use crate::walk::covers;

/// Whether the path can be cut into parts that match the pieces in turn. Linear for pieces with one star, at worst
/// pieces times path; takes no memory.
pub(crate) fn covers_from_end(pieces: &[Piece], path: &[u8]) -> bool
    ensures { result ≡ spec.covers pieces.now path.now }
{
    let mut pieces = pieces;
    let mut path = path;
    while let Some((Piece::Byte(byte), before)) = pieces.split_last() {
        match path.split_last() {
            None => return false,
            Some((last, front)) => {
                if last != byte {
                    return false;
                }
                pieces = before;
                path = front;
            }
        }
    }
    covers(pieces, path)
}
