// Globs: texts that stand for the paths that they cover.
ghost use Rattle.std.specs.Prelude.{◌≡◌, ◌≤◌, ◌↔◌, IsTrue, length};
ghost use Rattle.hk_base.specs.Answers.{Answers};
ghost use Rattle.hk_pattern.specs.Glob.{pieces, Covers, read_glob};
ghost use Rattle.hk_pattern.specs.Glob as spec;

use crate::piece::{Piece, read_pieces};
use crate::tail::covers_from_end;
use hk_base::{NoMemory, Refusal, Text};
use std::alloc::Global;
use std::marker::Model;

/// Why a text is no glob.
#[derive(Clone, Copy, Debug, PartialEq, Eq, Drop)]
pub enum GlobFault {
    /// The text has over 1,024 bytes.
    TooLong,
}

/// A text that stands for paths: `\` with a following byte is that byte, `**` is any bytes, `*` is any bytes without
/// `/`, and any other byte is itself.
#[derive(Debug, Drop)]
pub struct Glob {
    text: Text,
    pieces: Vec<Piece>,
}

impl Model for Glob {
    ghost use Rattle.std.specs.Prelude.{◌≡◌, ◌≤◌, ℕ, List, length};
    ghost use Rattle.hk_pattern.specs.Glob.{pieces as pieces_of};

    ghost Value = { List ℕ };

    ghost view = { λ g. g.text };

    ghost invariant = { λ g. (length g.text ≤ 1024) × (g.pieces.items ≡ pieces_of g.text) };
}

impl Glob {
    /// The glob of a text. `TooLong` exactly where it has over 1,024 bytes, NoMemory where there is no room for it. Linear.
    pub fn read(alloc: Global, text: &[u8]) -> Result<Glob, Refusal<GlobFault>>
        ensures { Answers (read_glob text.now) result }
    {
        if text.len() > 1024 {
            return Err(Refusal::Fault(GlobFault::TooLong));
        }
        let pieces = read_pieces(alloc, text)?;
        let text = Text::from_slice(alloc, text)?;
        Ok(Glob { text, pieces })
    }

    /// The text of the glob, lent. Constant.
    pub fn text(&self) -> &[u8]
        ensures { result.now ≡ self.now }
    {
        self.text.as_slice()
    }

    /// Whether the path can be cut into parts that match the glob's pieces in turn. Linear for a glob with one star, at
    /// worst glob times path; takes no memory.
    pub fn covers(&self, path: &[u8]) -> bool
        ensures test { result ≡ spec.covers (pieces self.now) path.now }
        ensures cut { IsTrue result ↔ Covers (pieces self.now) path.now }
    {
        covers_from_end(&self.pieces, path)
    }
}
