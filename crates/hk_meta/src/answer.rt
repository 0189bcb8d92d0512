// What reading a header gives.
use crate::Metadata;

/// The metadata of a file's header, and where the file's body starts.
#[derive(Drop)]
pub struct Split {
    pub meta: Metadata,
    pub body_start: usize,
}

/// Why a text has no header that can be read, or is no companion file. The file's first line is line 1.
#[derive(Clone, Copy, Debug, PartialEq, Eq, Drop)]
pub enum HeaderFault {
    /// The first line is a fence and no later line is.
    Unclosed { line: u64 },
    /// The first line of the header or of the companion file that can't stand there: it is neither blank, a comment,
    /// a member of a list that is open, nor a key with its value.
    BadLine { line: u64 },
}
