// Why bytes are no store.

/// What is wrong with the bytes of a store.
#[derive(Clone, Copy, Debug, PartialEq, Eq, Drop)]
pub enum StoreDamage {
    /// There are fewer than 32 bytes, or the last 32 aren't the SHA-256 of the rest.
    BadTrailer,
    /// The rest isn't the text of a store: at this byte, counted from 0, stands the first field that isn't as it is
    /// wanted there.
    BadShape { place: u64 },
    /// The rest begins with the first line of the version before.
    OldVersion,
}
