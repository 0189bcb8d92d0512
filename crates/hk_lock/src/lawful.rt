// What a key asks of the values that are handed on under it.

/// A value is or isn't lawful for a key: a fact over plain data, which takes no code and no time.
pub trait Lawful<K> {
    ghost is_lawful: { K → Self → Type 0 };
}
