// What a pass of a queue knows.

/// What a pass knows. It stands in clauses alone: no value of it is made. Every pass of a caller has a key.
pub struct View<K> {
    /// What the values are lawful for that the pass pushes and pops.
    pub key: Option<K>,
    /// No other pass was split from it, and it from none.
    pub is_alone: bool,
    /// How many values this pass has pushed.
    pub pushed: u64,
    /// How many values it has popped.
    pub popped: u64,
}
