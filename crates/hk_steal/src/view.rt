// What an end of a deque knows.

/// What an end of a deque knows. It stands in clauses alone: no value of it is made. Every end of a caller has a key.
pub struct View<K> {
    /// What the tasks are lawful for that the end pushes and takes.
    pub key: Option<K>,
}
