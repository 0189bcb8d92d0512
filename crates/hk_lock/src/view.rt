// What a seat of a turn lock knows.

/// What a seat knows. It stands in clauses alone: no value of it is made. A seat that was joined is spent, and has no key.
pub struct View<K> {
    /// What the boards that the seat takes are lawful for.
    pub key: Option<K>,
    pub has_turn: bool,
    pub has_board: bool,
    /// It is the seat that came with the lock.
    pub is_first: bool,
    /// How many seats were split from the first one and not joined again; 0 for all other seats.
    pub lent: u64,
}
