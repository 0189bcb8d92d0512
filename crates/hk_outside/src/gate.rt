// What is told of each poll.

/// It is told before each poll of an item's compiler, and after what the poll answered was handed on. Threads share it.
pub trait Gate: Sync {
    /// A poll of the item begins. It takes no memory.
    fn enter(&self, item: u32);

    /// What that poll answered was handed on. It takes no memory.
    fn leave(&self, item: u32);
}

/// A gate that does nothing.
pub struct OpenGate;

impl Gate for OpenGate {
    fn enter(&self, _item: u32) {}

    fn leave(&self, _item: u32) {}
}
