// Threads may pass these on.
use crate::board::Board;
use crate::turn::{Asked, Turn};
use hk_fix::Compiler;

fn sends<T: Send>(_value: &T) {}

fn board<M: Compiler + Send>(value: &Board<M>)
where
    M::Common: Send,
{
    sends(value);
}

fn turn<M: Compiler + Send>(value: &Turn<M>) {
    sends(value);
}

fn asked<M: Compiler + Send>(value: &Asked<M>) {
    sends(value);
}
