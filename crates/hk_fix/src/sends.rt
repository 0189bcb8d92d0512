// Threads may pass these on and share them.
use crate::event::Event;
use crate::polled::Polled;
use crate::results::{Outcome, Results};

fn sends<T: Send>(_value: &T) {}

fn shares<T: Sync>(_value: &T) {}

fn event(value: &Event) {
    sends(value);
    shares(value);
}

fn polled(value: &Polled) {
    sends(value);
    shares(value);
}

fn outcome(value: &Outcome) {
    sends(value);
    shares(value);
}

fn results(value: &Results) {
    sends(value);
    shares(value);
}
