// Threads may pass these on and share them.
use crate::chain::Chain;
use crate::context::Context;
use crate::facts::{Facts, Mark};
use crate::fault::Fault;
use crate::kept::Kept;
use crate::layout::Layout;
use crate::page::{Page, PageRef};

fn sends<T: Send>(_value: &T) {}

fn shares<T: Sync>(_value: &T) {}

fn page(value: &Page) {
    sends(value);
    shares(value);
}

fn page_ref(value: &PageRef) {
    sends(value);
    shares(value);
}

fn layout(value: &Layout) {
    sends(value);
    shares(value);
}

fn fault(value: &Fault) {
    sends(value);
    shares(value);
}

fn mark(value: &Mark) {
    sends(value);
    shares(value);
}

fn facts(value: &Facts) {
    sends(value);
    shares(value);
}

fn kept(value: &Kept) {
    sends(value);
    shares(value);
}

fn chain(value: &Chain) {
    sends(value);
    shares(value);
}

fn context(value: &Context) {
    sends(value);
    shares(value);
}
