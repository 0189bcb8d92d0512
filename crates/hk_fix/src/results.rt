// How a run ended.
use crate::event::Event;
use hk_chain::{Facts, Fault, PageRef, PairNo};
use std::marker::Model;

/// How an item ended.
#[derive(Debug, Drop)]
pub enum Outcome {
    /// Its finished page is saved; what it used.
    Done(Facts),
    /// Its first fault.
    Failed(Fault),
    /// The pairs, at least one, that it waits for in vain.
    Waiting(Vec<PairNo>),
}

/// How each item ended, the page of each pair that is known, and the events in their order.
#[derive(Drop)]
pub struct Results {
    pub outcomes: Vec<Outcome>,
    pub pages: Vec<Option<PageRef>>,
    pub history: Vec<Event>,
}

impl Model for Results {
    ghost use Rattle.std.specs.Prelude.{map};
    ghost use Rattle.hk_fix.specs.Results.{ResultsView};

    ghost Value = { ResultsView };

    ghost use Rattle.hk_fix.specs.Outcomes.{outcome_view};

    ghost view = { λ r. record { outcomes = map outcome_view r.outcomes.items; pages = r.pages.items; history = r.history.items } };
}
