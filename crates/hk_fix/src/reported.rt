// A report of what didn't end well.
use hk_chain::{ItemNo, PairNo};
use std::marker::Model;

/// The failed items in order; each cycle of waiting items once, from its least member and in the order of these; and
/// all other waiting items in order, each with all the pairs that it waits for.
#[derive(Debug, Drop)]
pub struct Report {
    pub failed: Vec<ItemNo>,
    pub cycles: Vec<Vec<ItemNo>>,
    pub blocked: Vec<(ItemNo, Vec<PairNo>)>,
}

impl Model for Report {
    ghost use Rattle.std.specs.Prelude.{map};
    ghost use Rattle.hk_fix.specs.Report.{ReportView};

    ghost Value = { ReportView };

    ghost view = { λ r. record { failed = r.failed.items; cycles = map (λ c. c.items) r.cycles.items; blocked = map (λ b. (b.0, b.1.items)) r.blocked.items } };
}
