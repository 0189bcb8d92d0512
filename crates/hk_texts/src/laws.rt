// What printed lines tell.
ghost use Rattle.std.specs.Prelude.{◌≡◌, List};
ghost use Rattle.hk_fix.specs.declared.event.Event.{Event};
ghost use Rattle.hk_rules.specs.LinkedPlan.{IsLinkedPlan};
ghost use Rattle.hk_rules.specs.Plan.{lookups};
ghost use Rattle.hk_rules.specs.PlanView.{PlanView};
ghost use Rattle.hk_texts.specs.Telling.{HasIdentifiers, IsHistoryOf, PrintApart};
ghost use Rattle.hk_texts.specs.TraceText.{trace_text};

/// Where no two items print alike, a printed trace tells the history: which events there were, of which items and pages,
/// and in which order. The plan's names are as those of every plan are: identifiers, and names of pages that differ within
/// an item.
pub fn printed_traces_tell_histories()
    ensures { (plan : PlanView) (one other : List Event) → IsLinkedPlan plan → HasIdentifiers plan → PrintApart (lookups plan)
        → IsHistoryOf plan one → IsHistoryOf plan other → trace_text (lookups plan) one ≡ trace_text (lookups plan) other → one ≡ other }
{}
