// What a plan tells by names, and why rendering by names is rendering by numbers.
ghost use Rattle.std.specs.Prelude.{◌≡◌, ℕ, true, List, map, length, ⊤};
ghost use Rattle.std.specs.List.{IsDistinct};
ghost use Rattle.std.specs.Ordering.{eq_by_cmp};
ghost use Rattle.hk_base.specs.Bytes.{Bytes};
ghost use Rattle.hk_base.specs.Identifier.{Ident, ident_cmp};
ghost use Rattle.hk_fix.specs.Deed.{interpret, IsNumber, IsQuiet};
ghost use Rattle.hk_fix.specs.Table.{Table, IsTable};
ghost use Rattle.hk_rules.specs.LinkedPlan.{IsLinkedPlan};
ghost use Rattle.hk_rules.specs.Plan.{Lookups, lookups};
ghost use Rattle.hk_rules.specs.PlanView.{PlanView, IsPlan};
ghost use Rattle.hk_eval.specs.PlanTable.{table_of, IsTableOf};
ghost use Rattle.hk_rules.specs.Recipe.{NamedContext, named_context, is_among, AreClosed, ContextsHave};
ghost use Rattle.hk_template.specs.Tree.{Nodes};
ghost use Rattle.hk_eval.specs.NamedPlaces.{named_place};
ghost use Rattle.hk_eval.specs.NamedRendering.{render_deed};
ghost use Rattle.hk_eval.specs.NamedValue.{NamedPlace};
ghost use Rattle.hk_eval.specs.Rendering.{render};
ghost use Rattle.hk_eval.specs.declared.place.Place.{Place};

/// A linked plan tells by names what it tells by numbers: its pairs have the keys of their items and names, its items
/// are found by their identifiers and its patterns by their texts.
pub fn plans_tell_names()
    ensures table { (plan : PlanView) → IsPlan plan → IsLinkedPlan plan → IsTable (table_of plan) }
    ensures told { (plan : PlanView) → IsPlan plan → IsLinkedPlan plan
        → IsTableOf (lookups plan) (length plan.items) (length plan.patterns) (table_of plan) }
{}

/// A rendering by the numbers of a plan is the rendering by names, done under these numbers, where the place is in one
/// of some contexts whose lists name no others. A rendering by names saves nothing, asks for no page twice in a group,
/// and its patterns are those of its contexts.
pub fn renderings_are_deeds()
    ensures same { (plan : Lookups) (items patterns : ℕ) (table : Table) (own : Ident) (reached : List ℕ) (tree : Nodes) (here : Place)
        → IsTableOf plan items patterns table → AreClosed plan patterns reached → is_among reached here.context ≡ true
        → render plan tree here ≡ interpret table own (render_deed (map (named_context plan) reached) tree (named_place plan here)) }
    ensures quiet { (table : Table) (contexts : List NamedContext) (tree : Nodes) (here : NamedPlace)
        → ((by : Bytes) → IsDistinct (eq_by_cmp ident_cmp) (table.matches by)) → ContextsHave (IsNumber table) contexts
        → IsQuiet table (λ (x : Bytes). ⊤) (render_deed contexts tree here) }
{}
