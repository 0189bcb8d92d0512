// Why the chains of a plan are deeds.
ghost use Rattle.std.specs.Prelude.{◌≡◌, ℕ, ◌<◌, true, length};
ghost use Rattle.hk_base.specs.Identifier.{Ident};
ghost use Rattle.hk_chain.specs.declared.page.Page.{Page};
ghost use Rattle.hk_fix.specs.Deed.{interpret};
ghost use Rattle.hk_fix.specs.Deeds.{AreProper};
ghost use Rattle.hk_rules.specs.Plan.{id_at, chain_at, lookups};
ghost use Rattle.hk_eval.specs.PlanTable.{table_of};
ghost use Rattle.hk_rules.specs.MadePlan.{IsMadePlan};
ghost use Rattle.hk_rules.specs.PlanView.{PlanView};
ghost use Rattle.hk_rules.specs.Recipe as recipe;
ghost use Rattle.hk_rules.specs.Recipe.{context_name, is_among, reached, recipe_of};
ghost use Rattle.hk_machine.specs.Applying.{apply_task, self_task};
ghost use Rattle.hk_machine.specs.Chain.{chain_task};
ghost use Rattle.hk_machine.specs.ChainDeed.{step_deed, chain_deed};
ghost use Rattle.hk_machine.specs.PlanDeeds.{deeds_of};

/// What an item's chain does by the numbers of a plan is the deed of its identifier and its recipe, done under
/// these numbers. These deeds ask for no page twice in a group, and save the pages of their items in order.
pub fn chains_are_deeds()
    ensures same { (plan : PlanView) (item : ℕ) → IsMadePlan plan → item < length plan.items
        → chain_task (lookups plan) item
        ≡ interpret (table_of plan) (id_at plan item) (chain_deed (id_at plan item) (recipe_of plan item)) }
    ensures proper { (plan : PlanView) → IsMadePlan plan → AreProper (deeds_of plan) }
{}

/// So are the steps that render a page of the item's own, by another item's template or by the page's own body, in a
/// context that the item's chain reaches.
pub fn renderings_of_pages_are_deeds()
    ensures applied { (plan : PlanView) (item : ℕ) (id : Ident) (context : ℕ) (page : Page)
        → IsMadePlan plan → item < length plan.items
        → is_among (reached (lookups plan) (length plan.contexts) (chain_at plan item)) context ≡ true
        → apply_task (lookups plan) item id context page
        ≡ interpret (table_of plan) (id_at plan item)
        (step_deed (id_at plan item) (recipe_of plan item) (recipe.apply id (context_name (lookups plan) context)) page) }
    ensures itself { (plan : PlanView) (item context : ℕ) (page : Page)
        → IsMadePlan plan → item < length plan.items
        → is_among (reached (lookups plan) (length plan.contexts) (chain_at plan item)) context ≡ true
        → self_task (lookups plan) item context page
        ≡ interpret (table_of plan) (id_at plan item)
        (step_deed (id_at plan item) (recipe_of plan item) (recipe.apply_self (context_name (lookups plan) context)) page) }
{}
