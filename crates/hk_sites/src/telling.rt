// Why fingerprints tell what a plan's items do.
ghost use Rattle.std.specs.Prelude.{ℕ, ◌<◌, length};
ghost use Rattle.hk_reuse.specs.Rebuilt.{TextsTell};
ghost use Rattle.hk_rules.specs.MadePlan.{IsMadePlan};
ghost use Rattle.hk_rules.specs.PlanView.{PlanView};
ghost use Rattle.hk_rules.specs.Recipe.{recipe_of};
ghost use Rattle.hk_store.specs.RecipeText.{RecipeFits};
ghost use Rattle.hk_sites.specs.PlanSite.{site_of};
ghost use Rattle.hk_sites.specs.Sizes.{HasLimits, HasTexts};

/// The recipe of each item is one that its text tells. So what an item of a plan does is told by its identifier and the
/// text of its fingerprint, whatever plan it is of: of two items with one text, below 2^64 in length, the deeds are equal.
pub fn fingerprints_tell()
    ensures fits { (plan : PlanView) (item : ℕ) → IsMadePlan plan → HasLimits plan → item < length plan.items → RecipeFits (recipe_of plan item) }
    ensures texts { (old new : PlanView) → IsMadePlan old → IsMadePlan new → HasLimits old → HasLimits new → HasTexts old
        → TextsTell (site_of old) (site_of new) }
{}
