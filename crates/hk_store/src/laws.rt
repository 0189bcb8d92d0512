// What texts tell.
ghost use Rattle.std.specs.Prelude.{◌≡◌, ℕ, ◌<◌, ◌++◌, List, length};
ghost use Rattle.hk_base.specs.Bytes.{Bytes};
ghost use Rattle.hk_forms.specs.PatternText.{text_of};
ghost use Rattle.hk_pattern.specs.declared.pattern.Pattern.{Pattern};
ghost use Rattle.hk_rules.specs.LinkedPlan.{IsLinkedPlan};
ghost use Rattle.hk_rules.specs.PlanView.{PlanView};
ghost use Rattle.hk_rules.specs.Recipe.{Recipe, recipe_of};
ghost use Rattle.hk_store.specs.RecipeText.{RecipeFits, recipe_text};
ghost use Rattle.hk_store.specs.Told.{Any, Short, Told};

/// The text of a recipe tells it: equal fingerprints are those of equal recipes. It holds of every text of fewer than
/// 2^64 bytes, as all in memory are, and of the recipes of linked plans, whose patterns are given by their texts and
/// whose limits are 1 at least.
pub fn recipes_are_told()
    ensures equal { (a b : Recipe) → RecipeFits a → RecipeFits b → Short (recipe_text a) → recipe_text a ≡ recipe_text b → a ≡ b }
    ensures told { (recipe : Recipe) → Told RecipeFits recipe_text recipe }
{}

/// The text of a pattern tells it, whatever follows.
pub fn patterns_are_told()
    ensures equal { (a b : Pattern) → Short (text_of a) → text_of a ≡ text_of b → a ≡ b }
    ensures told { (pattern : Pattern) → Told Any text_of pattern }
{}
