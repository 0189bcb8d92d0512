// Rules without their tables.
ghost use Rattle.std.specs.Prelude.{◌≡◌, IfOk};
ghost use Rattle.hk_tags.specs.Untabled as spec;

use crate::copying::{copy_contexts, copy_feeds, copy_pattern, copy_rules};
use hk_base::NoMemory;
use hk_pattern::Pattern;
use hk_rules::Rules;
use std::alloc::Global;

/// The same rules without their tables for tags and numbered pages: those of the plan that `expand` goes by. `NoMemory` only
/// for want of memory. Linear.
pub fn without_tables(alloc: Global, rules: &Rules) -> Result<Rules, NoMemory>
    ensures { IfOk result (λ r. r ≡ spec.without_tables rules.now) }
{
    Ok(Rules {
        rules: copy_rules(alloc, &rules.rules)?,
        contexts: copy_contexts(alloc, &rules.contexts)?,
        patterns: copy_patterns(alloc, &rules.patterns)?,
        tags: Vec::new(alloc),
        pages: Vec::new(alloc),
        feeds: copy_feeds(alloc, &rules.feeds)?,
    })
}

fn copy_patterns(alloc: Global, patterns: &[Pattern]) -> Result<Vec<Pattern>, NoMemory>
    ensures { IfOk result (λ v. v.items ≡ patterns.now) }
{
    let mut copies = Vec::with_capacity(alloc, patterns.len())?;
    for pattern in patterns {
        copies.push(copy_pattern(alloc, pattern)?)?;
    }
    Ok(copies)
}
