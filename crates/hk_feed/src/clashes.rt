// Targets that can't both be written.
ghost use Rattle.std.specs.Prelude.{◌≡◌, option_map};
ghost use Rattle.std.specs.List.{list_any, range_with_len};
ghost use Rattle.hk_rules.specs.Plan.{lookups};
ghost use Rattle.hk_feed.specs.FeedFaults as spec;

use hk_chain::ItemNo;
use hk_rules::Plan;
use hk_rules_file::FeedRule;

/// Whether an item or an earlier feed has this target, or one that lies above or below it. One comparison for each.
pub(crate) fn is_taken(plan: &Plan, earlier: &[FeedRule], target: &[u8]) -> bool
    ensures { result ≡ spec.is_taken (lookups plan.now) earlier.now target.now }
{
    is_taken_by_item(plan, target) || is_taken_by_feed(earlier, target)
}

fn is_taken_by_item(plan: &Plan, target: &[u8]) -> bool
    ensures { result ≡ list_any (spec.clashes_with_item (lookups plan.now) target.now) (range_with_len 0 (lookups plan.now).count) }
{
    for number in 0..plan.count() {
        if clashes_with(target, plan.target_of(ItemNo(number))) {
            return true;
        }
    }
    false
}

fn is_taken_by_feed(earlier: &[FeedRule], target: &[u8]) -> bool
    ensures { result ≡ list_any (spec.clashes_with_feed target.now) earlier.now }
{
    earlier
        .iter()
        .any(|feed| clashes(target, feed.target.as_slice()))
}

fn clashes_with(target: &[u8], other: Option<&[u8]>) -> bool
    ensures { result ≡ spec.clashes_with target.now (option_map (λ t. t.now) other.entry) }
{
    match other {
        Some(other) => clashes(target, other),
        None => false,
    }
}

fn clashes(target: &[u8], other: &[u8]) -> bool
    ensures { result ≡ spec.clashes target.now other.now }
{
    target == other || lies_below(other, target) || lies_below(target, other)
}

/// Whether a path goes on with a slash after all of another.
fn lies_below(above: &[u8], below: &[u8]) -> bool
    ensures { result ≡ spec.lies_below above.now below.now }
{
    above.len() < below.len() && below[above.len()] == b'/' && below.starts_with(above)
}
