// The title of an item.
ghost use Rattle.std.specs.Prelude.{◌≡◌, ◌<◌, length};
ghost use Rattle.hk_rules.specs.Plan.{lookups};
ghost use Rattle.hk_feed.specs.Titles as spec;

use hk_chain::ItemNo;
use hk_meta::last_component;
use hk_route::without_extension;
use hk_rules::Plan;

/// The title of an item, lent: its metadata `title`, or else the last component of its path without its extension. Linear
/// in the path.
pub(crate) fn title_at(plan: &Plan, item: ItemNo) -> &[u8]
    requires { item < length plan.now.items }
    ensures { result.now ≡ spec.title_at (lookups plan.now) item }
{
    match plan.meta(item).get(b"title") {
        Some(title) => title,
        None => title_of(plan.id(item).path()),
    }
}

/// The last component of a path without its extension.
fn title_of(path: &[u8]) -> &[u8]
    ensures { result.now ≡ spec.title_of path.now }
{
    without_extension(last_component(path))
}
