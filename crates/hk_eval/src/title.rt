// Titles of paths.
ghost use Rattle.std.specs.Prelude.{◌≡◌};
ghost use Rattle.hk_eval.specs.Fields as spec;

use hk_meta::last_component;
use hk_route::without_extension;

/// The last component of a path without its extension, lent. Linear in the path; takes no memory.
pub(crate) fn title_of(path: &[u8]) -> &[u8]
    ensures { result.now ≡ spec.title_of path.now }
{
    without_extension(last_component(path))
}
