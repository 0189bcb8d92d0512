// The targets of a site.
ghost use Rattle.std.specs.Prelude.{◌≡◌, ◌<◌, IsTrue, length};
ghost use Rattle.hk_base.specs.Bytes.{ascends};
ghost use Rattle.hk_links.specs.Report as spec;

use hk_base::Text;

/// The target of the page with this number. Constant.
#[tactic(auto, using(std::proofs::lemmas::List::get_or_default))]
pub fn target_at(targets: &[Text], number: u32) -> &[u8]
    requires { number < length targets.now }
    ensures { result.now ≡ spec.target_at targets.now number }
{
    targets[number as usize].as_slice()
}

/// Whether the path is a target. Logarithmic in the targets.
pub fn is_target(targets: &[Text], path: &[u8]) -> bool
    requires { IsTrue (ascends targets.now) }
    ensures { result ≡ spec.is_target targets.now path.now }
{
    targets
        .binary_search_by(|target| target.as_slice().cmp(path))
        .is_ok()
}
