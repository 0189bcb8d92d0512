// The names under which a chain saves its page.
ghost use Rattle.std.specs.Prelude.{◌≡◌, option_map};
ghost use Rattle.hk_rules_file.specs.Saves as spec;

use hk_chain::Step;

/// The name under which a step saves the page. Constant.
pub fn saved(step: &Step) -> Option<&[u8]>
    ensures { option_map (λ t. t.now) result ≡ spec.saved step.now }
{
    match step {
        Step::Save(name) => Some(name.as_slice()),
        _ => None,
    }
}
