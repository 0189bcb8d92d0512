// Members of a list, joined.
ghost use Rattle.std.specs.Prelude.{◌≡◌, [], None, IfOk};
ghost use Rattle.std.specs.Option.{unwrap_or};
ghost use Rattle.hk_meta.specs.Scalar.{with_one_more};

use hk_base::NoMemory;
use std::alloc::Global;
use std::marker::Model;

/// The members of a list that were read so far, joined by `, `.
#[derive(Drop)]
pub(crate) struct Joined {
    text: Vec<u8>,
    begun: bool,
}

impl Model for Joined {
    ghost use Rattle.std.specs.Prelude.{◌≡◌, List, ℕ, [], Option, Some, None, false, if◌then◌else◌};

    ghost Value = { Option (List ℕ) };

    ghost view = { λ j. if j.begun then Some j.text.items else None };

    ghost invariant = { λ j. j.begun ≡ false → j.text.items ≡ [] };
}

impl Joined {
    pub fn new(alloc: Global) -> Joined
        ensures { result ≡ None }
    {
        Joined {
            text: Vec::new(alloc),
            begun: false,
        }
    }

    pub fn push(&mut self, member: &[u8]) -> Result<(), NoMemory>
        ensures { IfOk result (λ _. self.new ≡ with_one_more self.old member.now) }
    {
        if self.begun {
            self.text.extend_from_slice(b", ")?;
        }
        self.begun = true;
        self.text.extend_from_slice(member)?;
        Ok(())
    }

    pub fn into_value(self) -> Vec<u8>
        ensures { result.items ≡ unwrap_or self [] }
    {
        self.text
    }
}
