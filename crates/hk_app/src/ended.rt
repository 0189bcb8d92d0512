// What a run came to before its text is written.
ghost use Rattle.std.specs.Prelude.{◌≡◌, ◌++◌, IfOk};

use crate::Status;
use hk_base::{NoMemory, Text};
use std::alloc::Global;

/// A status with the text that goes with it.
#[derive(Drop)]
pub struct Ended {
    pub status: Status,
    pub text: Text,
}

impl Ended {
    pub fn new(alloc: Global, status: Status, text: &[u8]) -> Result<Ended, NoMemory>
        ensures { IfOk result (λ e. (e.status ≡ status) × (e.text ≡ text.now)) }
    {
        Ok(Ended {
            status,
            text: Text::from_slice(alloc, text)?,
        })
    }

    /// The same with a text in front.
    pub fn after(self, front: Text) -> Result<Ended, NoMemory>
        ensures { IfOk result (λ e. (e.status ≡ self.status) × (e.text ≡ front ++ self.text)) }
    {
        let mut text = front.into_vec();
        text.extend_from_slice(self.text.as_slice())?;
        Ok(Ended {
            status: self.status,
            text: Text::from_vec(text),
        })
    }
}
