// What was taken of a store.
ghost use Rattle.std.specs.Prelude.{◌≡◌};
ghost use Rattle.std.specs.Option.{option_copied};
ghost use Rattle.hk_build.specs.Ended.{AreBytesOf};

use hk_base::Text;
use hk_store::Stored;

/// The entries of a store with the bytes that they were read from, and the line that says why there are none.
#[derive(Drop)]
pub struct Taken {
    pub stored: Stored,
    pub damage: Text,
    pub(crate) bytes: Option<Text>,
    ghost read: { AreBytesOf stored bytes },
}

impl Taken {
    /// The bytes that the entries were read from; `None` where there were none. Constant.
    pub fn bytes(&self) -> Option<&[u8]>
        ensures value { option_copied result ≡ self.now.bytes }
        ensures read { AreBytesOf self.now.stored (option_copied result) }
    {
        match &self.bytes {
            Some(bytes) => Some(bytes.as_slice()),
            None => None,
        }
    }
}
