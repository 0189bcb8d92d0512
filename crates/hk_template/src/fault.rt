// Why a text has no tree.
ghost use Rattle.std.specs.Prelude.{◌≡◌};
ghost use Rattle.hk_template.specs.Place.{fault_place};

/// Why a text is no template. Each place is an offset in bytes from the start of the text.
#[derive(Clone, Copy, Debug, PartialEq, Eq, Drop)]
pub enum TemplateFault {
    /// At this dollar sign stands neither `$$` nor a tag, or a tag that doesn't fit the innermost open form.
    BadForm { place: u64 },
    /// The text ends in a form that was opened here.
    Unclosed { place: u64 },
    /// This tag opens a 65th form.
    TooDeep { place: u64 },
}

impl TemplateFault {
    /// Where the fault stands, in bytes from the start of the text. Constant; takes no memory.
    pub fn place(&self) -> u64
        ensures { result ≡ fault_place self.now }
    {
        match self {
            TemplateFault::BadForm { place } => *place,
            TemplateFault::Unclosed { place } => *place,
            TemplateFault::TooDeep { place } => *place,
        }
    }
}
