// How a run ended, as the program's caller sees it.
ghost use Rattle.std.specs.Prelude.{◌≡◌};
ghost use Rattle.hk_app.specs.Status.{code_of};

/// How a run ended.
#[derive(Clone, Copy, Debug, PartialEq, Eq, Drop)]
pub enum Status {
    /// The command was done.
    Ok,
    /// Not every item is done.
    Report,
    /// The words are no command.
    Usage,
    /// `site.toml` is absent, or its rules are refused.
    BadRules,
    /// The rules make no plan of the folder.
    BadSite,
    /// The source could not be read.
    ReadFault,
    /// The site could not be written.
    WriteFault,
    /// The store could not be read or written, or the cache not be removed.
    StoreFault,
    /// The text of the run could not be written.
    OutFault,
    /// Want of memory.
    NoMemory,
    /// A link of the site leads nowhere inside it.
    BadLinks,
}

impl Status {
    /// The exit code of the program. Constant; takes no memory.
    pub fn code(&self) -> u8
        ensures { result ≡ code_of self.now }
    {
        match self {
            Status::Ok => 0,
            Status::Report => 1,
            Status::Usage => 2,
            Status::BadRules => 3,
            Status::BadSite => 4,
            Status::ReadFault => 5,
            Status::WriteFault => 6,
            Status::StoreFault => 7,
            Status::OutFault => 8,
            Status::NoMemory => 9,
            Status::BadLinks => 10,
        }
    }
}
