// Why there are no rules.
use hk_base::Text;

/// Why the bytes of a file are no rules.
#[derive(Debug, PartialEq, Eq, Drop)]
pub enum RulesFault {
    /// More than 1,048,576 bytes.
    TooLong,
    /// The bytes are no TOML.
    NotToml,
    /// The rule of this number, from 1, has another form than a rule at the key `word`; 0 is the top table.
    BadRule { number: u32, word: Text },
    /// More than 1,024 rules.
    TooManyRules,
    /// The context of this name has another form than a context.
    BadContext { name: Text },
    /// The rule saves two pages under this name.
    DoubleSnapshot { number: u32, name: Text },
    /// The rule names a context that there is not.
    UnknownContext { number: u32, name: Text },
    /// The `tags` table of this number, from 1, has another form at the key `word`.
    BadTags { number: u32, word: Text },
    /// The `paginate` table of this number, from 1, has another form at the key `word`.
    BadPaginate { number: u32, word: Text },
    /// The `feed` table of this number, from 1, has another form at the key `word`.
    BadFeed { number: u32, word: Text },
}
