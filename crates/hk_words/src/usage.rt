// What is printed where the words are no command.
ghost use Rattle.std.specs.Prelude.{◌≡◌};
ghost use Rattle.hk_words.specs.Usage.{usage};

/// How the program is used: a line for each command, with what it takes, and an LF after each. Constant; takes no memory.
pub fn usage_text() -> &'static [u8]
    ensures { result.now ≡ usage }
{
    b"usage: hakyll_cli build [--workers N] [--trace]\n       hakyll_cli rebuild [--workers N] [--trace]\n       hakyll_cli check\n       hakyll_cli deps\n       hakyll_cli clean\n       hakyll_cli gen NUMBER COUNT [--workers N]\n       hakyll_cli links\n"
}
