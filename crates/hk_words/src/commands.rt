// The commands of the program.

/// What the program is told to do.
#[derive(Clone, Copy, Debug, PartialEq, Eq)]
pub enum Command {
    /// The site is compiled and written. What was stored before and still stands is reused.
    Build(BuildOptions),
    /// The site is compiled and written, and nothing that was stored before is reused.
    Rebuild(BuildOptions),
    /// The site is compiled and not written.
    Check,
    /// The site is compiled and not written, and what each item loads is listed.
    Deps,
    /// The site and the cache are emptied.
    Clean,
    /// A generated site is compiled in memory.
    Generate(GenerateOptions),
    /// The site is compiled and not written, and its links that lead nowhere are listed.
    Links,
}

/// How a build runs, and what it prints.
#[derive(Clone, Copy, Debug, PartialEq, Eq)]
pub struct BuildOptions {
    /// How many workers run the compilers, from 1 to 64.
    pub workers: u32,
    /// Whether a line for each event of the run stands in front of its text.
    pub trace: bool,
}

/// Which site is generated, and how its build runs.
#[derive(Clone, Copy, Debug, PartialEq, Eq)]
pub struct GenerateOptions {
    /// The number that the site's random numbers start from.
    pub number: u32,
    /// How many posts the site has, from 1 to 20,000.
    pub count: u32,
    /// How many workers run the compilers, from 1 to 64.
    pub workers: u32,
}
