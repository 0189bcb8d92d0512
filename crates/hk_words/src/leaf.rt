// The one command of clap that reads the words after the command's name.
ghost use Rattle.std.specs.Prelude.{◌≡◌, IfOk, MatchOption, map, string_bytes};
ghost use Rattle.clap.specs.Words.{app_of};
ghost use Rattle.hk_words.specs.Arguments as spec;
ghost use Rattle.hk_words.specs.Arguments.{Refused};
ghost use Rattle.hk_words.specs.Given.{given};
ghost use Rattle.hk_words.specs.Leaf.{app, given_by};

use crate::arguments::{Arguments, Operands};
use crate::numbers::read_number;
use clap::error::ErrorKind;
use clap::{Arg, ArgAction};
use hk_base::NoMemory;
use std::alloc::{AllocError, Global};

/// What the words after the command's name give it, before any number is read.
#[derive(Drop)]
pub struct Matched<'a> {
    workers: Option<&'a str>,
    trace: bool,
    number: Option<&'a str>,
    count: Option<&'a str>,
}

/// Each option at most once and up to two operands, in any order. `None` is for words that no command takes.
pub fn read_matched<'a>(alloc: Global, words: &'a [String]) -> Result<Option<Matched<'a>>, NoMemory>
    ensures { IfOk result (λ r. MatchOption r
        (Refused (given (map (λ w. string_bytes w) words.entry.now)))
        (λ m. given (map (λ w. string_bytes w) words.entry.now) ≡ given_by m)) }
{
    if words.iter().any(|word| word.as_str() == "--") {
        return Ok(None);
    }
    let Ok(leaf) = leaf(alloc) else {
        return Err(NoMemory);
    };
    match leaf.try_get_matches_from(words) {
        Ok(matches) => Ok(Some(Matched {
            workers: matches.get_str("workers"),
            trace: matches.get_flag("trace"),
            number: matches.get_str("number"),
            count: matches.get_str("count"),
        })),
        Err(error) if error.kind() == ErrorKind::OutOfMemory => Err(NoMemory),
        Err(_) => Ok(None),
    }
}

/// The options and operands of all commands together.
fn leaf<'a>(alloc: Global) -> Result<clap::Command<'a>, AllocError>
    ensures { IfOk result (λ c. app_of c ≡ app) }
{
    let workers = Arg::new(alloc, "workers")
        .long("workers")
        .action(ArgAction::Set);
    let trace = Arg::new(alloc, "trace")
        .long("trace")
        .action(ArgAction::SetTrue);
    let number = Arg::new(alloc, "number");
    let count = Arg::new(alloc, "count");
    clap::Command::new(alloc, "words")
        .no_binary_name(true)
        .disable_help_flag(true)
        .disable_version_flag(true)
        .arg(workers)?
        .arg(trace)?
        .arg(number)?
        .arg(count)
}

impl Matched<'_> {
    /// What is given, if the numbers are well formed.
    pub fn arguments(&self) -> Option<Arguments>
        ensures { result ≡ spec.arguments_in (given_by self.now) }
    {
        let workers = self.workers()?;
        let operands = self.operands()?;
        Some(Arguments {
            workers,
            trace: self.trace,
            operands,
        })
    }

    fn workers(&self) -> Option<Option<u32>>
        ensures { result ≡ spec.workers_in (given_by self.now).workers }
    {
        match self.workers {
            Some(text) => Some(Some(read_number(text, 1, 64)?)),
            None => Some(None),
        }
    }

    fn operands(&self) -> Option<Option<Operands>>
        ensures { result ≡ spec.operands_in (given_by self.now).operands }
    {
        match self.number {
            Some(number) => Some(Some(Operands {
                number: read_number(number, 0, u32::MAX)?,
                count: read_number(self.count?, 1, 20_000)?,
            })),
            None => Some(None),
        }
    }
}
