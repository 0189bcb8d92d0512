// The words of a command line.
ghost use Rattle.std.specs.Prelude.{◌≡◌, IfOk, map, string_bytes};
ghost use Rattle.hk_words.specs.Arguments.{arguments_in};
ghost use Rattle.hk_words.specs.Given.{given};
ghost use Rattle.hk_words.specs.Words as spec;

use crate::arguments::Arguments;
use crate::commands::{BuildOptions, Command, GenerateOptions};
use crate::leaf::read_matched;
use hk_base::NoMemory;
use std::alloc::Global;

/// The command that the words are, or `None` exactly where they are none.
///
/// The first word is the command's name. After it stand its options, in any order and each at most once, and its operands.
/// `build` and `rebuild` take `--workers`, with the next word or what follows `=`, and `--trace`; `check`, `deps`, `clean`
/// and `links` take nothing; `gen` takes two operands, NUMBER and COUNT, and `--workers`. Numbers are one to ten digits:
/// NUMBER 0 to 4,294,967,295, COUNT 1 to 20,000, and workers 1 to 64, one where none are given. Any other word, as `--`,
/// `-h`, `--help` or a repeated option, makes the words no command.
///
/// `NoMemory` only for want of memory. Linear in the bytes of the words.
pub fn command(alloc: Global, words: &[String]) -> Result<Option<Command>, NoMemory>
    ensures { IfOk result (λ c. c ≡ spec.command (map (λ w. string_bytes w) words.now)) }
{
    match words.split_first() {
        Some((name, rest)) => read_command(alloc, name.as_str(), rest),
        None => Ok(None),
    }
}

fn read_command(alloc: Global, name: &str, rest: &[String]) -> Result<Option<Command>, NoMemory>
    ensures { IfOk result (λ c. c ≡ spec.command_of name.now (map (λ w. string_bytes w) rest.now)) }
{
    match read_arguments(alloc, rest)? {
        Some(arguments) => Ok(named(name, &arguments)),
        None => Ok(None),
    }
}

/// What the words after the name say, if each part of it is well formed.
fn read_arguments(alloc: Global, words: &[String]) -> Result<Option<Arguments>, NoMemory>
    ensures { IfOk result (λ a. a ≡ arguments_in (given (map (λ w. string_bytes w) words.now))) }
{
    match read_matched(alloc, words)? {
        Some(matched) => Ok(matched.arguments()),
        None => Ok(None),
    }
}

/// The command of a name, if it takes the arguments.
fn named(name: &str, arguments: &Arguments) -> Option<Command>
    ensures { result ≡ spec.named name.now arguments.now }
{
    match name {
        "build" => Some(Command::Build(build_options(arguments)?)),
        "rebuild" => Some(Command::Rebuild(build_options(arguments)?)),
        "check" => alone(Command::Check, arguments),
        "deps" => alone(Command::Deps, arguments),
        "clean" => alone(Command::Clean, arguments),
        "gen" => Some(Command::Generate(generate_options(arguments)?)),
        "links" => alone(Command::Links, arguments),
        _ => None,
    }
}

/// The options of a build, which takes `--workers` and `--trace`.
fn build_options(arguments: &Arguments) -> Option<BuildOptions>
    ensures { result ≡ spec.build_options arguments.now }
{
    if arguments.operands.is_some() {
        return None;
    }
    Some(BuildOptions {
        workers: workers_or_one(arguments.workers),
        trace: arguments.trace,
    })
}

/// The options of `gen`, which takes two numbers and `--workers`.
fn generate_options(arguments: &Arguments) -> Option<GenerateOptions>
    ensures { result ≡ spec.generate_options arguments.now }
{
    if arguments.trace {
        return None;
    }
    let operands = arguments.operands?;
    Some(GenerateOptions {
        number: operands.number,
        count: operands.count,
        workers: workers_or_one(arguments.workers),
    })
}

fn workers_or_one(workers: Option<u32>) -> u32
    ensures { result ≡ spec.workers_or_one workers }
{
    match workers {
        Some(workers) => workers,
        None => 1,
    }
}

/// A command that takes no option and no operand.
fn alone(command: Command, arguments: &Arguments) -> Option<Command>
    ensures { result ≡ spec.alone command arguments.now }
{
    if arguments.workers.is_none() && !arguments.trace && arguments.operands.is_none() {
        Some(command)
    } else {
        None
    }
}
