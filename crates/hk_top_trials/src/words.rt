// Words and the command that they are.
use hk_base::NoMemory;
use hk_words::{BuildOptions, Command, GenerateOptions, command, usage_text};
use std::alloc::Global;
use std::test::Fail;

/// The command that the words of a line are.
fn read(alloc: Global, line: &str) -> Result<Option<Command>, NoMemory> {
    let mut words = Vec::new(alloc);
    for word in line.split_whitespace() {
        words.push(String::from_str(alloc, word)?)?;
    }
    command(alloc, &words)
}

fn build(workers: u32, trace: bool) -> Command {
    Command::Build(BuildOptions { workers, trace })
}

fn rebuild(workers: u32, trace: bool) -> Command {
    Command::Rebuild(BuildOptions { workers, trace })
}

fn generate(number: u32, count: u32, workers: u32) -> Command {
    Command::Generate(GenerateOptions {
        number,
        count,
        workers,
    })
}

#[test]
fn words_are_a_command(rt: HostRuntime) -> Result<(), Fail> {
    for (line, wanted) in [
        ("build", build(1, false)),
        ("build --trace", build(1, true)),
        ("build --workers=2 --trace", build(2, true)),
        ("build --trace --workers 0000000064", build(64, true)),
        ("rebuild", rebuild(1, false)),
        ("rebuild --trace --workers=64", rebuild(64, true)),
        ("check", Command::Check),
        ("deps", Command::Deps),
        ("clean", Command::Clean),
        ("links", Command::Links),
        ("gen 7 2000", generate(7, 2000, 1)),
        ("gen 7 --workers 3 2000", generate(7, 2000, 3)),
        ("gen --workers=64 0 1", generate(0, 1, 64)),
        ("gen 4294967295 0000020000", generate(u32::MAX, 20_000, 1)),
    ] {
        assert!(rt; read(rt.alloc(), line)? == Some(wanted), "{line}");
    }
    Ok(())
}

#[test]
fn other_words_are_none(rt: HostRuntime) -> Result<(), Fail> {
    for line in [
        "",
        "make",
        "Build",
        "--build",
        "help",
        "--help",
        "build -h",
        "build --help",
        "build --",
        "build --x",
        "build check",
        "build --workers",
        "build --workers 0",
        "build --workers 65",
        "build --trace --trace",
        "build --trace=x",
        "build --workers 00000000002",
        "build --workers +2",
        "check --workers 2",
        "check --trace",
        "check x",
        "check -- x",
        "rebuild x",
        "rebuild --workers 65",
        "deps --trace",
        "deps x",
        "clean --workers 1",
        "clean x",
        "gen",
        "gen 7",
        "gen 7 0",
        "gen 7 20001",
        "gen 4294967296 1",
        "gen 7 1 1",
        "gen -7 1",
        "gen 7 1 --trace",
        "gen 7 1 --workers 65",
        "gen 7 1 --",
    ] {
        assert!(rt; read(rt.alloc(), line)?.is_none(), "{line}");
    }
    Ok(())
}

#[test]
fn usage_has_a_line_for_each_command(rt: HostRuntime) -> Result<(), Fail> {
    let lines = [
        "usage: hakyll_cli build [--workers N] [--trace]\n",
        "       hakyll_cli rebuild [--workers N] [--trace]\n",
        "       hakyll_cli check\n",
        "       hakyll_cli deps\n",
        "       hakyll_cli clean\n",
        "       hakyll_cli gen NUMBER COUNT [--workers N]\n",
        "       hakyll_cli links\n",
    ];
    let mut text = String::new(rt.alloc());
    for line in lines {
        text.push_str(line)?;
    }
    assert_eq!(rt; usage_text(), text.as_bytes());
    Ok(())
}
