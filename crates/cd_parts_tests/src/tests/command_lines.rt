//! Command lines and the commands that they give.

ghost use Rattle.std.specs.Prelude.{◌≤◌};

use cd_base::{NoMemory, Text};
use cd_command::{Command, Words, command_of};
use std::alloc::Global;
use std::test::Fail;

macro_rules! run {
    ($workers:literal, $with_record:literal) => {
        Command::Run {
            workers: $workers,
            with_record: $with_record,
        }
    };
}

macro_rules! make {
    ($size:literal) => {
        Command::Make { size: $size }
    };
}

/// The words of a line, with one space between each two of them.
fn words_of(alloc: Global, line: &str) -> Result<Words, NoMemory> {
    let mut words = Words::new(alloc);
    for word in line.split(' ') {
        words.push(Text::of(alloc, word)?)?;
    }
    Ok(words)
}

/// Commands, each with lines that give it.
static COMMANDS: [(Command, &[&str]); 16] = [
    (Command::Check, &["check", "-- check"]),
    (Command::Read, &["read"]),
    (Command::Lift, &["lift", "-- lift"]),
    (
        run!(2, false),
        &["run", "run --workers=2", "-- run", "run --"],
    ),
    (
        run!(8, false),
        &[
            "run --workers 8",
            "--workers 8 run",
            "run --workers=8",
            "--workers=8 run",
            "run --workers 008",
        ],
    ),
    (run!(1, false), &["run --workers 1", "run --workers 001"]),
    (run!(64, false), &["run --workers 64", "run --workers=064"]),
    (
        run!(5, false),
        &["--workers 5 -- run", "--workers=5 run --"],
    ),
    (
        run!(2, true),
        &["run --record", "--record run", "--record -- run"],
    ),
    (
        run!(3, true),
        &[
            "--record --workers 3 run",
            "--workers 3 --record run",
            "--workers 3 run --record",
        ],
    ),
    (run!(63, true), &["run --record --workers=63"]),
    (make!(1), &["make --size 1"]),
    (make!(4), &["make", "make --size=4"]),
    (make!(5), &["--size 5 -- make"]),
    (
        make!(9),
        &["--size 9 make", "--size=9 make", "make --size 9"],
    ),
    (
        make!(14),
        &["make --size 14", "make --size=014", "--size 14 -- make"],
    ),
];

/// Lines that give no command.
static NO_COMMANDS: [&str; 79] = [
    "",
    " ",
    "-",
    "--",
    "- run",
    "run -",
    "run ",
    " run",
    "run run",
    "run check",
    "check check",
    "walk",
    "Run",
    "runs",
    "ru",
    "rün",
    "-- -- run",
    "-- run --",
    "-- --",
    "-- --record run",
    "run -- --record",
    "run -- --workers=2",
    "run -- -",
    "--help",
    "--help run",
    "-h",
    "run -h",
    "--version",
    "-V",
    "help",
    "-r run",
    "-é run",
    "--é run",
    "-abc",
    "---record run",
    "--= run",
    "--=3 run",
    "--work 3 run",
    "--worker=3 run",
    "--rec run",
    "--Record run",
    "--recorder run",
    "--record=1 run",
    "--record= run",
    "--record --record run",
    "--workers 2 --workers 2 run",
    "--workers=2 run --workers=2",
    "--workers 2 run --workers=2",
    "--size 2 make --size 2",
    "--workers",
    "run --workers",
    "run --workers -",
    "--workers - run",
    "--workers -2 run",
    "--workers --record run",
    "--workers -- run",
    "--workers run",
    "run --workers=",
    "run --workers=-",
    "run --workers 0",
    "run --workers 000",
    "run --workers 65",
    "run --workers=999",
    "run --workers 0008",
    "run --workers +2",
    "run --workers=2x",
    "run --workers=1=2",
    "run --workers=0x2",
    "run --workers ²",
    "make --size 0",
    "make --size 15",
    "make --size=0014",
    "make --size",
    "check --record",
    "read --workers 2",
    "make --record",
    "make --workers=2",
    "run --size 4",
    "lift --size=4",
];

/// Fails, and names the line, unless its words give this command.
fn gives(alloc: Global, line: &str, wanted: Option<Command>) -> Result<(), Fail> {
    let words = words_of(alloc, line)?;
    let found = command_of(alloc, &words)?;
    if found == wanted {
        return Ok(());
    }
    Err(Fail::new(format_args!("{found:?} in place of {wanted:?}: {line}")))
}

/// Fails unless each of these lines gives this command.
fn all_give(alloc: Global, lines: &[&str], wanted: Option<Command>) -> Result<(), Fail> {
    for line in lines {
        gives(alloc, line, wanted)?;
    }
    Ok(())
}

#[test]
fn each_line_gives_its_command(rt: HostRuntime) -> Result<(), Fail> {
    for (command, lines) in &COMMANDS {
        all_give(rt.alloc(), lines, Some(*command))?;
    }
    Ok(())
}

#[test]
fn other_lines_give_none(rt: HostRuntime) -> Result<(), Fail> {
    all_give(rt.alloc(), &NO_COMMANDS, None)
}

#[test]
fn no_word_gives_no_command(rt: HostRuntime) -> Result<(), Fail> {
    let alloc = rt.alloc();
    assert_eq!(rt; command_of(alloc, &Words::new(alloc))?, None);
    Ok(())
}

/// How far a size is from the ends of its range.
fn distances(size: u32) -> (u32, u32)
    requires { (1 ≤ size) × (size ≤ 14) }
{
    (size - 1, 14 - size)
}

#[test]
fn a_caller_knows_the_range_of_a_size(rt: HostRuntime) -> Result<(), Fail> {
    let alloc = rt.alloc();
    let words = words_of(alloc, "make --size 5")?;
    if let Some(Command::Make { size }) = command_of(alloc, &words)? {
        assert_eq!(rt; distances(size), (4, 9));
    }
    Ok(())
}
