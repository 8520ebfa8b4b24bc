//! What `clap` is told of the command line, and what it finds in the words.

ghost use Rattle.std.specs.Prelude.{◌≡◌, false, IfOk, option_map};
ghost use Rattle.clap.specs.Matches.{found_of};
ghost use Rattle.clap.specs.Simple.{app_of};
ghost use Rattle.clap.specs.Walk.{rule_of, texts};
ghost use Rattle.cd_command.specs.CommandLine.{Seen, given};
ghost use Rattle.cd_command.specs.Line.{line, rule_with};
ghost use Rattle.cd_command.specs.Parses.{given_by, parsed_in, AreTexts, Finds};

use crate::Words;
use crate::options::{RECORD, Row, SIZE, WORKERS};
use cd_base::NoMemory;
use clap::error::ErrorKind;
use clap::{Arg, ArgAction, ArgMatches};
use std::alloc::{AllocError, Global};

/// What the words give: the positional word, the texts of the options, and whether the flag was given.
#[derive(Drop)]
pub(crate) struct Entries<'a> {
    pub(crate) action: &'a str,
    pub(crate) workers: Option<&'a str>,
    pub(crate) size: Option<&'a str>,
    pub(crate) with_record: bool,
}

/// The words as texts. It takes memory for the list, and not for the texts.
pub(crate) fn texts_of<'a>(alloc: Global, words: &'a Words) -> Result<Vec<&'a str>, NoMemory>
    ensures { IfOk result (λ list. (texts list.items ≡ words.now) × AreTexts words.now) }
{
    let mut texts = Vec::new(alloc);
    for word in words.items() {
        texts.push(word.as_str())?;
    }
    Ok(texts)
}

/// What the parser makes of the words: none where they are no line of it.
pub(crate) fn found<'a>(
    alloc: Global,
    words: &'a [&'a str],
) -> Result<Option<Entries<'a>>, NoMemory>
    requires { AreTexts (texts words.now) }
    ensures { IfOk result (λ found. option_map given_by found ≡ parsed_in (texts words.now)) }
{
    match line(alloc)?.try_get_matches_from(words) {
        Ok(matches) => Ok(entries_of(&matches)),
        Err(error) if error.kind() == ErrorKind::OutOfMemory => Err(NoMemory),
        Err(_) => Ok(None),
    }
}

/// What a parse found.
fn entries_of<'a>(matches: &ArgMatches<'a>) -> Option<Entries<'a>>
    ensures { (seen : Seen) → Finds (found_of matches.now) seen → option_map given_by result ≡ given seen }
{
    Some(Entries {
        action: matches.get_str("action")?,
        workers: matches.get_str(WORKERS.name),
        size: matches.get_str(SIZE.name),
        with_record: matches.get_flag(RECORD.name),
    })
}

/// The command line as `clap` is told of it.
fn line<'a>(alloc: Global) -> Result<clap::Command<'a>, AllocError>
    ensures { IfOk result (λ command. app_of command ≡ line) }
{
    let action = Arg::new(alloc, "action")
        .required(true)
        .action(ArgAction::Set);
    clap::Command::new(alloc, "cd")
        .no_binary_name(true)
        .disable_help_flag(true)
        .arg(argument(alloc, WORKERS))?
        .arg(argument(alloc, SIZE))?
        .arg(argument(alloc, RECORD))?
        .arg(action)
}

/// An option as `clap` is told of it.
fn argument<'a>(alloc: Global, row: Row) -> Arg<'a>
    ensures rule { rule_of result ≡ rule_with row.name.now row.values }
    ensures local { result.global ≡ false }
{
    let way = match row.values {
        Some(_) => ArgAction::Set,
        None => ArgAction::SetTrue,
    };
    Arg::new(alloc, row.name).long(row.name).action(way)
}
