//! The command of what the words give: the action of the positional word, with the options that stand with it.

ghost use Rattle.std.specs.Prelude.{◌≡◌, ◌||◌, not, option_map, option_and_then};
ghost use Rattle.cd_command.specs.CommandLine.{action_of, same_action, fits, number_or, command_to, command_by, IsWithin};
ghost use Rattle.cd_command.specs.Parses.{given_by};

use crate::Command;
use crate::line::Entries;
use crate::options::{Action, RECORD, Row, SIZE, WORKERS};
use crate::value::number_or;

/// The command of what the words give, or none.
pub(crate) fn command_by(found: &Entries<'_>) -> Option<Command>
    ensures exact { result ≡ command_by (given_by found.now) }
    ensures range { IsWithin result }
{
    let action = action_of(found.action)?;
    if !fits(action, found) {
        return None;
    }
    command_to(action, found)
}

fn action_of(word: &str) -> Option<Action>
    ensures { result ≡ action_of word.now }
{
    match word {
        "check" => Some(Action::Check),
        "read" => Some(Action::Read),
        "lift" => Some(Action::Lift),
        "run" => Some(Action::Run),
        "make" => Some(Action::Make),
        _ => None,
    }
}

/// Whether each option stands with the action, or was not given.
fn fits(action: Action, found: &Entries<'_>) -> bool
    ensures { result ≡ fits action (given_by found.now) }
{
    stands(WORKERS, action, found.workers.is_some())
        && stands(SIZE, action, found.size.is_some())
        && stands(RECORD, action, found.with_record)
}

fn stands(row: Row, action: Action, given: bool) -> bool
    ensures { result ≡ (same_action row.stands_with action || not given) }
{
    row.stands_with.is(action) || !given
}

/// The command of an action, with the options that stand with it.
fn command_to(action: Action, found: &Entries<'_>) -> Option<Command>
    ensures exact { result ≡ command_to action (given_by found.now) }
    ensures range { IsWithin result }
{
    match action {
        Action::Check => Some(Command::Check),
        Action::Read => Some(Command::Read),
        Action::Lift => Some(Command::Lift),
        Action::Run => Some(Command::Run {
            workers: number_for(WORKERS, found.workers)?,
            with_record: found.with_record,
        }),
        Action::Make => Some(Command::Make {
            size: number_for(SIZE, found.size)?,
        }),
    }
}

/// The number of an option that takes a value.
fn number_for(row: Row, entry: Option<&str>) -> Option<u32>
    ensures { result ≡ option_and_then (λ values. number_or values (option_map (λ s. s.now) entry.entry)) row.values }
{
    number_or(row.values?, entry)
}
