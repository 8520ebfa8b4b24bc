//! The actions and the table of options: a row for each option, as `row_of` in `specs/CommandLine.antt` has it.

ghost use Rattle.std.specs.Prelude.{◌≡◌};
ghost use Rattle.cd_command.specs.CommandLine.{same_action};

use crate::value::Values;

/// The actions that the positional word may name.
#[derive(Clone, Copy)]
pub(crate) enum Action {
    Check,
    Read,
    Lift,
    Run,
    Make,
}

impl Action {
    /// Whether this is that action.
    pub(crate) fn is(self, other: Action) -> bool
        ensures { result ≡ same_action self other }
    {
        matches!(
            (self, other),
            (Action::Check, Action::Check)
                | (Action::Read, Action::Read)
                | (Action::Lift, Action::Lift)
                | (Action::Run, Action::Run)
                | (Action::Make, Action::Make)
        )
    }
}

/// What an option is: its name; the numbers that its value may be, where it takes one; the action with which it stands.
#[derive(Clone, Copy)]
pub(crate) struct Row {
    pub(crate) name: &'static str,
    pub(crate) values: Option<Values>,
    pub(crate) stands_with: Action,
}

pub(crate) const WORKERS: Row = Row {
    name: "workers",
    values: Some(Values {
        least: 1,
        most: 64,
        usual: 2,
    }),
    stands_with: Action::Run,
};

pub(crate) const SIZE: Row = Row {
    name: "size",
    values: Some(Values {
        least: 1,
        most: 14,
        usual: 4,
    }),
    stands_with: Action::Make,
};

pub(crate) const RECORD: Row = Row {
    name: "record",
    values: None,
    stands_with: Action::Run,
};
