//! What is wrong with a statement or a part of one, and which of it comes first.
ghost use Rattle.std.specs.Prelude.{◌≡◌, ◌+◌, ◌<◌, ◌^◌, is_ok};
ghost use Rattle.std.specs.List.{list_all};
ghost use Rattle.cd_tokens.specs.declared.wrong.Stop.TheVariants as stop;
ghost use Rattle.cd_tokens.specs.Steps.{stopped_at};
ghost use Rattle.cd_tokens.specs.Wrongs.{limit_rank, rank, first_wrong, both, guard, room, all_hold, refusal_at};

use cd_base::NoMemory;
use cd_tree::{Refusal, Refuse, Which};
use std::alloc::{AllocError, AllocFailed};

/// What is wrong with a statement, or with a part of one.
#[derive(Debug, Clone, Copy, PartialEq, Eq)]
pub enum Wrong {
    /// It has no form, or cannot stand there.
    Form,
    /// A number leaves the range of 64 bits.
    Overflow,
    /// A range or place names no region declared so far.
    NoRegion,
    /// A range is empty or not within its region, or a place is not.
    Outside,
    /// A name is taken.
    Taken,
    /// A region has no word, or an operation's lengths or ranges do not fit.
    Unfit,
    /// A limit is passed by this count.
    Limit(Which, u64),
}

/// Why a step of parsing is not made.
#[derive(Debug, Clone, Copy, PartialEq, Eq)]
pub enum Stop {
    Wrong(Wrong),
    NoMemory,
}

impl From<Wrong> for Stop {
    ghost from_gives = { λ wrong e. e ≡ stop.Wrong wrong };

    fn from(wrong: Wrong) -> Self {
        Stop::Wrong(wrong)
    }
}

impl From<NoMemory> for Stop {
    ghost from_gives = { λ _ e. e ≡ stop.NoMemory };

    fn from(_error: NoMemory) -> Self {
        Stop::NoMemory
    }
}

impl From<AllocError> for Stop {
    ghost from_gives = { λ _ e. e ≡ stop.NoMemory };

    fn from(_error: AllocError) -> Self {
        Stop::NoMemory
    }
}

impl<T: Drop> From<AllocFailed<T>> for Stop {
    ghost from_gives = { λ _ e. e ≡ stop.NoMemory };

    fn from(_error: AllocFailed<T>) -> Self {
        Stop::NoMemory
    }
}

impl Stop {
    /// What is answered where a step at this line stops. It takes no memory.
    pub fn at(self, line: u32) -> Refuse
        ensures { result ≡ stopped_at line self }
    {
        match self {
            Stop::Wrong(wrong) => Refuse::Refused(wrong.at(line)),
            Stop::NoMemory => Refuse::NoMemory,
        }
    }
}

impl Wrong {
    /// The refusal of a statement at this line. It takes no memory.
    pub fn at(self, line: u32) -> Refusal
        ensures { result ≡ refusal_at line self }
    {
        match self {
            Wrong::Form => Refusal::Line(line),
            Wrong::Overflow => Refusal::Arithmetic(line),
            Wrong::NoRegion => Refusal::UnknownRegion(line),
            Wrong::Outside => Refusal::OutsideRegion(line),
            Wrong::Taken => Refusal::NameTaken(line),
            Wrong::Unfit => Refusal::Shape(line),
            Wrong::Limit(which, count) => Refusal::Limit(which, count),
        }
    }

    // The place in the order of refusals within one statement.
    fn rank(self) -> u32
        ensures { result ≡ rank self }
    {
        match self {
            Wrong::Form => 0,
            Wrong::Overflow => 1,
            Wrong::NoRegion => 2,
            Wrong::Outside => 3,
            Wrong::Taken => 4,
            Wrong::Unfit => 5,
            Wrong::Limit(which, _) => limit_rank(which),
        }
    }

    // What comes first of two that are wrong.
    pub(crate) fn or_before(self, other: Wrong) -> Wrong
        ensures { result ≡ first_wrong self other }
    {
        if self.rank() <= other.rank() {
            self
        } else {
            other
        }
    }
}

fn limit_rank(which: Which) -> u32
    ensures { result ≡ limit_rank which }
{
    match which {
        Which::Name => 6,
        Which::Nesting => 7,
        Which::Kinds => 8,
        Which::Regions => 9,
        Which::Words => 10,
        Which::Domains => 11,
        Which::Depth => 12,
        Which::Items => 13,
        Which::Entries => 14,
        Which::Preserves => 15,
        Which::Members => 16,
        Which::Retry => 17,
        Which::Faults => 18,
        Which::Lines => 19,
        Which::Need => 20,
    }
}

/// Two parts of a statement: their values, or the first of what is wrong with them. It takes no memory.
pub fn both<A: Drop, B: Drop>(
    one: Result<A, Wrong>,
    other: Result<B, Wrong>,
) -> Result<(A, B), Wrong>
    ensures { result ≡ both one other }
{
    match (one, other) {
        (Ok(a), Ok(b)) => Ok((a, b)),
        (Ok(_), Err(wrong)) => Err(wrong),
        (Err(wrong), Ok(_)) => Err(wrong),
        (Err(wrong), Err(other)) => Err(wrong.or_before(other)),
    }
}

/// A test that has to hold. It takes no memory.
pub fn guard(holds: bool, wrong: Wrong) -> Result<(), Wrong>
    ensures { result ≡ guard holds wrong }
{
    if holds { Ok(()) } else { Err(wrong) }
}

/// One thing more, where there are `count` and at most `most` may be. It takes no memory.
pub fn room(which: Which, most: u32, count: usize) -> Result<(), Wrong>
    ensures { result ≡ room which most count }
{
    guard(
        count < most as usize,
        Wrong::Limit(which, u64::from(most) + 1),
    )
}

/// Tests that all have to hold, else the first of all that is wrong. It takes no memory.
pub fn all_hold(tests: &[Result<(), Wrong>]) -> Result<(), Wrong>
    ensures { result ≡ all_hold tests.now }
{
    if are_held(tests) {
        Ok(())
    } else {
        first_of(tests)
    }
}

fn are_held(tests: &[Result<(), Wrong>]) -> bool
    ensures { result ≡ list_all is_ok tests.now }
{
    tests.iter().all(|test| test.is_ok())
}

// The first of all that is wrong with tests, where anything is.
fn first_of(tests: &[Result<(), Wrong>]) -> Result<(), Wrong>
    ensures { result ≡ all_hold tests.now }
{
    match tests {
        [] => Ok(()),
        [test, rest @ ..] => {
            both(*test, first_of(rest))?;
            Ok(())
        }
    }
}
