//! The parsing of a text: its statements and the turns of its loops, in order.
ghost use Rattle.std.specs.Prelude.{◌≡◌, ◌+◌, ◌≤◌, ◌&&◌, not, nat_lt, length, IfOk, OnOk, codes, bytes_eq};
ghost use Rattle.cd_tree.specs.Limits.{text_limit, nesting_limit};
ghost use Rattle.cd_tokens.specs.Steps.{Reads, Answers};
ghost use Rattle.cd_tokens.specs.Sums.{is_base};
ghost use Rattle.cd_parse.specs.Parsing.{taken, looped, all_turns, is_variable, loop_limits, bounds_part, loop_bounds, ended, draft_of};
ghost use Rattle.cd_parse.specs.Sound.{IsSound};
ghost use Rattle.cd_parse.specs.Turns.{MayGoOn, read_from, turn_from, loop_as, ReadsLoop, ReadsTurn};

use crate::draft::Draft;
use crate::statements::statement;
use cd_base::{Bytes, NoMemory};
use cd_tokens::{Line, Role, Token, Variable, Wrong, both, bounds, guard, is_base, lay_out, room};
use cd_tree::{Refusal, Refuse, Which, limits};
use std::alloc::Global;

// What a loop says.
#[derive(Clone, Copy)]
struct Header<'a> {
    variable: &'a [u8],
    low: u64,
    high: u64,
}

// A statement, at its line.
#[tactic(auto, unfolding(crate::specs::Parsing::taken))]
fn take(
    alloc: Global,
    line: &Line<'_>,
    variables: &[Variable],
    draft: &mut Draft,
) -> Result<(), Refuse>
    requires { IsSound draft.old }
    ensures { Reads draft.new result (taken variables.now line.now draft.old) }
{
    if let Err(refuse) = draft.count() {
        return Err(refuse);
    }
    match statement(alloc, variables, line.tokens.items(), draft) {
        Ok(()) => Ok(()),
        Err(stop) => Err(stop.at(line.number)),
    }
}

fn is_variable(variables: &[Variable], name: &[u8]) -> bool
    ensures { result ≡ is_variable variables.now name.now }
{
    variables
        .iter()
        .any(|variable| variable.name.as_slice() == name)
}

// for BASE in E..E
#[tactic(auto, unfolding(crate::specs::Parsing::loop_in))]
fn loop_in<'a>(variables: &[Variable], tokens: &'a [Token<'a>]) -> Result<Header<'a>, Wrong>
    ensures { ReadsLoop variables.now tokens.now result }
{
    match tokens {
        [_, variable, among, numbers] => {
            let variable = variable.as_slice();
            let (low, high) = loop_bounds(
                variables,
                variable,
                among.as_slice(),
                numbers.as_slice(),
            )?;
            Ok(Header {
                variable,
                low,
                high,
            })
        }
        _ => Err(Wrong::Form),
    }
}

fn has_form(variable: &[u8], among: &[u8]) -> bool
    ensures { result ≡ (is_base variable.now && bytes_eq among.now (codes "in")) }
{
    is_base(variable) && among == b"in".as_slice()
}

fn loop_bounds(
    variables: &[Variable],
    variable: &[u8],
    among: &[u8],
    numbers: &[u8],
) -> Result<(u64, u64), Wrong>
    ensures { result ≡ loop_bounds variables.now variable.now among.now numbers.now }
{
    if may_open(variables, variable, among) {
        bounds(variables, numbers)
    } else {
        weighed_bounds(variables, variable, among, numbers)
    }
}

// Whether nothing is wrong with a loop's line but maybe its bounds.
fn may_open(variables: &[Variable], variable: &[u8], among: &[u8]) -> bool
    ensures { result ≡ ((is_base variable.now && bytes_eq among.now (codes "in")) && (not (is_variable variables.now variable.now) && nat_lt (length variables.now) nesting_limit)) }
{
    has_form(variable, among) && is_new(variables, variable)
}

fn is_new(variables: &[Variable], variable: &[u8]) -> bool
    ensures { result ≡ (not (is_variable variables.now variable.now) && nat_lt (length variables.now) nesting_limit) }
{
    !is_variable(variables, variable) && variables.len() < limits::MOST_NESTING as usize
}

// The bounds, or the first of all that is wrong with a loop's line.
fn weighed_bounds(
    variables: &[Variable],
    variable: &[u8],
    among: &[u8],
    numbers: &[u8],
) -> Result<(u64, u64), Wrong>
    ensures { result ≡ loop_bounds variables.now variable.now among.now numbers.now }
{
    let form = guard(has_form(variable, among), Wrong::Form);
    let values = both(bounds(variables, numbers), loop_limits(variables, variable));
    bounds_part(both(form, values))
}

// The bounds among the parts of a loop's line.
fn bounds_part(parts: Result<((), ((u64, u64), ((), ()))), Wrong>) -> Result<(u64, u64), Wrong>
    ensures { result ≡ bounds_part parts }
{
    match parts {
        Ok((_, (bounds, _))) => Ok(bounds),
        Err(wrong) => Err(wrong),
    }
}

// The variable is no other's, and not too many loops stand around.
fn loop_limits(variables: &[Variable], variable: &[u8]) -> Result<((), ()), Wrong>
    ensures { result ≡ loop_limits variables.now variable.now }
{
    both(
        guard(!is_variable(variables, variable), Wrong::Taken),
        room(Which::Nesting, limits::MOST_NESTING, variables.len()),
    )
}

fn copy_of(alloc: Global, bytes: &[u8]) -> Result<Bytes, NoMemory>
    ensures { IfOk result (λ copy. copy ≡ bytes.now) }
{
    Ok(Bytes::of(bytes.to_vec(alloc)?))
}

// What stands from a line on, to the end of its block.
#[cycle(parsing)]
fn block(
    alloc: Global,
    lines: &[Line<'_>],
    after: &[u32],
    from: usize,
    variables: &mut Vec<Variable>,
    draft: &mut Draft,
) -> Result<(), Refuse>
    requires { MayGoOn lines.now after.now from draft.old }
    ensures exact { Reads draft.new result (read_from lines.now from variables.old.items draft.old) }
    ensures same { OnOk result (variables.new.items ≡ variables.old.items) }
{
    let mut at = from;
    while at < lines.len() {
        let line = &lines[at];
        match line.role {
            Role::Closes => return Ok(()),
            Role::Says => {
                if let Err(refuse) = take(alloc, line, variables.as_slice(), draft) {
                    return Err(refuse);
                }
                at += 1;
            }
            Role::Opens => {
                if let Err(refuse) = repeat(alloc, lines, after, at, line, variables, draft) {
                    return Err(refuse);
                }
                at = after[at + 1] as usize;
            }
        }
    }
    Ok(())
}

// The loop that opens at a line.
#[cycle(parsing)]
#[tactic(auto, unfolding(crate::specs::Parsing::looped))]
fn repeat(
    alloc: Global,
    lines: &[Line<'_>],
    after: &[u32],
    at: usize,
    line: &Line<'_>,
    variables: &mut Vec<Variable>,
    draft: &mut Draft,
) -> Result<(), Refuse>
    requires { MayGoOn lines.now after.now (at + 1) draft.old }
    ensures exact { Reads draft.new result (looped (read_from lines.now (at + 1)) variables.old.items line.now draft.old) }
    ensures same { OnOk result (variables.new.items ≡ variables.old.items) }
{
    match loop_in(variables.as_slice(), line.tokens.items()) {
        Ok(header) => all_turns(alloc, lines, after, at + 1, header, variables, draft),
        Err(wrong) => Err(Refuse::Refused(wrong.at(line.number))),
    }
}

// All turns of a loop, whose body begins at a line.
#[cycle(parsing)]
fn all_turns(
    alloc: Global,
    lines: &[Line<'_>],
    after: &[u32],
    from: usize,
    header: Header<'_>,
    variables: &mut Vec<Variable>,
    draft: &mut Draft,
) -> Result<(), Refuse>
    requires { MayGoOn lines.now after.now from draft.old }
    ensures exact { Reads draft.new result (all_turns (read_from lines.now from) variables.old.items (loop_as header.entry) draft.old) }
    ensures same { OnOk result (variables.new.items ≡ variables.old.items) }
{
    if header.high <= header.low {
        return Ok(());
    }
    let mut name = match copy_of(alloc, header.variable) {
        Ok(name) => name,
        Err(NoMemory) => return Err(Refuse::NoMemory),
    };
    for value in header.low..header.high {
        match turn(alloc, lines, after, from, name, value, variables, draft) {
            Ok(same) => name = same,
            Err(refuse) => return Err(refuse),
        }
    }
    Ok(())
}

// One turn of a loop, whose variable has this value.
#[cycle(parsing)]
fn turn(
    alloc: Global,
    lines: &[Line<'_>],
    after: &[u32],
    from: usize,
    name: Bytes,
    value: u64,
    variables: &mut Vec<Variable>,
    draft: &mut Draft,
) -> Result<Bytes, Refuse>
    requires { MayGoOn lines.now after.now from draft.old }
    ensures exact { ReadsTurn draft.new name result (turn_from lines.now from variables.old.items name value draft.old) }
    ensures same { OnOk result (variables.new.items ≡ variables.old.items) }
{
    if let Err(refuse) = draft.count() {
        return Err(refuse);
    }
    if variables.push(Variable { name, value }).is_err() {
        return Err(Refuse::NoMemory);
    }
    if let Err(refuse) = block(alloc, lines, after, from, variables, draft) {
        return Err(refuse);
    }
    let last: Option<Variable> = variables.pop();
    let variable = last.unwrap();
    Ok(variable.name)
}

/// What a text has said at its end, or why it is no document.
pub(crate) fn read_draft(alloc: Global, bytes: &[u8]) -> Result<Draft, Refuse>
    requires { length bytes.now ≤ text_limit }
    ensures { Answers result (draft_of bytes.now) }
{
    let layout = match lay_out(alloc, bytes) {
        Ok(layout) => layout,
        Err(refuse) => return Err(refuse),
    };
    let Ok(mut draft) = Draft::new(alloc) else {
        return Err(Refuse::NoMemory);
    };
    let mut variables = Vec::new(alloc);
    if let Err(refuse) = block(
        alloc,
        layout.lines.items(),
        layout.after.items(),
        0,
        &mut variables,
        &mut draft,
    ) {
        return Err(refuse);
    }
    end(layout.count + 1, draft)
}

// The end of a text whose lines are fewer than `number` by one.
fn end(number: u32, draft: Draft) -> Result<Draft, Refuse>
    ensures { Answers result (ended number draft) }
{
    if draft.stage.may_end() {
        Ok(draft)
    } else {
        Err(Refuse::Refused(Refusal::Line(number)))
    }
}
