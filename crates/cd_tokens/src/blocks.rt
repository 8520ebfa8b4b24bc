//! The lines of a text laid out for parsing: the role of each, and where the block around it goes on.
ghost use Rattle.std.specs.Prelude.{◌≡◌, ◌∷◌, ◌+◌, ◌<◌, ◌≤◌, ◌^◌, length, reverse, IfOk};
ghost use Rattle.cd_tree.specs.Limits.{text_limit};
ghost use Rattle.cd_tokens.specs.Lines.{lines, tokens};
ghost use Rattle.cd_tokens.specs.Blocks.{no_marks, closed, mark, mark_line, closed_lines};
ghost use Rattle.cd_tokens.specs.Steps.{Steps, Gives};
ghost use Rattle.cd_tokens.specs.Layouts.{LaysOut, LaysOutLines, Marked, MarkedAs, Goes, IsTable};

use crate::lines::{Line, Role, Token, cut_line, tokens};
use crate::wrong::{Stop, Wrong};
use cd_base::{Items, NoMemory};
use cd_tree::Refuse;
use std::alloc::{AllocError, Global};
use std::marker::Model;

/// The lines of a text that have tokens; for each of them, and for the end, at which of them the block around it goes
/// on; and how many lines the text has.
#[derive(Drop)]
pub struct Layout<'t> {
    pub lines: Items<Line<'t>>,
    pub after: Items<u32>,
    pub count: u32,
}

// What the lines so far have come to: those that have tokens, and for each block that is open, the outermost first,
// whether it is a loop.
#[derive(Drop)]
struct Marking<'t> {
    lines: Items<Line<'t>>,
    before: Vec<bool>,
}

impl<'t> Model for Marking<'t> {
    ghost use Rattle.std.specs.Prelude.{reverse};
    ghost use Rattle.cd_tokens.specs.Blocks.{Marks};

    ghost Value = { Marks };

    ghost view = { λ it. record { lines = it.lines; before = reverse it.before.items } };
}

/// The layout of a text, or the refusal of the first line that opens or closes a block wrongly.
pub fn lay_out(alloc: Global, bytes: &[u8]) -> Result<Layout<'_>, Refuse>
    requires { length bytes.now ≤ text_limit }
    ensures { LaysOut bytes.now result }
{
    let mut marking = Marking::new(alloc);
    let mut rest = bytes;
    let mut number: u32 = 1;
    while !rest.is_empty() {
        let (line, after) = cut_line(rest);
        if let Err(stop) = marking.take(alloc, number, line) {
            return Err(stop.at(number));
        }
        rest = after;
        number += 1;
    }
    match marking.finish() {
        Ok(lines) => laid_out(alloc, lines, number - 1),
        Err(stop) => Err(stop.at(number)),
    }
}

fn laid_out(alloc: Global, lines: Items<Line<'_>>, count: u32) -> Result<Layout<'_>, Refuse>
    requires { length lines ≤ text_limit }
    ensures { LaysOutLines lines.entry count result }
{
    match table(alloc, lines.items()) {
        Ok(after) => Ok(Layout {
            lines,
            after,
            count,
        }),
        Err(_) => Err(Refuse::NoMemory),
    }
}

impl<'t> Marking<'t> {
    fn new(alloc: Global) -> Marking<'t>
        ensures { result ≡ no_marks }
    {
        Marking {
            lines: Items::new(alloc),
            before: Vec::new(alloc),
        }
    }

    // One line more.
    fn take(&mut self, alloc: Global, number: u32, line: &'t [u8]) -> Result<(), Stop>
        requires line { length line.now ≤ text_limit }
        requires few { length self.old.lines + 1 < 2 ^ 32 }
        ensures { Steps self.new result (mark_line number (tokens line.now) self.old) }
    {
        let tokens = tokens(alloc, line)?;
        self.put(number, tokens)
    }

    fn put(&mut self, number: u32, tokens: Items<Token<'t>>) -> Result<(), Stop>
        requires few { length self.old.lines + 1 < 2 ^ 32 }
        ensures { Steps self.new result (mark_line number tokens.entry self.old) }
    {
        let role = match tokens.items() {
            [] => return Ok(()),
            [keyword, rest @ ..] => role(&mut self.before, keyword.as_slice(), rest)?,
        };
        self.lines.push(Line {
            number,
            role,
            tokens,
        })?;
        Ok(())
    }

    // Behind the last line.
    fn finish(self) -> Result<Items<Line<'t>>, Stop>
        ensures { Gives result (closed_lines self.entry.lines self.entry.before) }
    {
        let Marking { lines, before } = self;
        if before.is_empty() {
            Ok(lines)
        } else {
            Err(Stop::Wrong(Wrong::Form))
        }
    }
}

// The role of a line with these tokens, where it may stand, and the blocks that are open behind it.
fn role(before: &mut Vec<bool>, keyword: &[u8], rest: &[Token<'_>]) -> Result<Role, Stop>
    ensures { Marked (reverse before.old.items) keyword.now rest.now (reverse before.new.items) result }
{
    if keyword == b"for".as_slice() {
        before.push(true)?;
        Ok(Role::Opens)
    } else if keyword == b"domain".as_slice() || keyword == b"group".as_slice() {
        before.push(false)?;
        Ok(Role::Says)
    } else if keyword == b"end".as_slice() {
        close(before, rest)
    } else {
        Ok(Role::Says)
    }
}

// The role of an `end` with these tokens behind it.
fn close(before: &mut Vec<bool>, rest: &[Token<'_>]) -> Result<Role, Stop>
    ensures { MarkedAs (closed (reverse before.old.items) rest.now) (reverse before.new.items) result }
{
    if !rest.is_empty() {
        return Err(Stop::Wrong(Wrong::Form));
    }
    match before.pop() {
        Some(true) => Ok(Role::Closes),
        Some(false) => Ok(Role::Says),
        None => Err(Stop::Wrong(Wrong::Form)),
    }
}

// For each line, and for the end, where the block around it goes on.
fn table(alloc: Global, lines: &[Line<'_>]) -> Result<Items<u32>, NoMemory>
    requires { length lines.now ≤ text_limit }
    ensures { IfOk result (λ after. IsTable lines.now after 0) }
{
    let count = lines.len();
    let mut after: Vec<u32> = vec![in alloc; count as u32; count + 1]?;
    let mut at = count;
    while at > 0 {
        at -= 1;
        after[at] = next(lines, after.as_slice(), at);
    }
    Ok(Items::of(after))
}

// Where the block around a line goes on, where that is known of all lines behind it.
fn next(lines: &[Line<'_>], after: &[u32], at: usize) -> u32
    requires few { length lines.now ≤ text_limit }
    requires at { at < length lines.now }
    requires table { IsTable lines.now after.now (at + 1) }
    ensures { Goes lines.now at result }
{
    match lines[at].role {
        Role::Says => after[at + 1],
        Role::Closes => at as u32 + 1,
        Role::Opens => after[after[at + 1] as usize],
    }
}
