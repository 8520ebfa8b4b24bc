//! Names, whose ending may be computed, and paths of names.
ghost use Rattle.std.specs.Prelude.{◌≡◌, [], ◌++◌, ◌∷◌, true, IfOk, OnOk, Ok, bytes_eq, decimal, string_bytes};
ghost use Rattle.std.specs.List.{slice_split};
ghost use Rattle.cd_tokens.specs.Sums.{is_base};
ghost use Rattle.cd_tokens.specs.Names.{base_name, numbered_name, name, one_more_name, path};

use crate::sums::{Variable, cut, expression, find, is_base};
use crate::wrong::{Wrong, both, guard};
use cd_base::{NoMemory, Text};
use std::alloc::Global;
use std::fmt::Write;
use std::marker::Model;

// The most digits that a number of 64 bits has.
const MOST_DIGITS: usize = 20;

/// A part of a statement, or what is wrong with it; an error where there is no memory to keep the part.
pub type Parsed<T> = Result<Result<T, Wrong>, NoMemory>;

/// A name, or what is wrong with it.
#[tactic(auto, unfolding(crate::specs::Names::name))]
pub fn name(alloc: Global, variables: &[Variable], token: &[u8]) -> Parsed<Text>
    ensures { IfOk result (λ read. read ≡ name variables.now token.now) }
{
    match find(token, b':') {
        None => base_name(alloc, token),
        Some(at) => numbered_name(alloc, variables, &token[..at], &token[at + 1..]),
    }
}

// A base alone.
fn base_name(alloc: Global, token: &[u8]) -> Parsed<Text>
    ensures { IfOk result (λ read. read ≡ base_name token.now) }
{
    if !is_base(token) {
        return Ok(Err(Wrong::Form));
    }
    Ok(Ok(text_of(alloc, token)?))
}

// A base and a number.
fn numbered_name(alloc: Global, variables: &[Variable], base: &[u8], number: &[u8]) -> Parsed<Text>
    ensures { IfOk result (λ read. read ≡ numbered_name variables.now base.now number.now) }
{
    match both(
        guard(is_base(base), Wrong::Form),
        expression(variables, number),
    ) {
        Err(wrong) => Ok(Err(wrong)),
        Ok((_, number)) => Ok(Ok(numbered(alloc, base, number)?)),
    }
}

/// A base as a text.
pub fn text_of(alloc: Global, base: &[u8]) -> Result<Text, NoMemory>
    requires { is_base base.now ≡ true }
    ensures { IfOk result (λ text. text ≡ base.now) }
{
    let text = str::from_utf8(base).unwrap();
    Text::of(alloc, text)
}

// A base and a number as a text.
fn numbered(alloc: Global, base: &[u8], number: u64) -> Result<Text, NoMemory>
    requires { is_base base.now ≡ true }
    ensures { IfOk result (λ text. text ≡ base.now ++ decimal number) }
{
    let base = str::from_utf8(base).unwrap();
    let room = base.len().saturating_add(MOST_DIGITS);
    let mut text = String::with_capacity(alloc, room)?;
    write!(text, "{base}{number}")?;
    Ok(Text::from_string(text))
}

// The names of a path so far, or what is wrong with them.
#[derive(Drop)]
struct Names {
    text: String,
    wrong: Option<Wrong>,
}

impl Model for Names {
    ghost use Rattle.std.specs.Prelude.{List, ℕ, Result, string_bytes};
    ghost use Rattle.cd_tokens.specs.declared.wrong.Wrong.{Wrong};
    ghost use Rattle.cd_tokens.specs.Names.{path_value};

    ghost Value = { Result (List ℕ) Wrong };

    ghost view = { λ it. path_value (string_bytes it.text) it.wrong };
}

impl Names {
    fn new(alloc: Global) -> Names
        ensures { result ≡ Ok [] }
    {
        Names {
            text: String::new(alloc),
            wrong: None,
        }
    }

    // One name more.
    fn push(&mut self, name: Result<Text, Wrong>) -> Result<(), NoMemory>
        ensures { OnOk result (self.new ≡ one_more_name self.old name) }
    {
        match (self.wrong, name) {
            (None, Ok(name)) => self.push_name(name.as_str()),
            (None, Err(wrong)) => {
                self.wrong = Some(wrong);
                Ok(())
            }
            (Some(_), Ok(_)) => Ok(()),
            (Some(wrong), Err(other)) => {
                self.wrong = Some(wrong.or_before(other));
                Ok(())
            }
        }
    }

    fn push_name(&mut self, name: &str) -> Result<(), NoMemory>
        ensures { OnOk result (self.new ≡ one_more_name self.old (Ok name.now)) }
    {
        if !self.text.is_empty() {
            self.text.push_str("/")?;
        }
        self.text.push_str(name)?;
        Ok(())
    }

    fn finish(self) -> Result<Text, Wrong>
        ensures { result ≡ self }
    {
        let Names { text, wrong } = self;
        match wrong {
            None => Ok(Text::from_string(text)),
            Some(wrong) => Err(wrong),
        }
    }
}

/// Names joined by `/`, or what is wrong with them.
#[tactic(auto, unfolding(crate::specs::Names::path))]
pub fn path(alloc: Global, variables: &[Variable], token: &[u8]) -> Parsed<Text>
    ensures { IfOk result (λ read. read ≡ path variables.now token.now) }
{
    let mut path = Names::new(alloc);
    let mut rest = token;
    while let Some((first, more)) = cut(rest, b'/') {
        path.push(name(alloc, variables, first)?)?;
        rest = more;
    }
    path.push(name(alloc, variables, rest)?)?;
    Ok(path.finish())
}

/// Whether a text is a base followed by a number in decimal. It takes no memory.
pub fn is_numbered(text: &[u8], base: &[u8], number: u64) -> bool
    ensures { result ≡ bytes_eq text.now (base.now ++ decimal number) }
{
    match text.split_last() {
        None => false,
        Some((last, before)) if number < 10 => {
            let ends = u64::from(*last) == 48 + number;
            let begins = before == base;
            begins & ends
        }
        Some((last, before)) => {
            let ends = u64::from(*last) == 48 + number % 10;
            let begins = is_numbered(before, base, number / 10);
            begins & ends
        }
    }
}
