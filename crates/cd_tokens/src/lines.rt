//! A text as lines, and a line as tokens.
ghost use Rattle.std.specs.Prelude.{◌≡◌, ◌∷◌, ◌+◌, ◌<◌, ◌≤◌, ◌^◌, length, filter, IfOk};
ghost use Rattle.std.specs.List.{slice_split};
ghost use Rattle.cd_tree.specs.Limits.{text_limit};
ghost use Rattle.cd_tokens.specs.Lines.{is_feed, is_blank, is_token, lines, said, tokens};

use crate::sums::{cut, find};
use cd_base::{Items, NoMemory};
use std::alloc::{AllocError, Global};
use std::marker::Model;

/// A token: a part of the text, which it borrows. Contracts see its bytes.
#[derive(Drop)]
pub struct Token<'t> {
    bytes: &'t [u8],
}

impl<'t> Model for Token<'t> {
    ghost use Rattle.std.specs.Prelude.{List, ℕ};

    ghost Value = { List ℕ };

    ghost view = { λ token. token.bytes.now };
}

impl<'t> Token<'t> {
    pub(crate) fn of(bytes: &'t [u8]) -> Token<'t>
        ensures { result ≡ bytes.now }
    {
        Token { bytes }
    }

    /// The bytes in order. It takes no memory.
    pub fn as_slice(&self) -> &'t [u8]
        ensures { result.now ≡ self.now }
    {
        self.bytes
    }
}

/// What a line does to the loops that are open.
#[derive(Debug, Clone, Copy, PartialEq, Eq)]
pub enum Role {
    /// It is a statement.
    Says,
    /// It opens a loop.
    Opens,
    /// It ends the innermost loop.
    Closes,
}

/// A line that has tokens: its number in the text, from 1, its role, and its tokens.
#[derive(Drop)]
pub struct Line<'t> {
    pub number: u32,
    pub role: Role,
    pub tokens: Items<Token<'t>>,
}

/// The first line of a text that is not empty, and the text behind it.
pub(crate) fn cut_line(text: &[u8]) -> (&[u8], &[u8])
    requires { 0 < length text.now }
    ensures cut { lines text.now ≡ result.0.now ∷ lines result.1.now }
    ensures shorter { length result.0.now + length result.1.now ≤ length text.now }
    ensures less { length result.1.now < length text.now }
{
    match find(text, b'\n') {
        Some(at) => (&text[..at], &text[at + 1..]),
        None => (text, &[]),
    }
}

/// The tokens of a line.
pub(crate) fn tokens(alloc: Global, line: &[u8]) -> Result<Items<Token<'_>>, NoMemory>
    requires { length line.now ≤ text_limit }
    ensures { IfOk result (λ found. found ≡ tokens line.now) }
{
    let said = said(line);
    let pieces = pieces(alloc, said)?;
    Ok(Items::of(pieces))
}

// A line up to its comment.
fn said(line: &[u8]) -> &[u8]
    ensures said { result.now ≡ said line.now }
    ensures shorter { length result.now ≤ length line.now }
{
    match cut(line, b'#') {
        Some((before, _)) => before,
        None => line,
    }
}

// The longest runs of bytes that are no blanks.
fn pieces(alloc: Global, said: &[u8]) -> Result<Vec<Token<'_>>, AllocError>
    ensures { IfOk result (λ found. found.items ≡ filter is_token (slice_split is_blank said.now)) }
{
    said.split(|b| is_blank(*b))
        .filter(|piece| is_token(piece))
        .map(|piece| Token::of(piece))
        .collect(alloc)
}

fn is_token(piece: &[u8]) -> bool
    ensures { result ≡ is_token piece.now }
{
    !piece.is_empty()
}

fn is_blank(b: u8) -> bool
    ensures { result ≡ is_blank b }
{
    b == b' ' || b == b'\t' || b == b'\r'
}
