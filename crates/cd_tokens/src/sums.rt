//! Numbers: digits, variables, products and sums, each intermediate result within 64 bits.
ghost use Rattle.std.specs.Prelude.{◌≡◌, ◌+◌, ◌*◌, ◌-◌, ◌<◌, ◌^◌, ◌==◌, true, length, position, MatchOption, Some, None, Ok, IfSome};
ghost use Rattle.std.specs.List.{list_all};
ghost use Rattle.cd_tokens.specs.Cuts.{Cuts, CutsSign};
ghost use Rattle.cd_tokens.specs.Quick.{is_operator, CutsPlain, BeginsDigit, BeginsOther, IsFront, ReadsAtom, GoesOn, IsLast};
ghost use Rattle.cd_tokens.specs.Sums.{is_digit, is_letter, is_name_byte, is_base, in_64_bits, value_after, value_of, atom, times, term, is_sign, joined, plus, expression, behind_dot, bounds, bounds_at};

use crate::wrong::{Wrong, both};
use cd_base::Bytes;

/// A variable of a loop, with its value in the loop's present turn.
#[derive(Drop)]
pub struct Variable {
    pub name: Bytes,
    pub value: u64,
}

/// Where a byte stands first.
pub fn find(bytes: &[u8], wanted: u8) -> Option<usize>
    ensures { result ≡ position (λ b. b == wanted) bytes.now }
{
    bytes.iter().position(|b| *b == wanted)
}

/// What stands before the first such byte, and what stands behind it. It takes no memory.
pub fn cut(token: &[u8], wanted: u8) -> Option<(&[u8], &[u8])>
    ensures { Cuts token.now wanted result }
{
    match find(token, wanted) {
        Some(at) => Some((&token[..at], &token[at + 1..])),
        None => None,
    }
}

// What stands before the first sign, the sign, and what stands behind it.
fn cut_sign(token: &[u8]) -> Option<(&[u8], u8, &[u8])>
    ensures { CutsSign token.now result }
{
    match find_sign(token) {
        Some(at) => Some((&token[..at], token[at], &token[at + 1..])),
        None => None,
    }
}

pub(crate) fn is_digit(b: u8) -> bool
    ensures { result ≡ is_digit b }
{
    b'0' <= b && b <= b'9'
}

fn is_letter(b: u8) -> bool
    ensures { result ≡ is_letter b }
{
    b'a' <= b && b <= b'z'
}

fn is_name_byte(b: u8) -> bool
    ensures { result ≡ is_name_byte b }
{
    is_letter(b) || is_digit(b) || b == b'_'
}

/// Whether this is a lower-case letter with lower-case letters, digits and `_` behind it. It takes no memory.
pub fn is_base(name: &[u8]) -> bool
    ensures { result ≡ is_base name.now }
{
    match name {
        [first, rest @ ..] => is_letter(*first) && are_name_bytes(rest),
        [] => false,
    }
}

fn are_name_bytes(bytes: &[u8]) -> bool
    ensures { result ≡ list_all is_name_byte bytes.now }
{
    bytes.iter().all(|b| is_name_byte(*b))
}

fn are_digits(bytes: &[u8]) -> bool
    ensures { result ≡ list_all is_digit bytes.now }
{
    bytes.iter().all(|b| is_digit(*b))
}

// The value of digits.
fn digits_value(digits: &[u8]) -> Result<u64, Wrong>
    requires { list_all is_digit digits.now ≡ true }
    ensures { result ≡ in_64_bits (value_after 0 digits.now) }
{
    let mut value: u64 = 0;
    for digit in digits {
        value = with_digit(value, *digit)?;
    }
    Ok(value)
}

// A number with one digit more behind it.
fn with_digit(value: u64, digit: u8) -> Result<u64, Wrong>
    requires { is_digit digit ≡ true }
    ensures { result ≡ in_64_bits (10 * value + (digit - 48)) }
{
    value
        .checked_mul(10)
        .ok_or(Wrong::Overflow)?
        .checked_add(u64::from(digit - b'0'))
        .ok_or(Wrong::Overflow)
}

// The value of the variable with this name.
fn value_of(variables: &[Variable], name: &[u8]) -> Result<u64, Wrong>
    ensures { result ≡ value_of variables.now name.now }
{
    for variable in variables {
        if variable.name.as_slice() == name {
            return Ok(variable.value);
        }
    }
    Err(Wrong::Form)
}

// One or more digits, or a variable.
#[tactic(auto, unfolding(crate::specs::Sums::atom))]
fn atom(variables: &[Variable], token: &[u8]) -> Result<u64, Wrong>
    ensures { result ≡ atom variables.now token.now }
{
    if token.is_empty() {
        Err(Wrong::Form)
    } else if are_digits(token) {
        digits_value(token)
    } else {
        value_of(variables, token)
    }
}

// One factor more.
#[tactic(auto, unfolding(crate::specs::Sums::times))]
fn times(product: Result<u64, Wrong>, factor: Result<u64, Wrong>) -> Result<u64, Wrong>
    ensures { result ≡ times product factor }
{
    let (product, factor) = both(product, factor)?;
    product.checked_mul(factor).ok_or(Wrong::Overflow)
}

// Atoms joined by `*`.
#[tactic(auto, unfolding(crate::specs::Sums::term))]
fn term(variables: &[Variable], token: &[u8]) -> Result<u64, Wrong>
    ensures { result ≡ term variables.now token.now }
{
    let mut product = Ok(1);
    let mut rest = token;
    while let Some((factor, more)) = cut(rest, b'*') {
        product = times(product, atom(variables, factor));
        rest = more;
    }
    times(product, atom(variables, rest))
}

fn is_sign(b: u8) -> bool
    ensures { result ≡ is_sign b }
{
    b == b'+' || b == b'-'
}

fn find_sign(token: &[u8]) -> Option<usize>
    ensures { result ≡ position is_sign token.now }
{
    token.iter().position(|b| is_sign(*b))
}

// A sum, or a difference.
fn joined(sign: u8, a: u64, b: u64) -> Result<u64, Wrong>
    ensures { result ≡ joined sign a b }
{
    if sign == b'-' {
        a.checked_sub(b).ok_or(Wrong::Overflow)
    } else {
        a.checked_add(b).ok_or(Wrong::Overflow)
    }
}

// One term more, with its sign.
#[tactic(auto, unfolding(crate::specs::Sums::plus))]
fn plus(sum: Result<u64, Wrong>, sign: u8, term: Result<u64, Wrong>) -> Result<u64, Wrong>
    ensures { result ≡ plus sum sign term }
{
    let (sum, term) = both(sum, term)?;
    joined(sign, sum, term)
}

// Terms joined by `+` and `-`, and all that is wrong with them.
#[tactic(auto, unfolding(crate::specs::Sums::expression))]
fn exact(variables: &[Variable], token: &[u8]) -> Result<u64, Wrong>
    ensures { result ≡ expression variables.now token.now }
{
    let mut sum = Ok(0);
    let mut sign = b'+';
    let mut rest = token;
    while let Some((part, next, more)) = cut_sign(rest) {
        sum = plus(sum, sign, term(variables, part));
        sign = next;
        rest = more;
    }
    plus(sum, sign, term(variables, rest))
}

// ---- in one pass

fn is_operator(b: u8) -> bool
    ensures { result ≡ is_operator b }
{
    b == b'*' || is_sign(b)
}

fn find_operator(token: &[u8]) -> Option<usize>
    ensures { result ≡ position is_operator token.now }
{
    token.iter().position(|b| is_operator(*b))
}

// What stands before the first operator, and what stands from it on.
fn before_operator(token: &[u8]) -> (&[u8], &[u8])
    ensures { CutsPlain token.now result.0.now result.1.now }
{
    match find_operator(token) {
        Some(at) => token.split_at(at),
        None => token.split_at(token.len()),
    }
}

// A digit that a token begins with, and what stands behind it.
fn first_digit(token: &[u8]) -> Option<(u8, &[u8])>
    ensures { MatchOption result (BeginsOther token.now) (λ p. BeginsDigit token.now p.0 p.1.now) }
{
    match token {
        [first, rest @ ..] if is_digit(*first) => Some((*first, rest)),
        _ => None,
    }
}

// The greatest number that has 64 bits with any digit behind it.
const MOST: u64 = u64::MAX / 10 - 1;

// A number with one digit more behind it, where that has 64 bits whatever the digit is.
fn one_more_digit(value: u64, digit: u8) -> Option<u64>
    requires { is_digit digit ≡ true }
    ensures { IfSome result (λ more. more ≡ 10 * value + (digit - 48)) }
{
    if value <= MOST {
        Some(10 * value + u64::from(digit - b'0'))
    } else {
        None
    }
}

// The number that a token begins with, and what stands behind it.
fn quick_digits(token: &[u8]) -> Option<(u64, &[u8])>
    ensures { IfSome result (λ p. IsFront token.now p.0 p.1.now) }
{
    let mut value: u64 = 0;
    let mut rest = token;
    while let Some((digit, more)) = first_digit(rest) {
        value = one_more_digit(value, digit)?;
        rest = more;
    }
    Some((value, rest))
}

// The value of the variable with this name, where there is one.
fn quick_value(variables: &[Variable], name: &[u8]) -> Option<u64>
    ensures { IfSome result (λ value. value_of variables.now name.now ≡ Ok value) }
{
    for variable in variables {
        if variable.name.as_slice() == name {
            return Some(variable.value);
        }
    }
    None
}

// The value of the variable that a token begins with, and what stands behind its name.
fn quick_name<'t>(variables: &[Variable], token: &'t [u8]) -> Option<(u64, &'t [u8])>
    ensures { IfSome result (λ p. ReadsAtom variables.now token.now p.0 p.1.now) }
{
    let (name, behind) = before_operator(token);
    if name.is_empty() || is_digit(name[0]) {
        return None;
    }
    Some((quick_value(variables, name)?, behind))
}

// The value of the atom that a token begins with, where it has one, and what stands behind it.
fn quick_atom<'t>(variables: &[Variable], token: &'t [u8]) -> Option<(u64, &'t [u8])>
    ensures { IfSome result (λ p. ReadsAtom variables.now token.now p.0 p.1.now) }
{
    if token.is_empty() {
        None
    } else if is_digit(token[0]) {
        quick_digits(token)
    } else {
        quick_name(variables, token)
    }
}

// An expression of which a part is read: the sum before a term, the sign of the term, and the product of its factors so far.
#[derive(Clone, Copy)]
struct Reading {
    sum: u64,
    sign: u8,
    product: u64,
}

// What is read with one factor more and the operator behind it.
fn read_on(reading: Reading, factor: u64, operator: u8) -> Option<Reading>
    ensures { IfSome result (λ next. GoesOn reading factor operator next) }
{
    let product = reading.product.checked_mul(factor)?;
    if operator == b'*' {
        Some(Reading { product, ..reading })
    } else if is_sign(operator) {
        Some(Reading {
            sum: quick_joined(reading.sign, reading.sum, product)?,
            sign: operator,
            product: 1,
        })
    } else {
        None
    }
}

// The sum with the last factor.
fn read_last(reading: Reading, factor: u64) -> Option<u64>
    ensures { IfSome result (λ sum. IsLast reading factor sum) }
{
    let product = reading.product.checked_mul(factor)?;
    quick_joined(reading.sign, reading.sum, product)
}

// A sum, or a difference, where it has 64 bits.
fn quick_joined(sign: u8, a: u64, b: u64) -> Option<u64>
    ensures { IfSome result (λ sum. joined sign a b ≡ Ok sum) }
{
    if sign == b'-' {
        a.checked_sub(b)
    } else {
        a.checked_add(b)
    }
}

// The value of an expression with which nothing is wrong; else maybe none.
fn quick(variables: &[Variable], token: &[u8]) -> Option<u64>
    ensures { IfSome result (λ value. expression variables.now token.now ≡ Ok value) }
{
    let mut reading = Reading {
        sum: 0,
        sign: b'+',
        product: 1,
    };
    let mut rest = token;
    loop {
        let (factor, behind) = quick_atom(variables, rest)?;
        match behind {
            [] => return read_last(reading, factor),
            [operator, more @ ..] => {
                reading = read_on(reading, factor, *operator)?;
                rest = more;
            }
        }
    }
}

/// Terms joined by `+` and `-`. It takes no memory.
pub fn expression(variables: &[Variable], token: &[u8]) -> Result<u64, Wrong>
    ensures { result ≡ expression variables.now token.now }
{
    match quick(variables, token) {
        Some(value) => Ok(value),
        None => exact(variables, token),
    }
}

// What stands behind a `.` that is the first byte.
fn behind_dot(token: &[u8]) -> Option<&[u8]>
    ensures { MatchOption result (behind_dot token.now ≡ None) (λ rest. behind_dot token.now ≡ Some rest.now) }
{
    match token {
        [b'.', rest @ ..] => Some(rest),
        _ => None,
    }
}

/// Two expressions with two dots between them, of which the first is the byte at this place. It takes no memory.
#[tactic(auto, unfolding(crate::specs::Sums::bounds))]
pub fn bounds_at(variables: &[Variable], token: &[u8], at: usize) -> Result<(u64, u64), Wrong>
    requires { at < length token.now }
    ensures { result ≡ bounds_at variables.now token.now (Some at) }
{
    let high = behind_dot(&token[at + 1..]).ok_or(Wrong::Form)?;
    both(
        expression(variables, &token[..at]),
        expression(variables, high),
    )
}

/// Two expressions with two dots between them. It takes no memory.
#[tactic(auto, unfolding(crate::specs::Sums::bounds))]
pub fn bounds(variables: &[Variable], token: &[u8]) -> Result<(u64, u64), Wrong>
    ensures { result ≡ bounds variables.now token.now }
{
    let at = find(token, b'.').ok_or(Wrong::Form)?;
    bounds_at(variables, token, at)
}
