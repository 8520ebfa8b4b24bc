//! Kinds of faults by their names, and patterns.
ghost use Rattle.std.specs.Prelude.{◌≡◌};
ghost use Rattle.std.specs.List.{slice_split};
ghost use Rattle.cd_tree.specs.KindSets.{no_kinds};
ghost use Rattle.cd_tokens.specs.Kinds.{kind, one_more_kind, with_kind_named, kind_set, short_pattern, long_pattern, pattern};

use crate::lines::Token;
use crate::sums::{Variable, cut, expression};
use crate::wrong::{Wrong, both};
use cd_base::Pattern;
use cd_tree::{Kind, KindName, Kinds, limits};

/// The kind with this name. It takes no memory.
#[tactic(auto, unfolding(crate::specs::Kinds::kind))]
pub fn kind(kinds: &[KindName], name: &[u8]) -> Result<Kind, Wrong>
    ensures { result ≡ kind kinds.now name.now }
{
    for (number, kind) in kinds.iter().enumerate() {
        if number < limits::MOST_KINDS as usize && kind.name.as_str().as_bytes() == name {
            return Ok(Kind(number as u8));
        }
    }
    Err(Wrong::Form)
}

// A kind more, which is not yet in the set.
fn one_more_kind(set: Kinds, kind: Kind) -> Result<Kinds, Wrong>
    ensures { result ≡ one_more_kind set kind }
{
    if set.has(kind) {
        Err(Wrong::Form)
    } else {
        Ok(set.with(kind))
    }
}

// The kind with a name more.
fn with_kind_named(
    kinds: &[KindName],
    set: Result<Kinds, Wrong>,
    name: &[u8],
) -> Result<Kinds, Wrong>
    ensures { result ≡ with_kind_named kinds.now set name.now }
{
    let (set, kind) = both(set, kind(kinds, name))?;
    one_more_kind(set, kind)
}

/// `none`, or kinds joined by commas, none twice. It takes no memory.
#[tactic(auto, unfolding(crate::specs::Kinds::kind_set))]
pub fn kind_set(kinds: &[KindName], token: &[u8]) -> Result<Kinds, Wrong>
    ensures { result ≡ kind_set kinds.now token.now }
{
    if token == b"none".as_slice() {
        return Ok(Kinds::none());
    }
    let mut set = Ok(Kinds::none());
    let mut rest = token;
    while let Some((name, more)) = cut(rest, b',') {
        set = with_kind_named(kinds, set, name);
        rest = more;
    }
    with_kind_named(kinds, set, rest)
}

/// A pattern of these tokens. It takes no memory.
#[tactic(auto, unfolding(crate::specs::Kinds::pattern))]
pub fn pattern(variables: &[Variable], tokens: &[Token<'_>]) -> Result<Pattern, Wrong>
    ensures { result ≡ pattern variables.now tokens.now }
{
    match tokens {
        [keyword, number] => { short_pattern(variables, keyword.as_slice(), number.as_slice()) }
        [keyword, start, step] => long_pattern(
            variables,
            keyword.as_slice(),
            start.as_slice(),
            step.as_slice(),
        ),
        _ => Err(Wrong::Form),
    }
}

// `const E` or `mix E`.
fn short_pattern(variables: &[Variable], keyword: &[u8], number: &[u8]) -> Result<Pattern, Wrong>
    ensures { result ≡ short_pattern variables.now keyword.now number.now }
{
    if keyword == b"const".as_slice() {
        Ok(Pattern::Const(expression(variables, number)?))
    } else if keyword == b"mix".as_slice() {
        Ok(Pattern::Mix(expression(variables, number)?))
    } else {
        Err(Wrong::Form)
    }
}

// `iota E E`.
fn long_pattern(
    variables: &[Variable],
    keyword: &[u8],
    start: &[u8],
    step: &[u8],
) -> Result<Pattern, Wrong>
    ensures { result ≡ long_pattern variables.now keyword.now start.now step.now }
{
    if keyword == b"iota".as_slice() {
        let (start, step) = both(expression(variables, start), expression(variables, step))?;
        Ok(Pattern::Iota(start, step))
    } else {
        Err(Wrong::Form)
    }
}
