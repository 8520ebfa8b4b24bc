//! A statement by its keyword.
ghost use Rattle.std.specs.Prelude.{◌≡◌};
ghost use Rattle.cd_tokens.specs.Steps.{Steps};
ghost use Rattle.cd_parse.specs.Rooms.{HaveRoom};
ghost use Rattle.cd_parse.specs.Statements.{statement, statement_in};

use crate::draft::Draft;
use crate::heads::{
    cd, domain, end, faults, group, kind_statement, operation, preserve, region_statement, strike,
};
use cd_tokens::{Stop, Token, Variable, Wrong};
use std::alloc::Global;

/// A statement of these tokens.
#[tactic(auto, unfolding(crate::specs::Statements::statement_in))]
pub(crate) fn statement(
    alloc: Global,
    variables: &[Variable],
    tokens: &[Token<'_>],
    draft: &mut Draft,
) -> Result<(), Stop>
    requires { HaveRoom draft.old.domains }
    ensures { Steps draft.new result (statement_in variables.now tokens.now draft.old) }
{
    match tokens {
        [] => Err(Stop::Wrong(Wrong::Form)),
        [keyword, rest @ ..] => by_keyword(alloc, variables, draft, keyword.as_slice(), rest),
    }
}

// A statement by its keyword and the tokens after it.
#[tactic(auto, unfolding(crate::specs::Statements::statement))]
fn by_keyword(
    alloc: Global,
    variables: &[Variable],
    draft: &mut Draft,
    keyword: &[u8],
    rest: &[Token<'_>],
) -> Result<(), Stop>
    requires { HaveRoom draft.old.domains }
    ensures { Steps draft.new result (statement variables.now draft.old keyword.now rest.now) }
{
    if keyword == b"cd".as_slice() {
        cd(alloc, draft, rest)
    } else if keyword == b"kind".as_slice() {
        kind_statement(alloc, draft, rest)
    } else if keyword == b"region".as_slice() {
        region_statement(alloc, variables, draft, rest)
    } else if keyword == b"domain".as_slice() {
        domain(alloc, variables, draft, rest)
    } else if keyword == b"preserve".as_slice() {
        preserve(variables, draft, rest)
    } else if keyword == b"group".as_slice() {
        group(alloc, draft, rest)
    } else if keyword == b"end".as_slice() {
        end(draft, rest)
    } else if keyword == b"faults".as_slice() {
        faults(draft, rest)
    } else if keyword == b"strike".as_slice() {
        strike(alloc, variables, draft, rest)
    } else {
        operation(variables, draft, keyword, rest)
    }
}
