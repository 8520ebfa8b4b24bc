//! Operations: their operands by the tokens after their names.
ghost use Rattle.std.specs.Prelude.{◌≡◌, ◌<◌, ◌^◌, length};
ghost use Rattle.cd_parse.specs.Operations.{two_ranges, three_ranges, fill_in, axpy_in, weights, stencil_of, stencil_in, spmv_of, spmv_in, short_op, long_op, is_short, is_long, op_in};

use crate::ranges::Scope;
use crate::signature::OpName;
use cd_base::Range;
use cd_tokens::{Token, Variable, Wrong, both, expression};
use cd_tree::{Op, Region};

impl Scope<'_> {
    // Two ranges.
    #[tactic(auto, unfolding(crate::specs::Operations::two_ranges))]
    fn two_ranges(self, tokens: &[Token<'_>]) -> Result<(Range, Range), Wrong>
        requires { length self.regions.now < 2 ^ 32 }
        ensures { result ≡ two_ranges self.entry.variables.now self.entry.regions.now tokens.now }
    {
        match tokens {
            [d, x] => both(self.range_in(d.as_slice()), self.range_in(x.as_slice())),
            _ => Err(Wrong::Form),
        }
    }

    // Three ranges.
    #[tactic(auto, unfolding(crate::specs::Operations::three_ranges))]
    fn three_ranges(self, tokens: &[Token<'_>]) -> Result<(Range, (Range, Range)), Wrong>
        requires { length self.regions.now < 2 ^ 32 }
        ensures { result ≡ three_ranges self.entry.variables.now self.entry.regions.now tokens.now }
    {
        match tokens {
            [d, x, z] => both(
                self.range_in(d.as_slice()),
                both(self.range_in(x.as_slice()), self.range_in(z.as_slice())),
            ),
            _ => Err(Wrong::Form),
        }
    }

    // fill D k
    #[tactic(auto, unfolding(crate::specs::Operations::fill_in))]
    fn fill_in(self, tokens: &[Token<'_>]) -> Result<Op, Wrong>
        requires { length self.regions.now < 2 ^ 32 }
        ensures { result ≡ fill_in self.entry.variables.now self.entry.regions.now tokens.now }
    {
        match tokens {
            [d, k] => {
                let (d, k) = both(
                    self.range_in(d.as_slice()),
                    expression(self.variables, k.as_slice()),
                )?;
                Ok(Op::Fill(d, k))
            }
            _ => Err(Wrong::Form),
        }
    }

    // axpy D k X
    #[tactic(auto, unfolding(crate::specs::Operations::axpy_in))]
    fn axpy_in(self, tokens: &[Token<'_>]) -> Result<Op, Wrong>
        requires { length self.regions.now < 2 ^ 32 }
        ensures { result ≡ axpy_in self.entry.variables.now self.entry.regions.now tokens.now }
    {
        match tokens {
            [d, k, x] => {
                let d = self.range_in(d.as_slice());
                let k = expression(self.variables, k.as_slice());
                let x = self.range_in(x.as_slice());
                let (d, (k, x)) = both(d, both(k, x))?;
                Ok(Op::Axpy(d, k, x))
            }
            _ => Err(Wrong::Form),
        }
    }
}

// Three numbers.
#[tactic(auto, unfolding(crate::specs::Operations::weights))]
fn weights(variables: &[Variable], a: &[u8], b: &[u8], c: &[u8]) -> Result<(u64, (u64, u64)), Wrong>
    ensures { result ≡ weights variables.now a.now b.now c.now }
{
    both(
        expression(variables, a),
        both(expression(variables, b), expression(variables, c)),
    )
}

impl Scope<'_> {
    // stencil D a b c X
    #[tactic(auto, unfolding(crate::specs::Operations::stencil_in))]
    fn stencil_in(self, tokens: &[Token<'_>]) -> Result<Op, Wrong>
        requires { length self.regions.now < 2 ^ 32 }
        ensures { result ≡ stencil_in self.entry.variables.now self.entry.regions.now tokens.now }
    {
        match tokens {
            [d, a, b, c, x] => {
                let d = self.range_in(d.as_slice());
                let numbers = weights(self.variables, a.as_slice(), b.as_slice(), c.as_slice());
                let x = self.range_in(x.as_slice());
                stencil_of(d, numbers, x)
            }
            _ => Err(Wrong::Form),
        }
    }
}

fn stencil_of(
    d: Result<Range, Wrong>,
    numbers: Result<(u64, (u64, u64)), Wrong>,
    x: Result<Range, Wrong>,
) -> Result<Op, Wrong>
    ensures { result ≡ stencil_of d numbers x }
{
    let (d, ((a, (b, c)), x)) = both(d, both(numbers, x))?;
    Ok(Op::Stencil(d, a, b, c, x))
}

impl Scope<'_> {
    // spmv D S C V X
    #[tactic(auto, unfolding(crate::specs::Operations::spmv_in))]
    fn spmv_in(self, tokens: &[Token<'_>]) -> Result<Op, Wrong>
        requires { length self.regions.now < 2 ^ 32 }
        ensures { result ≡ spmv_in self.entry.variables.now self.entry.regions.now tokens.now }
    {
        match tokens {
            [d, s, more @ ..] => {
                let d = self.range_in(d.as_slice());
                let s = self.range_in(s.as_slice());
                let more = self.three_ranges(more);
                spmv_of(d, s, more)
            }
            _ => Err(Wrong::Form),
        }
    }
}

fn spmv_of(
    d: Result<Range, Wrong>,
    s: Result<Range, Wrong>,
    more: Result<(Range, (Range, Range)), Wrong>,
) -> Result<Op, Wrong>
    ensures { result ≡ spmv_of d s more }
{
    let (d, (s, (c, (v, x)))) = both(d, both(s, more))?;
    Ok(Op::Spmv(d, s, c, v, x))
}

// An operation with two ranges, by its name.
fn short_op(keyword: &[u8], d: Range, x: Range) -> Result<Op, Wrong>
    ensures { result ≡ short_op keyword.now d x }
{
    if OpName::Copy.is(keyword) {
        Ok(Op::Copy(d, x))
    } else if OpName::Scan.is(keyword) {
        Ok(Op::Scan(d, x))
    } else if OpName::Sum.is(keyword) {
        Ok(Op::Sum(d, x))
    } else if OpName::Max.is(keyword) {
        Ok(Op::Max(d, x))
    } else {
        Err(Wrong::Form)
    }
}

// An operation with three ranges, by its name.
fn long_op(keyword: &[u8], d: Range, x: Range, z: Range) -> Result<Op, Wrong>
    ensures { result ≡ long_op keyword.now d x z }
{
    if OpName::Add.is(keyword) {
        Ok(Op::Add(d, x, z))
    } else if OpName::Sub.is(keyword) {
        Ok(Op::Sub(d, x, z))
    } else if OpName::Mul.is(keyword) {
        Ok(Op::Mul(d, x, z))
    } else if OpName::Dot.is(keyword) {
        Ok(Op::Dot(d, x, z))
    } else {
        Err(Wrong::Form)
    }
}

fn is_short(keyword: &[u8]) -> bool
    ensures { result ≡ is_short keyword.now }
{
    OpName::Copy.is(keyword)
        || (OpName::Scan.is(keyword) || (OpName::Sum.is(keyword) || OpName::Max.is(keyword)))
}

fn is_long(keyword: &[u8]) -> bool
    ensures { result ≡ is_long keyword.now }
{
    OpName::Add.is(keyword)
        || (OpName::Sub.is(keyword) || (OpName::Mul.is(keyword) || OpName::Dot.is(keyword)))
}

impl Scope<'_> {
    /// The operation of this name and these tokens. It takes no memory.
    #[tactic(auto, unfolding(crate::specs::Operations::op_in))]
    pub(crate) fn op_in(self, keyword: &[u8], tokens: &[Token<'_>]) -> Result<Op, Wrong>
        requires { length self.regions.now < 2 ^ 32 }
        ensures { result ≡ op_in self.entry.variables.now self.entry.regions.now keyword.now tokens.now }
    {
        if is_short(keyword) {
            let (d, x) = self.two_ranges(tokens)?;
            short_op(keyword, d, x)
        } else if is_long(keyword) {
            let (d, (x, z)) = self.three_ranges(tokens)?;
            long_op(keyword, d, x, z)
        } else if OpName::Fill.is(keyword) {
            self.fill_in(tokens)
        } else if OpName::Axpy.is(keyword) {
            self.axpy_in(tokens)
        } else if OpName::Stencil.is(keyword) {
            self.stencil_in(tokens)
        } else if OpName::Spmv.is(keyword) {
            self.spmv_in(tokens)
        } else {
            Err(Wrong::Form)
        }
    }
}
