//! The operations, their ranges, and whether these have the shape that they must have.

ghost use Rattle.std.specs.Prelude.{◌≡◌, ◌↔◌, ◌<◌, ◌^◌, ◌∷◌, slice_get, IsTrue, All};
ghost use Rattle.cd_tree.specs.Operations.{op_reads, op_writes, length_of, IsFull, FitsShape, is_same_range, is_apart, are_both_apart, is_in_step, is_total, is_dot, is_stencil, is_spmv, fits_shape};

use cd_base::Range;

/// An operation on words, modulo 2^64. The destination stands first; every source word is the word before it.
#[derive(Debug, Clone, Copy, PartialEq, Eq)]
pub enum Op {
    /// Each word is the number.
    Fill(Range, u64),
    /// The words of the source.
    Copy(Range, Range),
    /// Sums word by word.
    Add(Range, Range, Range),
    /// Differences word by word.
    Sub(Range, Range, Range),
    /// Products word by word.
    Mul(Range, Range, Range),
    /// The destination plus the number times the source.
    Axpy(Range, u64, Range),
    /// Sums of the source's words from its first up to each.
    Scan(Range, Range),
    /// The sum of all words of the source.
    Sum(Range, Range),
    /// The sum of the products of two sources.
    Dot(Range, Range, Range),
    /// The greatest word of the source.
    Max(Range, Range),
    /// Each three words of the source, weighted by the three numbers.
    Stencil(Range, u64, u64, u64, Range),
    /// A sparse matrix, given by row starts, columns and values, times a vector.
    Spmv(Range, Range, Range, Range, Range),
}

/// The `k`-th source range in the order of the text, from 0, where there are so many. It takes no memory.
pub fn reads(op: &Op, k: u32) -> Option<Range>
    ensures { result ≡ slice_get (op_reads op.now) k }
{
    let k = k as usize;
    match *op {
        Op::Fill(..) => None,
        Op::Copy(_, x)
        | Op::Scan(_, x)
        | Op::Sum(_, x)
        | Op::Max(_, x)
        | Op::Stencil(_, _, _, _, x) => { [x].get(k).copied() }
        Op::Add(_, x, z) | Op::Sub(_, x, z) | Op::Mul(_, x, z) | Op::Dot(_, x, z) => [x, z]
            .get(k)
            .copied(),
        Op::Axpy(d, _, x) => [d, x].get(k).copied(),
        Op::Spmv(_, s, c, v, x) => [s, c, v, x].get(k).copied(),
    }
}

/// The destination. It takes no memory.
pub fn writes(op: &Op) -> Range
    ensures { result ≡ op_writes op.now }
{
    match *op {
        Op::Fill(d, _)
        | Op::Copy(d, _)
        | Op::Add(d, _, _)
        | Op::Sub(d, _, _)
        | Op::Mul(d, _, _)
        | Op::Axpy(d, _, _)
        | Op::Scan(d, _)
        | Op::Sum(d, _)
        | Op::Dot(d, _, _)
        | Op::Max(d, _)
        | Op::Stencil(d, _, _, _, _)
        | Op::Spmv(d, _, _, _, _) => d,
    }
}

/// Whether each range of an operation has a place. It takes no memory.
pub fn is_full(op: &Op) -> bool
    ensures { IsTrue result ↔ All IsFull (op_writes op.now ∷ op_reads op.now) }
{
    match *op {
        Op::Fill(d, _) => are_full(&[d]),
        Op::Copy(d, x)
        | Op::Scan(d, x)
        | Op::Sum(d, x)
        | Op::Max(d, x)
        | Op::Stencil(d, _, _, _, x) => are_full(&[d, x]),
        Op::Axpy(d, _, x) => are_full(&[d, d, x]),
        Op::Add(d, x, z) | Op::Sub(d, x, z) | Op::Mul(d, x, z) | Op::Dot(d, x, z) => {
            are_full(&[d, x, z])
        }
        Op::Spmv(d, s, c, v, x) => are_full(&[d, s, c, v, x]),
    }
}

// Whether each range has a place.
fn are_full(ranges: &[Range]) -> bool
    ensures { IsTrue result ↔ All IsFull ranges.now }
{
    ranges.iter().all(|range| range.low < range.high)
}

/// Whether an operation has the lengths and ranges that it must have. It takes no memory.
pub fn fits(op: &Op) -> bool
    ensures test { result ≡ fits_shape op.now }
    ensures shape { IsTrue result ↔ FitsShape op.now }
{
    has_shape(op)
}

// The test of the shape.
fn has_shape(op: &Op) -> bool
    ensures { result ≡ fits_shape op.now }
{
    match *op {
        Op::Fill(..) => true,
        Op::Copy(d, x) | Op::Axpy(d, _, x) | Op::Scan(d, x) => is_in_step(d, x),
        Op::Add(d, x, z) | Op::Sub(d, x, z) | Op::Mul(d, x, z) => {
            is_in_step(d, x) && is_in_step(d, z)
        }
        Op::Sum(d, x) | Op::Max(d, x) => is_total(d, x),
        Op::Dot(d, x, z) => is_dot(d, x, z),
        Op::Stencil(d, _, _, _, x) => is_stencil(d, x),
        Op::Spmv(d, s, c, v, x) => is_spmv(d, s, c, v, x),
    }
}

// Whether a source has the destination's length, and is the destination itself or apart from it.
fn is_in_step(d: Range, x: Range) -> bool
    ensures { result ≡ is_in_step d x }
{
    words_in(x) == words_in(d) && (is_same_range(x, d) || is_apart(d, x))
}

// Whether the destination is one word, apart from the source.
fn is_total(d: Range, x: Range) -> bool
    ensures { result ≡ is_total d x }
{
    words_in(d) == 1 && is_apart(d, x)
}

fn is_dot(d: Range, x: Range, z: Range) -> bool
    ensures { result ≡ is_dot d x z }
{
    words_in(d) == 1 && (words_in(x) == words_in(z) && are_both_apart(d, x, z))
}

fn is_stencil(d: Range, x: Range) -> bool
    ensures { result ≡ is_stencil d x }
{
    words_in(x) == words_in(d) + 2 && is_apart(d, x)
}

fn is_spmv(d: Range, s: Range, c: Range, v: Range, x: Range) -> bool
    ensures { result ≡ is_spmv d s c v x }
{
    let lengths = words_in(s) == words_in(d) + 1 && words_in(c) == words_in(v);
    lengths && (are_both_apart(d, s, c) && are_both_apart(d, v, x))
}

fn are_both_apart(d: Range, x: Range, z: Range) -> bool
    ensures { result ≡ are_both_apart d x z }
{
    is_apart(d, x) && is_apart(d, z)
}

// Whether two ranges have no common place.
fn is_apart(r: Range, s: Range) -> bool
    ensures { result ≡ is_apart r s }
{
    r.region != s.region || r.high.min(s.high) <= r.low.max(s.low)
}

fn is_same_range(r: Range, s: Range) -> bool
    ensures { result ≡ is_same_range r s }
{
    r.region == s.region && (r.low == s.low && r.high == s.high)
}

// The number of words of a range.
fn words_in(range: Range) -> u64
    ensures value { result ≡ length_of range }
    ensures few { result < 2 ^ 32 }
{
    u64::from(range.high.saturating_sub(range.low))
}
