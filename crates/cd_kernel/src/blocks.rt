// What an operation gives to a block of its destination's words, from the words as they stand.
ghost use Rattle.std.specs.Prelude.{◌≡◌, ℕ, ◌+◌, ◌*◌, ◌<◌, ◌≤◌, length, slice_index, ◌∷◌, All};
ghost use Rattle.cd_base.specs.Words.{word_of};
ghost use Rattle.cd_tree.specs.Operations.{column, length_of, nth_word, op_reads, op_writes, FitsShape, IsFull};
ghost use Rattle.cd_kernel.specs.Computing.{paired, IsDirect, IsHere};

use crate::lists::{Pairing, fill_with, pair, weigh};
use crate::sparse::row_products;
use crate::totals::{Gathering, gather};
use crate::words::{read_from, run_from};
use cd_base::Range;
use cd_field::Field;
use cd_tree::Op;

/// The words that an operation gives to its destination's from one on, as many as the list takes. Two lists are
/// there to read into.
pub(crate) fn block_words<F: Field>(
    op: &Op,
    at: u32,
    words: &mut [u64],
    more: &mut [u64],
    other: &mut [u64],
    field: &F,
)
    requires direct { IsDirect op.now }
    requires full { All IsFull (op_writes op.now ∷ op_reads op.now) }
    requires shape { FitsShape op.now }
    requires here { All (IsHere (F.model field.now)) (op_reads op.now) }
    requires inside { at + length words.old ≤ length_of (op_writes op.now) }
    requires room { (length words.old + 2 ≤ length more.old) × (length words.old ≤ length other.old) }
    ensures { (j : ℕ) → j < length words.new → slice_index words.new j ≡ column op.now (F.model field.now).words (at + j) }
{
    match *op {
        Op::Fill(_, word) => fill_with(words, word),
        Op::Copy(_, x) => read_from(x, at, words, field),
        Op::Add(_, x, z) => from_two(Pairing::Plus, x, z, at, words, more, other, field),
        Op::Sub(_, x, z) => from_two(Pairing::Minus, x, z, at, words, more, other, field),
        Op::Mul(_, x, z) => from_two(Pairing::Times, x, z, at, words, more, other, field),
        Op::Axpy(d, factor, x) => from_two(
            Pairing::Multiple(factor),
            d,
            x,
            at,
            words,
            more,
            other,
            field,
        ),
        Op::Scan(..) => unreachable!(),
        Op::Sum(_, x) => fill_with(words, gather(Gathering::Adding, x, field)),
        Op::Dot(_, x, z) => fill_with(words, gather(Gathering::Multiplying(z), x, field)),
        Op::Max(_, x) => fill_with(words, gather(Gathering::Comparing, x, field)),
        Op::Stencil(_, a, b, c, x) => weighted(a, b, c, x, at, words, more, field),
        Op::Spmv(_, s, c, v, x) => row_products(s, c, v, x, at, words, field),
    }
}

// Each word comes from the words of two ranges.
fn from_two<F: Field>(
    pairing: Pairing,
    x: Range,
    z: Range,
    at: u32,
    words: &mut [u64],
    more: &mut [u64],
    other: &mut [u64],
    field: &F,
)
    requires inside { (at + length words.old ≤ length_of x) × (at + length words.old ≤ length_of z) }
    requires here { IsHere (F.model field.now) x × IsHere (F.model field.now) z }
    requires room { (length words.old ≤ length more.old) × (length words.old ≤ length other.old) }
    ensures { (j : ℕ) → j < length words.new → slice_index words.new j ≡ paired pairing (nth_word (F.model field.now).words x (at + j)) (nth_word (F.model field.now).words z (at + j)) }
{
    let count = words.len();
    let xs = run_from(x, at, &mut more[..count], field);
    let zs = run_from(z, at, &mut other[..count], field);
    pair(pairing, words, xs, zs);
}

// Three words from each on, weighted.
fn weighted<F: Field>(
    a: u64,
    b: u64,
    c: u64,
    x: Range,
    at: u32,
    words: &mut [u64],
    more: &mut [u64],
    field: &F,
)
    requires inside { at + length words.old + 2 ≤ length_of x }
    requires here { IsHere (F.model field.now) x }
    requires room { length words.old + 2 ≤ length more.old }
    ensures { (j : ℕ) → j < length words.new → slice_index words.new j ≡ word_of (a * nth_word (F.model field.now).words x (at + j) + b * nth_word (F.model field.now).words x (at + j + 1) + c * nth_word (F.model field.now).words x (at + j + 2)) }
{
    let count = words.len() + 2;
    let xs = run_from(x, at, &mut more[..count], field);
    weigh(a, b, c, words, xs);
}
