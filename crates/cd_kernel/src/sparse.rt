// Rows of a sparse product: from lists where the machine lends all of them, and else word by word.
ghost use Rattle.std.specs.Prelude.{◌≡◌, ℕ, ◌+◌, ◌*◌, ◌<◌, ◌≤◌, length, min, nat_lt, slice_index, ◌∷◌, [], All, IfSome, if◌then◌else◌};
ghost use Rattle.cd_base.specs.Words.{word_of};
ghost use Rattle.cd_tree.specs.Operations.{length_of, nth_word, product_at, total, IsFull};
ghost use Rattle.cd_field.specs.FieldModel.{words_in};
ghost use Rattle.cd_kernel.specs.Computing.{row_at, IsHere};

use crate::words::{lent, read_nth};
use cd_base::Range;
use cd_field::Field;

/// The rows of a sparse product from one on, as many as the list takes.
pub(crate) fn row_products<F: Field>(
    s: Range,
    c: Range,
    v: Range,
    x: Range,
    at: u32,
    words: &mut [u64],
    field: &F,
)
    requires inside { at + length words.old + 1 ≤ length_of s }
    requires full { IsFull v × IsFull x }
    requires same { length_of c ≡ length_of v }
    requires here { All (IsHere (F.model field.now)) (s ∷ c ∷ v ∷ x ∷ []) }
    ensures { (j : ℕ) → j < length words.new → slice_index words.new j ≡ word_of (total (product_at (F.model field.now).words s c v x (at + j)) (length_of v)) }
{
    if let Some(lists) = lent_lists(s, c, v, x, field) {
        rows_of(&lists, at, words);
        return;
    }
    for i in 0..words.len() {
        words[i] = row_product(s, c, v, x, at + i as u32, field);
    }
}

// The starts of the rows, the columns and the values of all positions, and the vector.
#[derive(Debug, Clone, Copy)]
struct Lists<'a> {
    starts: &'a [u64],
    columns: &'a [u64],
    values: &'a [u64],
    vector: &'a [u64],
}

// The lists where all are lent.
fn lent_lists<F: Field>(s: Range, c: Range, v: Range, x: Range, field: &F) -> Option<Lists>
    requires { All (IsHere (F.model field.now)) (s ∷ c ∷ v ∷ x ∷ []) }
    ensures starts { IfSome result (λ lists. lists.starts.now ≡ words_in (F.model field.now).words s) }
    ensures columns { IfSome result (λ lists. lists.columns.now ≡ words_in (F.model field.now).words c) }
    ensures values { IfSome result (λ lists. lists.values.now ≡ words_in (F.model field.now).words v) }
    ensures vector { IfSome result (λ lists. lists.vector.now ≡ words_in (F.model field.now).words x) }
{
    let starts = lent(s, field)?;
    let columns = lent(c, field)?;
    let values = lent(v, field)?;
    let vector = lent(x, field)?;
    Some(Lists {
        starts,
        columns,
        values,
        vector,
    })
}

// The rows from one on, by lists.
fn rows_of(lists: &Lists, at: u32, words: &mut [u64])
    requires inside { at + length words.old + 1 ≤ length lists.now.starts.now }
    requires same { length lists.now.columns.now ≡ length lists.now.values.now }
    ensures { (j : ℕ) → j < length words.new → slice_index words.new j ≡ word_of (total (row_at (slice_index lists.now.starts.now (at + j)) (slice_index lists.now.starts.now (at + j + 1)) (length lists.now.vector.now) (slice_index lists.now.columns.now) (slice_index lists.now.values.now) (slice_index lists.now.vector.now)) (length lists.now.values.now)) }
{
    let Lists {
        starts,
        columns,
        values,
        vector,
    } = *lists;
    for i in 0..words.len() {
        let row = at as usize + i;
        words[i] = row_of(starts[row], starts[row + 1], columns, values, vector);
    }
}

// A row from its start up to its end, as far as there are values.
#[inline(always)]
fn row_of(start: u64, end: u64, columns: &[u64], values: &[u64], vector: &[u64]) -> u64
    requires { length columns.now ≡ length values.now }
    ensures { result ≡ word_of (total (row_at start end (length vector.now) (slice_index columns.now) (slice_index values.now) (slice_index vector.now)) (length values.now)) }
{
    let count = values.len();
    let first = cut(start, count);
    let last = cut(end, count);
    let mut sum = 0u64;
    for p in first..last {
        sum = sum.wrapping_add(product(columns[p], values[p], vector));
    }
    sum
}

// A value times the vector's word in its column, or 0 where the vector has no such word.
#[inline(always)]
fn product(column: u64, value: u64, vector: &[u64]) -> u64
    ensures { result ≡ (if nat_lt column (length vector.now) then word_of (value * slice_index vector.now column) else 0) }
{
    if column < vector.len() as u64 {
        value.wrapping_mul(vector[column as usize])
    } else {
        0
    }
}

#[inline(always)]
fn cut(word: u64, count: usize) -> usize
    ensures { result ≡ min word count }
{
    word.min(count as u64) as usize
}

// A row read word by word: its positions go from its start up to the next row's, as far as there are values.
fn row_product<F: Field>(s: Range, c: Range, v: Range, x: Range, i: u32, field: &F) -> u64
    requires inside { i + 1 < length_of s }
    requires full { IsFull v × IsFull x }
    requires same { length_of c ≡ length_of v }
    requires here { All (IsHere (F.model field.now)) (s ∷ c ∷ v ∷ x ∷ []) }
    ensures { result ≡ word_of (total (product_at (F.model field.now).words s c v x i) (length_of v)) }
{
    let count = (v.high - v.low) as usize;
    let start = cut(read_nth(s, i, field), count);
    let end = cut(read_nth(s, i + 1, field), count);
    let mut sum = 0u64;
    for p in start..end {
        sum = sum.wrapping_add(entry_product(c, v, x, p as u32, field));
    }
    sum
}

// The same of a position, read word by word.
fn entry_product<F: Field>(c: Range, v: Range, x: Range, p: u32, field: &F) -> u64
    requires inside { (p < length_of c) × (p < length_of v) }
    requires full { IsFull x }
    requires here { IsHere (F.model field.now) c × IsHere (F.model field.now) v × IsHere (F.model field.now) x }
    ensures { result ≡ (if nat_lt (nth_word (F.model field.now).words c p) (length_of x) then word_of (nth_word (F.model field.now).words v p * nth_word (F.model field.now).words x (nth_word (F.model field.now).words c p)) else 0) }
{
    let column = read_nth(c, p, field);
    if column < u64::from(x.high - x.low) {
        read_nth(v, p, field).wrapping_mul(read_nth(x, column as u32, field))
    } else {
        0
    }
}
