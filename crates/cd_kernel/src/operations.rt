// The operations on a machine: which way each is run, and the loops over blocks of its destination.
ghost use Rattle.std.specs.Prelude.{◌≡◌, ℕ, ◌+◌, ◌<◌, ◌≤◌, length, slice_index, ◌∷◌, [], All};
ghost use Rattle.cd_base.specs.Words.{word_of};
ghost use Rattle.cd_tree.specs.Operations.{column, length_of, nth_word, op_reads, op_writes, total, FitsShape, IsFull, IsInStep};
ghost use Rattle.cd_tree.specs.declared.operation.Op.TheVariants.{Fill, Scan};
ghost use Rattle.cd_field.specs.FieldModel.{ArePresent, wrote_run};
ghost use Rattle.cd_kernel.specs.Computing.{computed, run_of, IsDirect, IsHere};

use crate::blocks::block_words;
use crate::lists::{fill_with, sum_up};
use crate::totals::{BLOCK, block_length};
use crate::words::{run_from, write_from};
use cd_base::Range;
use cd_field::Field;
use cd_tree::{Op, laws, writes};

/// Runs an operation. Record, notes, lost places and all words outside the destination stay. It takes no memory.
pub fn apply<F: Field>(op: &Op, field: &mut F)
    requires full { All IsFull (op_writes op.now ∷ op_reads op.now) }
    requires shape { FitsShape op.now }
    requires present { ArePresent (F.model field.old) (op_writes op.now ∷ op_reads op.now) }
    ensures { F.model field.new ≡ computed (F.model field.old) op.now }
{
    match *op {
        Op::Scan(d, x) => scan(d, x, field),
        Op::Fill(d, word) => fill(d, word, field),
        Op::Copy(..)
        | Op::Add(..)
        | Op::Sub(..)
        | Op::Mul(..)
        | Op::Axpy(..)
        | Op::Sum(..)
        | Op::Dot(..)
        | Op::Max(..)
        | Op::Stencil(..)
        | Op::Spmv(..) => write_columns(op, field),
    }
}

// Any operation but `scan`: each word of the destination from the words before, a block at a time.
fn write_columns<F: Field>(op: &Op, field: &mut F)
    requires direct { IsDirect op.now }
    requires full { All IsFull (op_writes op.now ∷ op_reads op.now) }
    requires shape { FitsShape op.now }
    requires present { ArePresent (F.model field.old) (op_writes op.now ∷ op_reads op.now) }
    ensures { F.model field.new ≡ computed (F.model field.old) op.now }
{
    laws::an_operation_sees_its_sources_alone();
    let d = writes(op);
    let count = d.high - d.low;
    let mut words = [0; BLOCK];
    let mut more = [0; BLOCK + 2];
    let mut other = [0; BLOCK];
    let mut at = 0;
    while at < count {
        let length = block_length(at, count);
        write_block(
            op,
            at,
            &mut words[..length as usize],
            &mut more,
            &mut other,
            field,
        );
        at += length;
    }
}

// Writes the words of the destination from one on, as many as the list takes.
fn write_block<F: Field>(
    op: &Op,
    at: u32,
    words: &mut [u64],
    more: &mut [u64],
    other: &mut [u64],
    field: &mut F,
)
    requires direct { IsDirect op.now }
    requires full { All IsFull (op_writes op.now ∷ op_reads op.now) }
    requires shape { FitsShape op.now }
    requires here { All (IsHere (F.model field.old)) (op_writes op.now ∷ op_reads op.now) }
    requires inside { at + length words.old ≤ length_of (op_writes op.now) }
    requires room { (length words.old + 2 ≤ length more.old) × (length words.old ≤ length other.old) }
    ensures values { (j : ℕ) → j < length words.new → slice_index words.new j ≡ column op.now (F.model field.old).words (at + j) }
    ensures written { F.model field.new ≡ wrote_run (F.model field.old) (run_of (op_writes op.now) at (length words.new)) words.new }
{
    block_words(op, at, words, more, other, field);
    write_from(writes(op), at, words, field);
}

// One word at each place of the destination.
fn fill<F: Field>(d: Range, word: u64, field: &mut F)
    requires full { IsFull d }
    requires present { ArePresent (F.model field.old) (d ∷ []) }
    ensures { F.model field.new ≡ computed (F.model field.old) (Fill d word) }
{
    let count = d.high - d.low;
    let mut words = [0; BLOCK];
    fill_with(&mut words, word);
    let mut at = 0;
    while at < count {
        let length = block_length(at, count);
        write_from(d, at, &words[..length as usize], field);
        at += length;
    }
}

// The sums of the source's words from its first up to each. In place too: the sum is kept, and no written word is read.
fn scan<F: Field>(d: Range, x: Range, field: &mut F)
    requires full { All IsFull (d ∷ x ∷ []) }
    requires shape { IsInStep d x }
    requires present { ArePresent (F.model field.old) (d ∷ x ∷ []) }
    ensures { F.model field.new ≡ computed (F.model field.old) (Scan d x) }
{
    let count = d.high - d.low;
    let mut words = [0; BLOCK];
    let mut room = [0; BLOCK];
    let mut sum = 0u64;
    let mut at = 0;
    while at < count {
        let length = block_length(at, count);
        let end = length as usize;
        sum = scan_block(sum, d, x, at, &mut words[..end], &mut room[..end], field);
        at += length;
    }
}

// Sums that go on over the source's words from one on, as many as the list takes. Gives the last.
fn scan_block<F: Field>(
    sum: u64,
    d: Range,
    x: Range,
    at: u32,
    words: &mut [u64],
    room: &mut [u64],
    field: &mut F,
) -> u64
    requires same { length words.old ≡ length room.old }
    requires inside { (at + length words.old ≤ length_of d) × (at + length words.old ≤ length_of x) }
    requires here { IsHere (F.model field.old) d × IsHere (F.model field.old) x }
    ensures values { (j : ℕ) → j < length words.new → slice_index words.new j ≡ word_of (sum + total (λ i. nth_word (F.model field.old).words x (at + i)) (j + 1)) }
    ensures written { F.model field.new ≡ wrote_run (F.model field.old) (run_of d at (length words.new)) words.new }
    ensures last { result ≡ word_of (sum + total (λ i. nth_word (F.model field.old).words x (at + i)) (length words.new)) }
{
    let last = sum_up(sum, words, run_from(x, at, room, field));
    write_from(d, at, words, field);
    last
}
