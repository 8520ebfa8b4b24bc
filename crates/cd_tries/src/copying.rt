// Copies: the words of a range, kept in pieces of 64.
ghost use Rattle.std.specs.Prelude.{◌≡◌, ◌<◌, ◌≤◌, None, [], ◌∷◌, IfOk};
ghost use Rattle.cd_tree.specs.Meaning.{blocks_of};
ghost use Rattle.cd_tree.specs.Operations.{IsFull, length_of};
ghost use Rattle.cd_field.specs.FieldModel.{ArePresent, words_in};
ghost use Rattle.cd_keep.specs.PassModel.{kept};
ghost use Rattle.cd_tries.specs.Preserving.{IsCopy, nth_piece};

use crate::Pieces;
use cd_base::{Items, NoMemory, Range};
use cd_field::Field;
use cd_keep::{KeepId, Pass};
use cd_tree::limits::BLOCK_WORDS;
use std::alloc::Global;
use std::sync::Wait;

/// Keeps the words of a range, from its low end on. The words of a piece stand in a buffer of the call's own meanwhile.
pub fn copy_range<F: Field, P: Pass, R: Wait>(
    rt: &R,
    alloc: Global,
    range: Range,
    field: &F,
    pass: &mut P,
) -> Result<Pieces, NoMemory>
    requires full { IsFull range }
    requires present { ArePresent (F.model field.now) (range ∷ []) }
    requires room { blocks_of range ≤ (P.model pass.old).room }
    ensures { IfOk result (λ pieces. IsCopy (F.model field.now).words range pieces (P.model pass.old) (P.model pass.new)) }
{
    let mut ids = Items::new(alloc);
    for k in 0..count_pieces(range) {
        ids.push(copy_piece(rt, piece_of(range, k), field, pass)?)?;
    }
    Ok(Pieces {
        begin: range.low,
        end: range.high,
        ids,
    })
}

// How many pieces a range has.
fn count_pieces(range: Range) -> u32
    requires { IsFull range }
    ensures { result ≡ blocks_of range }
{
    (range.high - range.low - 1) / BLOCK_WORDS + 1
}

// The k-th piece of a range.
fn piece_of(range: Range, k: u32) -> Range
    requires { k < blocks_of range }
    ensures piece { result ≡ nth_piece range k }
    ensures some { result.low < result.high }
    ensures few { length_of result ≤ 64 }
{
    let low = range.low + BLOCK_WORDS * k;
    Range {
        region: range.region,
        low,
        high: low + (range.high - low).min(BLOCK_WORDS),
    }
}

// Keeps the words of one piece.
fn copy_piece<F: Field, P: Pass, R: Wait>(
    rt: &R,
    piece: Range,
    field: &F,
    pass: &mut P,
) -> Result<KeepId, NoMemory>
    requires some { piece.low < piece.high }
    requires few { length_of piece ≤ 64 }
    requires present { ArePresent (F.model field.now) (piece ∷ []) }
    requires room { 0 < (P.model pass.old).room }
    ensures new { IfOk result (λ id. (P.model pass.old).known id ≡ None) }
    ensures kept { IfOk result (λ id. P.model pass.new ≡ kept (P.model pass.old) id (words_in (F.model field.now).words piece)) }
{
    let mut buffer = [0u64; BLOCK_WORDS as usize];
    let words = &mut buffer[..(piece.high - piece.low) as usize];
    field.read_run(piece, words);
    pass.keep(rt, words)
}
