//! The twelve operations on a board of 64 words, on the plain machine and on the shipped one.

ghost use Rattle.std.specs.Prelude.{◌≡◌, ◌+◌, ◌<◌, ◌≤◌, ◌∷◌, [], true, All, IfOk, OnOk, IsSome, IsTrue};
ghost use Rattle.cd_base.specs.Words.{in_range};
ghost use Rattle.cd_tree.specs.Meaning.{initial};
ghost use Rattle.cd_tree.specs.Operations.{op_reads, op_writes, length_of, FitsShape, IsFull, IsInStep, AreApart};
ghost use Rattle.cd_field.specs.FieldModel.{IsPresent};
ghost use Rattle.cd_parts_tests.specs.OneRegion.{board, HasBoard, IsOnBoard};

use cd_base::{Items, Pattern, Place, Range, Text};
use cd_field::{Field, MapField, ScriptField};
use cd_kernel::apply;
use cd_tree::{Op, Region, Regions, writes};
use std::alloc::Global;
use std::test::Fail;

const COUNT: u32 = 64;

const LARGEST: u64 = u64::MAX;

fn part(low: u32, high: u32) -> Range {
    Range {
        region: 0,
        low,
        high,
    }
}

fn one_region(alloc: Global) -> Result<Regions, Fail>
    ensures { IfOk result (λ regions. (p : _) → in_range board p ≡ true → IsSome (initial regions p)) }
{
    let mut regions = Items::new(alloc);
    regions.push(Region {
        name: Text::of(alloc, "board")?,
        length: COUNT,
        pattern: Pattern::Const(0),
    })?;
    Ok(regions)
}

// A machine whose words all are 0.
fn load_board<F: Field>(alloc: Global, field: &mut F) -> Result<(), Fail>
    ensures { OnOk result (HasBoard (F.model field.new)) }
{
    field.load(&one_region(alloc)?, &Items::new(alloc))?;
    Ok(())
}

// Words from an index on, in place of those that stand there.
fn put<F: Field>(field: &mut F, low: u32, words: &[u64]) -> Result<(), Fail>
    requires { HasBoard (F.model field.old) }
    ensures { OnOk result (HasBoard (F.model field.new)) }
{
    let mut index = low;
    for word in words {
        if index >= COUNT {
            return Err(Fail::new("more words than the board has"));
        }
        field.write(Place { region: 0, index }, *word);
        index += 1;
    }
    Ok(())
}

// The words from an index on are these.
fn expect_words<F: Field>(field: &F, low: u32, words: &[u64]) -> Result<(), Fail>
    requires { HasBoard (F.model field.now) }
{
    let mut index = low;
    for wanted in words {
        if index >= COUNT {
            return Err(Fail::new("more words than the board has"));
        }
        expect_word(field, Place { region: 0, index }, *wanted)?;
        index += 1;
    }
    Ok(())
}

fn expect_word<F: Field>(field: &F, place: Place, wanted: u64) -> Result<(), Fail>
    requires { IsPresent (F.model field.now) place }
{
    let word = field.read(place);
    if word == wanted {
        Ok(())
    } else {
        let index = place.index;
        Err(Fail::new(format_args!("word {index} is {word} in place of {wanted}")))
    }
}

fn is_on_board(range: Range) -> bool
    ensures { IsTrue result → IsFull range × IsOnBoard range }
{
    range.region == 0 && range.low < range.high && range.high <= COUNT
}

fn is_apart(d: Range, x: Range) -> bool
    ensures { IsTrue result → AreApart d x }
{
    d.high <= x.low || x.high <= d.low
}

fn is_same(d: Range, x: Range) -> bool
    ensures { IsTrue result → d ≡ x }
{
    d == x
}

fn is_long(range: Range, length: u32) -> bool
    requires { IsFull range }
    ensures { IsTrue result → length_of range ≡ length }
{
    range.high - range.low == length
}

// Whether a source is in step with the destination.
fn is_in_step(d: Range, x: Range) -> bool
    requires { IsFull d }
    ensures { IsTrue result → IsFull x × IsOnBoard x × IsInStep d x }
{
    is_on_board(x) && is_long(x, d.high - d.low) && (is_same(x, d) || is_apart(d, x))
}

// Whether a source of a length is apart from the destination.
fn is_beside(d: Range, x: Range, length: u32) -> bool
    ensures { IsTrue result → IsFull x × IsOnBoard x × (length_of x ≡ length) × AreApart d x }
{
    is_on_board(x) && is_long(x, length) && is_apart(d, x)
}

// Whether an operation has its shape, on words of the board.
fn fits(op: &Op) -> bool
    ensures full { IsTrue result → All IsFull (op_writes op.now ∷ op_reads op.now) }
    ensures shape { IsTrue result → FitsShape op.now }
    ensures places { IsTrue result → All IsOnBoard (op_writes op.now ∷ op_reads op.now) }
{
    let d = writes(op);
    if !is_on_board(d) {
        return false;
    }
    let n = d.high - d.low;
    match *op {
        Op::Fill(..) => true,
        Op::Copy(_, x) | Op::Axpy(_, _, x) | Op::Scan(_, x) => is_in_step(d, x),
        Op::Add(_, x, z) | Op::Sub(_, x, z) | Op::Mul(_, x, z) => {
            is_in_step(d, x) && is_in_step(d, z)
        }
        Op::Sum(_, x) | Op::Max(_, x) => n == 1 && is_on_board(x) && is_apart(d, x),
        Op::Dot(_, x, z) => n == 1
            && is_on_board(x)
            && is_apart(d, x)
            && is_beside(d, z, x.high - x.low),
        Op::Stencil(_, _, _, _, x) => n < COUNT && is_beside(d, x, n + 2),
        Op::Spmv(_, s, c, v, x) => {
            n < COUNT
                && is_beside(d, s, n + 1)
                && is_on_board(v)
                && is_apart(d, v)
                && is_beside(d, c, v.high - v.low)
                && is_on_board(x)
                && is_apart(d, x)
        }
    }
}

// Runs an operation that fits.
fn run<F: Field>(field: &mut F, op: Op) -> Result<(), Fail>
    requires { HasBoard (F.model field.old) }
    ensures { OnOk result (HasBoard (F.model field.new)) }
{
    if !fits(&op) {
        return Err(Fail::new("the operation does not fit"));
    }
    apply(&op, field);
    Ok(())
}

fn each_operation_in_a_row<F: Field>(alloc: Global, field: &mut F) -> Result<(), Fail> {
    load_board(alloc, field)?;
    let (x, a, b, c) = (part(0, 4), part(4, 8), part(8, 12), part(12, 14));
    put(field, 0, &[1, 2, 3, 4, 1, 1, 1, 1])?;
    run(field, Op::Axpy(a, 3, x))?;
    run(field, Op::Scan(b, x))?;
    run(field, Op::Stencil(c, 1, 2, 1, x))?;
    run(field, Op::Sum(part(14, 15), x))?;
    run(field, Op::Dot(part(15, 16), x, x))?;
    run(field, Op::Max(part(16, 17), b))?;
    expect_words(
        field,
        0,
        &[1, 2, 3, 4, 4, 7, 10, 13, 1, 3, 6, 10, 8, 12, 10, 30, 10],
    )?;
    Ok(())
}

fn words_wrap_and_rows_end<F: Field>(alloc: Global, field: &mut F) -> Result<(), Fail> {
    load_board(alloc, field)?;
    let (starts, cols, vals, x, y) = (
        part(4, 7),
        part(7, 10),
        part(10, 13),
        part(13, 16),
        part(16, 18),
    );
    put(
        field,
        0,
        &[
            LARGEST, LARGEST, 0, 0, 0, 0, 0, 0, 2, 4, 5, 5, 5, 1, 2, 3, 9, 9,
        ],
    )?;
    run(field, Op::Sum(part(2, 3), part(0, 2)))?;
    run(field, Op::Sub(part(3, 4), part(13, 14), part(14, 15)))?;
    run(field, Op::Fill(part(4, 5), 2))?;
    run(field, Op::Fill(part(6, 7), 9))?;
    run(field, Op::Spmv(y, starts, cols, vals, x))?;
    expect_words(
        field,
        2,
        &[
            LARGEST - 1,
            LARGEST,
            2,
            0,
            9,
            0,
            2,
            4,
            5,
            5,
            5,
            1,
            2,
            3,
            0,
            20,
        ],
    )?;
    Ok(())
}

// The words from an index on after an operation on x = 1 2 3 4, z = 5 6 7 8 and four words 9.
fn gives<F: Field>(
    alloc: Global,
    field: &mut F,
    op: Op,
    low: u32,
    wanted: [u64; 4],
) -> Result<(), Fail> {
    load_board(alloc, field)?;
    put(field, 0, &[1, 2, 3, 4, 5, 6, 7, 8, 9, 9, 9, 9])?;
    run(field, op)?;
    expect_words(field, low, &wanted)?;
    Ok(())
}

// Each operation, apart from its sources and in place.
fn apart_and_in_place<F: Field>(alloc: Global, field: &mut F) -> Result<(), Fail> {
    let (x, z, d, one) = (part(0, 4), part(4, 8), part(8, 12), part(8, 9));
    let minus_four = LARGEST - 3;
    let cases = [
        (Op::Fill(d, 3), 8, [3, 3, 3, 3]),
        (Op::Copy(d, x), 8, [1, 2, 3, 4]),
        (Op::Add(d, x, z), 8, [6, 8, 10, 12]),
        (
            Op::Sub(d, x, z),
            8,
            [minus_four, minus_four, minus_four, minus_four],
        ),
        (Op::Mul(d, x, z), 8, [5, 12, 21, 32]),
        (Op::Axpy(d, 3, x), 8, [12, 15, 18, 21]),
        (Op::Scan(d, x), 8, [1, 3, 6, 10]),
        (Op::Sum(one, x), 8, [10, 9, 9, 9]),
        (Op::Dot(one, x, z), 8, [70, 9, 9, 9]),
        (Op::Max(one, z), 8, [8, 9, 9, 9]),
        (Op::Stencil(part(8, 10), 1, 2, 10, x), 8, [35, 48, 9, 9]),
        (Op::Copy(x, x), 0, [1, 2, 3, 4]),
        (Op::Add(x, x, x), 0, [2, 4, 6, 8]),
        (Op::Sub(x, z, x), 0, [4, 4, 4, 4]),
        (Op::Mul(x, x, x), 0, [1, 4, 9, 16]),
        (Op::Axpy(x, 3, x), 0, [4, 8, 12, 16]),
        (Op::Scan(x, x), 0, [1, 3, 6, 10]),
    ];
    for (op, low, wanted) in cases {
        gives(alloc, field, op, low, wanted)?;
    }
    Ok(())
}

// A sparse product over two rows, three positions and three columns: starts, columns, values, and the words given.
// The vector is 1 2 3.
fn rows_of_a_sparse_product<F: Field>(alloc: Global, field: &mut F) -> Result<(), Fail> {
    let four_gibi = 1u64 << 32;
    let half = 1u64 << 63;
    let cases = [
        ([0, 1, 3], [0, 1, 2], [5, 5, 5], [5, 25]),
        ([2, 0, 9], [0, 2, 4], [5, 5, 5], [0, 20]),
        ([1, 1, 2], [0, 2, 4], [5, 5, 5], [0, 15]),
        ([7, 9, 9], [0, 2, 4], [5, 5, 5], [0, 0]),
        ([0, LARGEST, 0], [0, 2, 4], [5, 5, 5], [20, 0]),
        (
            [four_gibi, four_gibi + 3, four_gibi],
            [0, 1, 2],
            [5, 5, 5],
            [0, 0],
        ),
        ([0, 3, 3], [four_gibi, LARGEST, 3], [5, 5, 5], [0, 0]),
        ([0, 3, 3], [1, 2, 0], [half, 1, LARGEST], [2, 0]),
    ];
    for (starts, cols, vals, wanted) in cases {
        load_board(alloc, field)?;
        put(field, 0, &starts)?;
        put(field, 3, &cols)?;
        put(field, 6, &vals)?;
        put(field, 9, &[1, 2, 3, 9, 9])?;
        run(
            field,
            Op::Spmv(
                part(12, 14),
                part(0, 3),
                part(3, 6),
                part(6, 9),
                part(9, 12),
            ),
        )?;
        expect_words(field, 12, &wanted)?;
    }
    Ok(())
}

fn each_table<F: Field>(alloc: Global, field: &mut F) -> Result<(), Fail> {
    each_operation_in_a_row(alloc, field)?;
    words_wrap_and_rows_end(alloc, field)?;
    apart_and_in_place(alloc, field)?;
    rows_of_a_sparse_product(alloc, field)?;
    Ok(())
}

#[test]
fn operations_on_a_field_of_maps(rt: HostRuntime) -> Result<(), Fail> {
    each_table(rt.alloc(), &mut MapField::empty(rt.alloc()))
}

#[test]
fn operations_on_a_flat_field(rt: HostRuntime) -> Result<(), Fail> {
    each_table(rt.alloc(), &mut ScriptField::empty(rt.alloc()))
}
