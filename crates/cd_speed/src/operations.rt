// The operations that are timed, by their names, and the regions whose words they run on.
ghost use Rattle.std.specs.Prelude.{◌≡◌, ◌<◌, ◌≤◌, ◌∷◌, [], All, IfOk, IsSome, IsTrue};
ghost use Rattle.cd_tree.specs.Meaning.{initial};
ghost use Rattle.cd_tree.specs.Operations.{op_reads, op_writes};
ghost use Rattle.cd_speed.specs.Timed.{IsInside};

use cd_base::{Items, NoMemory, Pattern, Range, Text};
use cd_tree::{Op, Region, Regions};
use std::alloc::Global;

/// How many words an operation goes over.
pub(crate) const COUNT: u32 = 330_000;

/// The length of each region: a stencil reads two words more.
pub(crate) const LENGTH: u32 = 330_002;

/// Positions in a row of the sparse product.
const ROW: u32 = 4;

/// The words that each region begins with: one that no operation uses, the destination, two sources, the starts of rows, and
/// columns.
pub(crate) const PATTERNS: [Pattern; 6] = [
    Pattern::Const(0),
    Pattern::Const(0),
    Pattern::Mix(1),
    Pattern::Mix(2),
    Pattern::Iota(0, 4),
    Pattern::Iota(0, 1),
];

fn from_first(region: u32, high: u32) -> Range {
    Range {
        region,
        low: 0,
        high,
    }
}

/// The operation of a name.
pub(crate) fn named(name: &str) -> Option<Op> {
    let d = from_first(1, COUNT);
    let one = from_first(1, 1);
    let x = from_first(2, COUNT);
    let z = from_first(3, COUNT);
    let rows = from_first(1, COUNT / ROW);
    let starts = from_first(4, COUNT / ROW + 1);
    let table = [
        ("fill", Op::Fill(d, 7)),
        ("copy", Op::Copy(d, x)),
        ("add", Op::Add(d, x, z)),
        ("sub", Op::Sub(d, x, z)),
        ("mul", Op::Mul(d, x, z)),
        ("axpy", Op::Axpy(d, 3, x)),
        ("scan", Op::Scan(d, x)),
        ("sum", Op::Sum(one, x)),
        ("dot", Op::Dot(one, x, z)),
        ("max", Op::Max(one, x)),
        ("stencil", Op::Stencil(d, 1, 2, 3, from_first(2, LENGTH))),
        ("spmv", Op::Spmv(rows, starts, from_first(5, COUNT), z, x)),
    ];
    for (known, op) in table {
        if known == name {
            return Some(op);
        }
    }
    None
}

/// The six regions.
pub(crate) fn regions(alloc: Global) -> Result<Regions, NoMemory>
    ensures { IfOk result (λ regions. (p : _) → p.region < 6 → p.index < 330002 → IsSome (initial regions p)) }
{
    let mut regions = Items::new(alloc);
    for pattern in PATTERNS {
        let region = Region {
            name: Text::of(alloc, "words")?,
            length: LENGTH,
            pattern,
        };
        regions.push(region)?;
    }
    Ok(regions)
}

/// Whether the ranges of an operation lie in the regions from the second on.
pub(crate) fn is_inside(op: &Op) -> bool
    ensures { IsTrue result → All (IsInside 1) (op_writes op.now ∷ op_reads op.now) }
{
    match *op {
        Op::Fill(d, _) => has_all(&[d]),
        Op::Copy(d, x)
        | Op::Scan(d, x)
        | Op::Sum(d, x)
        | Op::Max(d, x)
        | Op::Stencil(d, _, _, _, x) => has_all(&[d, x]),
        Op::Axpy(d, _, x) => has_all(&[d, d, x]),
        Op::Add(d, x, z) | Op::Sub(d, x, z) | Op::Mul(d, x, z) | Op::Dot(d, x, z) => {
            has_all(&[d, x, z])
        }
        Op::Spmv(d, s, c, v, x) => has_all(&[d, s, c, v, x]),
    }
}

/// Whether ranges lie in the regions from the second on.
pub(crate) fn has_all(ranges: &[Range]) -> bool
    ensures { IsTrue result → All (IsInside 1) ranges.now }
{
    ranges.iter().all(|range| range.region >= 1 && range.region < 6 && range.high <= LENGTH)
}
