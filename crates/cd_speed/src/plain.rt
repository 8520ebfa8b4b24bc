// Turns of an operation as plain loops over slices.
ghost use Rattle.std.specs.Prelude.{◌+◌, ◌≤◌, length};

use crate::operations::{LENGTH, PATTERNS};
use cd_base::{NoMemory, Pattern, Range};
use cd_tree::Op;
use std::alloc::Global;

/// The words of the five regions that operations use.
#[derive(Drop)]
struct Lists {
    d: Vec<u64>,
    x: Vec<u64>,
    z: Vec<u64>,
    starts: Vec<u64>,
    columns: Vec<u64>,
}

/// Runs an operation so many times, each time on another word first. Gives a sum of words that it wrote.
pub(crate) fn sum_of_turns(alloc: Global, op: Op, turns: u32) -> Result<u64, NoMemory> {
    let [_, d, x, z, starts, columns] = PATTERNS;
    let mut lists = Lists {
        d: words(alloc, d)?,
        x: words(alloc, x)?,
        z: words(alloc, z)?,
        starts: words(alloc, starts)?,
        columns: words(alloc, columns)?,
    };
    let mut sum = 0u64;
    for turn in 0..turns {
        sum = sum.wrapping_add(turn_on(&mut lists, &op, turn));
    }
    Ok(sum)
}

fn words(alloc: Global, pattern: Pattern) -> Result<Vec<u64>, NoMemory> {
    let mut words = Vec::new(alloc);
    for index in 0..LENGTH {
        words.push(pattern.at(index))?;
    }
    Ok(words)
}

fn turn_on(lists: &mut Lists, op: &Op, turn: u32) -> u64 {
    let index = (turn % crate::operations::COUNT) as usize;
    if let Some(word) = lists.x.get_mut(index) {
        *word = u64::from(turn);
    }
    run(lists, op);
    lists.d.get(index).copied().unwrap_or(0)
}

// The words of a range, each of whose regions is a list.
fn part(words: &[u64], range: Range) -> &[u64] {
    words
        .get(range.low as usize..range.high as usize)
        .unwrap_or(&[])
}

fn part_mut(words: &mut [u64], range: Range) -> &mut [u64] {
    words
        .get_mut(range.low as usize..range.high as usize)
        .unwrap_or(&mut [])
}

fn run(lists: &mut Lists, op: &Op) {
    let Lists {
        d: all,
        x: xs,
        z: zs,
        starts,
        columns,
    } = lists;
    match *op {
        Op::Fill(d, k) => fill(part_mut(all, d), k),
        Op::Copy(d, x) => copy(part_mut(all, d), part(xs, x)),
        Op::Add(d, x, z) => add(part_mut(all, d), part(xs, x), part(zs, z)),
        Op::Sub(d, x, z) => subtract(part_mut(all, d), part(xs, x), part(zs, z)),
        Op::Mul(d, x, z) => multiply(part_mut(all, d), part(xs, x), part(zs, z)),
        Op::Axpy(d, k, x) => add_multiple(part_mut(all, d), k, part(xs, x)),
        Op::Scan(d, x) => scan(part_mut(all, d), part(xs, x)),
        Op::Sum(d, x) => fill(part_mut(all, d), sum(part(xs, x))),
        Op::Dot(d, x, z) => fill(part_mut(all, d), dot(part(xs, x), part(zs, z))),
        Op::Max(d, x) => fill(part_mut(all, d), greatest(part(xs, x))),
        Op::Stencil(d, a, b, c, x) => stencil(part_mut(all, d), [a, b, c], part(xs, x)),
        Op::Spmv(d, s, c, v, x) => sparse(
            part_mut(all, d),
            part(starts, s),
            part(columns, c),
            part(zs, v),
            part(xs, x),
        ),
    }
}

fn fill(d: &mut [u64], k: u64) {
    for word in d {
        *word = k;
    }
}

/// Copies words to as many others.
pub(crate) fn copy(d: &mut [u64], x: &[u64]) {
    for (word, from) in d.iter_mut().zip(x) {
        *word = *from;
    }
}

fn add(d: &mut [u64], x: &[u64], z: &[u64]) {
    for (word, (a, b)) in d.iter_mut().zip(x.iter().zip(z)) {
        *word = a.wrapping_add(*b);
    }
}

fn subtract(d: &mut [u64], x: &[u64], z: &[u64]) {
    for (word, (a, b)) in d.iter_mut().zip(x.iter().zip(z)) {
        *word = a.wrapping_sub(*b);
    }
}

fn multiply(d: &mut [u64], x: &[u64], z: &[u64]) {
    for (word, (a, b)) in d.iter_mut().zip(x.iter().zip(z)) {
        *word = a.wrapping_mul(*b);
    }
}

fn add_multiple(d: &mut [u64], k: u64, x: &[u64]) {
    for (word, from) in d.iter_mut().zip(x) {
        *word = word.wrapping_add(from.wrapping_mul(k));
    }
}

fn scan(d: &mut [u64], x: &[u64]) {
    let mut sum = 0u64;
    for (word, from) in d.iter_mut().zip(x) {
        sum = sum.wrapping_add(*from);
        *word = sum;
    }
}

fn sum(x: &[u64]) -> u64 {
    let mut sum = 0u64;
    for word in x {
        sum = sum.wrapping_add(*word);
    }
    sum
}

fn dot(x: &[u64], z: &[u64]) -> u64 {
    let mut sum = 0u64;
    for (a, b) in x.iter().zip(z) {
        sum = sum.wrapping_add(a.wrapping_mul(*b));
    }
    sum
}

fn greatest(x: &[u64]) -> u64 {
    let mut most = 0u64;
    for word in x {
        most = most.max(*word);
    }
    most
}

fn stencil(d: &mut [u64], weights: [u64; 3], x: &[u64]) {
    let [a, b, c] = weights;
    for (word, three) in d.iter_mut().zip(x.windows(3)) {
        if let [first, second, third] = *three {
            *word = a
                .wrapping_mul(first)
                .wrapping_add(b.wrapping_mul(second))
                .wrapping_add(c.wrapping_mul(third));
        }
    }
}

fn sparse(d: &mut [u64], starts: &[u64], columns: &[u64], values: &[u64], x: &[u64]) {
    for (word, ends) in d.iter_mut().zip(starts.windows(2)) {
        if let [start, end] = *ends {
            *word = row(start, end, columns, values, x);
        }
    }
}

fn row(start: u64, end: u64, columns: &[u64], values: &[u64], x: &[u64]) -> u64 {
    let count = columns.len().min(values.len()) as u64;
    let mut sum = 0u64;
    for p in start.min(count)..end.min(count) {
        let column = columns[p as usize];
        if column < x.len() as u64 {
            sum = sum.wrapping_add(values[p as usize].wrapping_mul(x[column as usize]));
        }
    }
    sum
}

/// Copies so many words there and back, so many times.
pub(crate) fn first_of_copies(alloc: Global, count: u32, turns: u32) -> Result<u64, NoMemory> {
    let mut here = vec![in alloc; 7; count as usize]?;
    let mut there = vec![in alloc; 0; count as usize]?;
    for turn in 0..turns {
        copy(&mut there, &here);
        if let Some(word) = there.first_mut() {
            *word = u64::from(turn);
        }
        copy(&mut here, &there);
    }
    Ok(here.first().copied().unwrap_or(0))
}
