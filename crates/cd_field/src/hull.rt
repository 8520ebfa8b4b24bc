// The words of one region that a machine has, from an index on, so that a word is found by its index alone.
ghost use Rattle.std.specs.Prelude.{◌≡◌, ◌+◌, ◌-◌, ◌<◌, ◌≤◌, [], true, false, length, take, drop, replicate, slice_set, OnOk, OnErr, IfOk};
ghost use Rattle.std.specs.List.{splice};
ghost use Rattle.cd_field.specs.Hulls.{no_hull, HasIndex, HasRun, word_in, run_in, changed, run_laid, cleared, flags_cleared, run_cleared, flags_grown, run_marked};

use crate::region_words::{RegionWords, copy, lay, list, put, share};
use cd_base::NoMemory;
use std::alloc::Global;
use std::marker::Model;

// So many words are copied rather than shared: a shared list takes more memory than they do.
const FEW: usize = 64;

/// Words of a region from an index on. Where the machine's ranges leave gaps, some are words of no place of it.
#[derive(Drop)]
pub(crate) struct Hull {
    low: u32,
    words: RegionWords,
    // Whether each word is away. There are no flags before a word is, so a machine that carves nothing has none.
    away: Vec<bool>,
    alloc: Global,
}

impl Model for Hull {
    ghost use Rattle.cd_field.specs.Hulls.{HullModel};

    ghost Value = { HullModel };

    ghost use Rattle.cd_field.specs.RegionWords.{words_held};

    ghost view = { λ hull. record { low = hull.low; words = words_held hull.words; away = hull.away.items } };
}

impl Hull {
    /// No words. It takes no memory.
    pub(crate) fn empty(alloc: Global) -> Hull
        ensures { result ≡ no_hull }
    {
        Hull {
            low: 0,
            words: RegionWords::Own(Vec::new(alloc)),
            away: Vec::new(alloc),
            alloc,
        }
    }

    /// These words, none of them away.
    pub(crate) fn of(alloc: Global, low: u32, words: Vec<u64>) -> Hull
        ensures { result ≡ record { low = low; words = words.items; away = [] } }
    {
        Hull {
            low,
            words: RegionWords::Own(words),
            away: Vec::new(alloc),
            alloc,
        }
    }

    #[inline(always)]
    pub(crate) fn word(&self, index: u32) -> u64
        requires { HasIndex self.now index }
        ensures { result ≡ word_in self.now index }
    {
        list(&self.words)[(index - self.low) as usize]
    }

    #[inline(always)]
    pub(crate) fn set(&mut self, index: u32, word: u64)
        requires { HasIndex self.old index }
        ensures { self.new ≡ changed self.old index word }
    {
        let i = (index - self.low) as usize;
        put(&mut self.words, self.alloc, i, word);
    }

    /// The words from one index to below another.
    #[inline(always)]
    pub(crate) fn run(&self, low: u32, high: u32) -> &[u64]
        requires { HasRun self.now low high }
        ensures { result.now ≡ run_in self.now low high }
    {
        let first = (low - self.low) as usize;
        items(list(&self.words), first, (high - low) as usize)
    }

    /// Changes the words from an index on to those of a list.
    #[inline(always)]
    pub(crate) fn lay(&mut self, low: u32, run: &[u64])
        requires { HasRun self.old low (low + length run.now) }
        ensures { self.new ≡ run_laid self.old low run.now }
    {
        let first = (low - self.low) as usize;
        lay(&mut self.words, self.alloc, first, run);
    }

    /// A word is here.
    #[inline(always)]
    pub(crate) fn clear(&mut self, index: u32)
        requires { HasIndex self.old index }
        ensures { self.new ≡ cleared self.old index }
    {
        let i = (index - self.low) as usize;
        clear_one(&mut self.away, i);
    }

    /// The words from one index to below another are here.
    pub(crate) fn clear_run(&mut self, low: u32, high: u32)
        requires { HasRun self.old low high }
        ensures { self.new ≡ run_cleared self.old low high }
    {
        let from = (low - self.low) as usize;
        let to = (high - self.low) as usize;
        clear(&mut self.away, from, to);
    }

    /// The words from one index to below another for another machine. They are shared as long as neither changes them; few
    /// words are copied at once.
    pub(crate) fn part(&mut self, low: u32, high: u32) -> Result<Hull, NoMemory>
        requires { HasRun self.old low high }
        ensures part { IfOk result (λ part. part ≡ record { low = low; words = run_in self.old low high; away = [] }) }
        ensures same { self.new ≡ self.old }
    {
        let first = (low - self.low) as usize;
        let count = (high - low) as usize;
        let words = if count <= FEW {
            copy(&self.words, self.alloc, first, count)?
        } else {
            share(&mut self.words, self.alloc, first, count)?
        };
        Ok(Hull {
            low,
            words,
            away: Vec::new(self.alloc),
            alloc: self.alloc,
        })
    }

    /// The words from one index to below another are away.
    pub(crate) fn mark_run(&mut self, low: u32, high: u32) -> Result<(), NoMemory>
        requires { HasRun self.old low high }
        ensures marked { OnOk result (self.new ≡ run_marked self.old low high) }
        ensures unchanged { OnErr result (self.new ≡ self.old) }
    {
        let first = (low - self.low) as usize;
        grow(&mut self.away, list(&self.words).len())?;
        fill(&mut self.away, first, (high - low) as usize, true);
        Ok(())
    }
}

// So many words from one on.
#[inline(always)]
fn items(words: &[u64], first: usize, count: usize) -> &[u64]
    requires { first + count ≤ length words.now }
    ensures { result.now ≡ take count (drop first words.now) }
{
    &words[first..first + count]
}

// So many flags from one on become the same.
fn fill(away: &mut Vec<bool>, first: usize, count: usize, lost: bool)
    requires { first + count ≤ length away.old.items }
    ensures { away.new.items ≡ splice away.old.items first (first + count) (replicate count lost) }
{
    away[first..first + count].fill(lost);
}

// A flag is taken back, where there is one.
#[inline(always)]
fn clear_one(away: &mut Vec<bool>, i: usize)
    ensures { away.new.items ≡ slice_set away.old.items i false }
{
    if i < away.len() {
        away[i] = false;
    }
}

// Flags are taken back, as far as there are any.
fn clear(away: &mut Vec<bool>, from: usize, to: usize)
    ensures { away.new.items ≡ flags_cleared away.old.items from to }
{
    let end = to.min(away.len());
    if from < end {
        fill(away, from, end - from, false);
    }
}

// There are at least so many flags.
fn grow(away: &mut Vec<bool>, count: usize) -> Result<(), NoMemory>
    ensures grown { OnOk result (away.new.items ≡ flags_grown away.old.items count) }
    ensures unchanged { OnErr result (away.new.items ≡ away.old.items) }
{
    if away.len() < count {
        away.resize(count, false)?;
    }
    Ok(())
}
