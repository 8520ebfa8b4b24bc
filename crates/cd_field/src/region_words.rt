// The words of a hull: its own, or some of those of the machine that it was carved from, as long as none of them changes.
ghost use Rattle.std.specs.Prelude.{◌≡◌, ◌+◌, ◌<◌, ◌≤◌, true, false, length, take, drop, slice_set, vec_len, vec_capacity, IfOk, OnOk};
ghost use Rattle.std.specs.Arc.{arc_value};
ghost use Rattle.std.specs.List.{splice};
ghost use Rattle.cd_field.specs.RegionWords.{words_held, are_own};

use crate::shared_words::{SharedWords, copy_of, shared_list};
use cd_base::NoMemory;
use std::alloc::Global;
use std::mem;
use std::sync::Arc;

#[derive(Drop)]
pub(crate) enum RegionWords {
    Own(Vec<u64>),
    Shared(SharedWords),
}

/// The words.
#[inline(always)]
pub(crate) fn list(words: &RegionWords) -> &[u64]
    ensures { result.now ≡ words_held words.now }
{
    match words {
        RegionWords::Own(list) => list.as_slice(),
        RegionWords::Shared(shared) => shared_list(shared),
    }
}

/// Makes the words the hull's own. It takes no memory.
pub(crate) fn make_own(words: &mut RegionWords, alloc: Global)
    ensures same { words_held words.new ≡ words_held words.old }
    ensures own { are_own words.new ≡ true }
{
    let taken = mem::replace(words, RegionWords::Own(Vec::new(alloc)));
    *words = RegionWords::Own(own_list(taken));
}

fn own_list(words: RegionWords) -> Vec<u64>
    ensures { result.items ≡ words_held words }
{
    match words {
        RegionWords::Own(list) => list,
        RegionWords::Shared(shared) => copy_of(shared),
    }
}

/// A copy of some of the words.
pub(crate) fn copy(
    words: &RegionWords,
    alloc: Global,
    first: usize,
    count: usize,
) -> Result<RegionWords, NoMemory>
    requires { first + count ≤ length (words_held words.now) }
    ensures { IfOk result (λ part. words_held part ≡ take count (drop first (words_held words.now))) }
{
    let own = list(words)[first..first + count].to_vec(alloc)?;
    Ok(RegionWords::Own(own))
}

/// Some of the words for another machine, with room for a copy.
pub(crate) fn share(
    words: &mut RegionWords,
    alloc: Global,
    first: usize,
    count: usize,
) -> Result<RegionWords, NoMemory>
    requires { first + count ≤ length (words_held words.old) }
    ensures part { IfOk result (λ part. words_held part ≡ take count (drop first (words_held words.old))) }
    ensures same { words_held words.new ≡ words_held words.old }
{
    close(words, alloc)?;
    match words {
        RegionWords::Shared(shared) => {
            let part = part_of(shared, alloc, first, count)?;
            Ok(RegionWords::Shared(part))
        }
        RegionWords::Own(_) => unreachable!(),
    }
}

// A part of words that are shared.
fn part_of(
    shared: &SharedWords,
    alloc: Global,
    first: usize,
    count: usize,
) -> Result<SharedWords, NoMemory>
    requires { first + count ≤ shared.now.count }
    ensures { IfOk result (λ part. take part.count (drop part.first (arc_value part.all).items) ≡ take count (drop first (take shared.now.count (drop shared.now.first (arc_value shared.now.all).items)))) }
{
    let room = room_for(alloc, count)?;
    let all = Arc::try_clone(&shared.all)?;
    Ok(SharedWords {
        all,
        first: shared.first + first,
        count,
        room,
    })
}

// Room for so many words, none of which is touched.
fn room_for(alloc: Global, count: usize) -> Result<Vec<u64>, NoMemory>
    ensures empty { IfOk result (λ room. vec_len room ≡ 0) }
    ensures enough { IfOk result (λ room. count ≤ vec_capacity room) }
{
    let room = Vec::with_capacity(alloc, count)?;
    Ok(room)
}

// From now on the words may be shared. Where there is no memory for it they stay as they are.
fn close(words: &mut RegionWords, alloc: Global) -> Result<(), NoMemory>
    ensures same { words_held words.new ≡ words_held words.old }
    ensures shared { OnOk result (are_own words.new ≡ false) }
{
    if let RegionWords::Own(list) = words {
        let count = list.len();
        let room = room_for(alloc, count)?;
        let own = mem::replace(list, Vec::new(alloc));
        match Arc::new(alloc, own) {
            Ok(all) => {
                *words = RegionWords::Shared(SharedWords {
                    all,
                    first: 0,
                    count,
                    room,
                });
            }
            Err(failed) => {
                *list = failed.value;
                return Err(NoMemory);
            }
        }
    }
    Ok(())
}

/// Changes a word.
#[inline(always)]
pub(crate) fn put(words: &mut RegionWords, alloc: Global, i: usize, word: u64)
    requires { i < length (words_held words.old) }
    ensures { words_held words.new ≡ slice_set (words_held words.old) i word }
{
    if let RegionWords::Own(list) = words {
        list[i] = word;
    } else {
        put_shared(words, alloc, i, word);
    }
}

// The same where the words are shared. The word that stands there already changes nothing.
#[cold]
#[inline(never)]
fn put_shared(words: &mut RegionWords, alloc: Global, i: usize, word: u64)
    requires { i < length (words_held words.old) }
    ensures { words_held words.new ≡ slice_set (words_held words.old) i word }
{
    if list(words)[i] != word {
        make_own(words, alloc);
        put_own(words, i, word);
    }
}

fn put_own(words: &mut RegionWords, i: usize, word: u64)
    requires own { are_own words.old ≡ true }
    requires within { i < length (words_held words.old) }
    ensures { words_held words.new ≡ slice_set (words_held words.old) i word }
{
    match words {
        RegionWords::Own(list) => list[i] = word,
        RegionWords::Shared(_) => unreachable!(),
    }
}

/// Changes the words from one on.
#[inline(always)]
pub(crate) fn lay(words: &mut RegionWords, alloc: Global, first: usize, run: &[u64])
    requires { first + length run.now ≤ length (words_held words.old) }
    ensures { words_held words.new ≡ splice (words_held words.old) first (first + length run.now) run.now }
{
    if let RegionWords::Own(list) = words {
        lay_over(list, first, run);
    } else {
        lay_shared(words, alloc, first, run);
    }
}

#[cold]
#[inline(never)]
fn lay_shared(words: &mut RegionWords, alloc: Global, first: usize, run: &[u64])
    requires { first + length run.now ≤ length (words_held words.old) }
    ensures { words_held words.new ≡ splice (words_held words.old) first (first + length run.now) run.now }
{
    if !has_run(list(words), first, run) {
        make_own(words, alloc);
        lay_own(words, first, run);
    }
}

// Whether these words stand there already.
fn has_run(words: &[u64], first: usize, run: &[u64]) -> bool
    requires { first + length run.now ≤ length words.now }
    ensures { result ≡ true → take (length run.now) (drop first words.now) ≡ run.now }
{
    &words[first..first + run.len()] == run
}

fn lay_own(words: &mut RegionWords, first: usize, run: &[u64])
    requires own { are_own words.old ≡ true }
    requires within { first + length run.now ≤ length (words_held words.old) }
    ensures { words_held words.new ≡ splice (words_held words.old) first (first + length run.now) run.now }
{
    match words {
        RegionWords::Own(list) => lay_over(list, first, run),
        RegionWords::Shared(_) => unreachable!(),
    }
}

// Words laid over others from one on.
#[inline(always)]
fn lay_over(words: &mut Vec<u64>, first: usize, run: &[u64])
    requires { first + length run.now ≤ length words.old.items }
    ensures { words.new.items ≡ splice words.old.items first (first + length run.now) run.now }
{
    let end = first + run.len();
    words[first..end].copy_from_slice(run);
}
