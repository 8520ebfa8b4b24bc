// What operations make of lists of words.
ghost use Rattle.std.specs.Prelude.{◌≡◌, ℕ, ◌+◌, ◌*◌, ◌<◌, length, max, slice_index};
ghost use Rattle.cd_base.specs.Words.{word_of};
ghost use Rattle.cd_tree.specs.Operations.{greatest, total};
ghost use Rattle.cd_kernel.specs.Computing.{paired};

/// What is made of two words: their sum, their difference, their product, or the first and a multiple of the second.
#[derive(Debug, Clone, Copy)]
pub(crate) enum Pairing {
    Plus,
    Minus,
    Times,
    Multiple(u64),
}

/// Each word becomes what is made of the words of two other lists at its index. There is a loop for each pairing, so that
/// none asks at each word which it is.
pub(crate) fn pair(pairing: Pairing, words: &mut [u64], xs: &[u64], zs: &[u64])
    requires { (length words.old ≡ length xs.now) × (length words.old ≡ length zs.now) }
    ensures { (j : ℕ) → j < length words.new → slice_index words.new j ≡ paired pairing (slice_index xs.now j) (slice_index zs.now j) }
{
    match pairing {
        Pairing::Plus => pair_each(Pairing::Plus, words, xs, zs),
        Pairing::Minus => pair_each(Pairing::Minus, words, xs, zs),
        Pairing::Times => pair_each(Pairing::Times, words, xs, zs),
        Pairing::Multiple(factor) => pair_each(Pairing::Multiple(factor), words, xs, zs),
    }
}

#[inline(always)]
fn pair_each(pairing: Pairing, words: &mut [u64], xs: &[u64], zs: &[u64])
    requires { (length words.old ≡ length xs.now) × (length words.old ≡ length zs.now) }
    ensures { (j : ℕ) → j < length words.new → slice_index words.new j ≡ paired pairing (slice_index xs.now j) (slice_index zs.now j) }
{
    for i in 0..words.len() {
        words[i] = made_of(pairing, xs[i], zs[i]);
    }
}

#[inline(always)]
fn made_of(pairing: Pairing, a: u64, b: u64) -> u64
    ensures { result ≡ paired pairing a b }
{
    match pairing {
        Pairing::Plus => a.wrapping_add(b),
        Pairing::Minus => a.wrapping_sub(b),
        Pairing::Times => a.wrapping_mul(b),
        Pairing::Multiple(factor) => a.wrapping_add(factor.wrapping_mul(b)),
    }
}

/// All words become one.
pub(crate) fn fill_with(words: &mut [u64], word: u64)
    ensures { (j : ℕ) → j < length words.new → slice_index words.new j ≡ word }
{
    words.fill(word);
}

/// A sum goes on over words.
pub(crate) fn add_all(sum: u64, words: &[u64]) -> u64
    ensures { result ≡ word_of (sum + total (slice_index words.now) (length words.now)) }
{
    let mut sum = sum;
    for i in 0..words.len() {
        sum = sum.wrapping_add(words[i]);
    }
    sum
}

/// A sum goes on over the products of the words of two lists.
pub(crate) fn add_products(sum: u64, words: &[u64], more: &[u64]) -> u64
    requires { length words.now ≡ length more.now }
    ensures { result ≡ word_of (sum + total (λ j. slice_index words.now j * slice_index more.now j) (length words.now)) }
{
    let mut sum = sum;
    for i in 0..words.len() {
        sum = sum.wrapping_add(words[i].wrapping_mul(more[i]));
    }
    sum
}

/// The greatest of a word and a list's.
pub(crate) fn greatest_with(most: u64, words: &[u64]) -> u64
    ensures { result ≡ max most (greatest (slice_index words.now) (length words.now)) }
{
    let mut most = most;
    for i in 0..words.len() {
        most = most.max(words[i]);
    }
    most
}

/// Each word becomes a sum that goes on over another list's words up to its index. Gives the last.
pub(crate) fn sum_up(sum: u64, words: &mut [u64], xs: &[u64]) -> u64
    requires { length words.old ≡ length xs.now }
    ensures each { (j : ℕ) → j < length words.new → slice_index words.new j ≡ word_of (sum + total (slice_index xs.now) (j + 1)) }
    ensures last { result ≡ word_of (sum + total (slice_index xs.now) (length xs.now)) }
{
    let mut sum = sum;
    for i in 0..words.len() {
        sum = sum.wrapping_add(xs[i]);
        words[i] = sum;
    }
    sum
}

/// Each word becomes three words of another list, from its index on, weighted.
pub(crate) fn weigh(a: u64, b: u64, c: u64, words: &mut [u64], more: &[u64])
    requires { length more.now ≡ length words.old + 2 }
    ensures { (j : ℕ) → j < length words.new → slice_index words.new j ≡ word_of (a * slice_index more.now j + b * slice_index more.now (j + 1) + c * slice_index more.now (j + 2)) }
{
    for i in 0..words.len() {
        let first = a.wrapping_mul(more[i]);
        let second = b.wrapping_mul(more[i + 1]);
        let third = c.wrapping_mul(more[i + 2]);
        words[i] = first.wrapping_add(second).wrapping_add(third);
    }
}
