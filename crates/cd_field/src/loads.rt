// The words that a pattern begins a region with.
ghost use Rattle.std.specs.Prelude.{◌≡◌, ◌<◌, length, get_or, IfOk};
ghost use Rattle.cd_base.specs.Words.{pattern_word};

use cd_base::{NoMemory, Pattern};
use std::alloc::Global;

/// So many words of a pattern, from its first on.
pub(crate) fn first_words(alloc: Global, pattern: Pattern, count: u32) -> Result<Vec<u64>, NoMemory>
    ensures { IfOk result (λ words. (length words.items ≡ count) × ((k : _) → k < count → get_or words.items k 0 ≡ pattern_word pattern k)) }
{
    let mut words = Vec::with_capacity(alloc, count as usize)?;
    for index in 0..count {
        words.push_reserved(pattern.at(index));
    }
    Ok(words)
}
