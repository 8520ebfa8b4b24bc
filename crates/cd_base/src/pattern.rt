//! Patterns: the rules that give a region its first words.
ghost use Rattle.std.specs.Prelude.{◌≡◌};
ghost use Rattle.cd_base.specs.Words.{pattern_word};

/// A rule that gives a word for each index of a region, modulo 2^64.
#[derive(Debug, Clone, Copy, PartialEq, Eq)]
pub enum Pattern {
    /// The same word everywhere.
    Const(u64),
    /// A first word and the step from each word to the next.
    Iota(u64, u64),
    /// Words that look random: one step of a linear congruential generator from the seed plus the index.
    Mix(u64),
}

impl Pattern {
    /// The word at an index of a region. It takes no memory.
    pub fn at(&self, index: u32) -> u64
        ensures { result ≡ pattern_word self.now index }
    {
        let index = u64::from(index);
        match *self {
            Pattern::Const(word) => word,
            Pattern::Iota(first, step) => first.wrapping_add(step.wrapping_mul(index)),
            Pattern::Mix(seed) => seed
                .wrapping_add(index)
                .wrapping_mul(6364136223846793005)
                .wrapping_add(1442695040888963407),
        }
    }
}
