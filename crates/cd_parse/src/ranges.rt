//! Regions, ranges and places by their tokens.
ghost use Rattle.std.specs.Prelude.{◌≡◌, ◌<◌, ◌^◌, ◌++◌, length, MatchOption, None, Some, decimal};
ghost use Rattle.cd_parse.specs.Ranges.{whole, region_named, base_region, numbered_region, region_in, some_words, one_place, one_word, bracketed, index_in, part_at, part_in, range_in, place_in};

use cd_base::{Place, Range};
use cd_tokens::{Variable, Wrong, both, bounds_at, expression, find, guard, is_base, is_numbered};
use cd_tree::Region;

/// Where a token is read: the variables with their values, and the regions declared so far.
#[derive(Clone, Copy)]
pub(crate) struct Scope<'a> {
    pub variables: &'a [Variable],
    pub regions: &'a [Region],
}

// All words of the region with this number.
fn whole(number: u32, region: &Region) -> Range
    ensures { result ≡ whole number region.now }
{
    Range {
        region: number,
        low: 0,
        high: region.length,
    }
}

// All words of the region with this name.
fn region_named(regions: &[Region], name: &[u8]) -> Result<Range, Wrong>
    requires { length regions.now < 2 ^ 32 }
    ensures { result ≡ region_named regions.now name.now }
{
    for (number, region) in regions.iter().enumerate() {
        if region.name.as_str().as_bytes() == name {
            return Ok(whole(number as u32, region));
        }
    }
    Err(Wrong::NoRegion)
}

// All words of the region whose name is a base and a number.
fn region_numbered(regions: &[Region], base: &[u8], number: u64) -> Result<Range, Wrong>
    requires { length regions.now < 2 ^ 32 }
    ensures { result ≡ region_named regions.now (base.now ++ decimal number) }
{
    for (at, region) in regions.iter().enumerate() {
        if is_numbered(region.name.as_str().as_bytes(), base, number) {
            return Ok(whole(at as u32, region));
        }
    }
    Err(Wrong::NoRegion)
}

impl Scope<'_> {
    // All words of the region that a token names.
    #[tactic(auto, unfolding(crate::specs::Ranges::region_in, cd_tokens::specs::Names::name))]
    fn region_in(self, token: &[u8]) -> Result<Range, Wrong>
        requires { length self.regions.now < 2 ^ 32 }
        ensures { result ≡ region_in self.entry.variables.now self.entry.regions.now token.now }
    {
        match find(token, b':') {
            None => base_region(self.regions, token),
            Some(at) => self.numbered_region(&token[..at], &token[at + 1..]),
        }
    }
}

fn base_region(regions: &[Region], token: &[u8]) -> Result<Range, Wrong>
    requires { length regions.now < 2 ^ 32 }
    ensures { result ≡ base_region regions.now token.now }
{
    guard(is_base(token), Wrong::Form)?;
    region_named(regions, token)
}

impl Scope<'_> {
    fn numbered_region(self, base: &[u8], number: &[u8]) -> Result<Range, Wrong>
        requires { length self.regions.now < 2 ^ 32 }
        ensures { result ≡ numbered_region self.entry.variables.now self.entry.regions.now base.now number.now }
    {
        let (_, number) = both(
            guard(is_base(base), Wrong::Form),
            expression(self.variables, number),
        )?;
        region_numbered(self.regions, base, number)
    }
}

// The words from `low` to below `high` of a region.
fn some_words(region: Range, low: u64, high: u64) -> Result<Range, Wrong>
    ensures { result ≡ some_words region low high }
{
    if low < high && high <= u64::from(region.high) {
        Ok(Range {
            region: region.region,
            low: low as u32,
            high: high as u32,
        })
    } else {
        Err(Wrong::Outside)
    }
}

// The word at an index of a region.
fn one_place(region: Range, index: u64) -> Result<Place, Wrong>
    ensures { result ≡ one_place region index }
{
    if index < u64::from(region.high) {
        Ok(Place {
            region: region.region,
            index: index as u32,
        })
    } else {
        Err(Wrong::Outside)
    }
}

// The range of one word of a region.
fn one_word(region: Range, index: u64) -> Result<Range, Wrong>
    ensures { result ≡ one_word region index }
{
    let place = one_place(region, index)?;
    Ok(Range {
        region: place.region,
        low: place.index,
        high: place.index + 1,
    })
}

// What stands before a `]` that ends a token.
fn bracketed(token: &[u8]) -> Option<&[u8]>
    ensures { MatchOption result (bracketed token.now ≡ None) (λ inside. bracketed token.now ≡ Some inside.now) }
{
    match find(token, b']') {
        Some(at) if at + 1 == token.len() => Some(&token[..at]),
        _ => None,
    }
}

impl Scope<'_> {
    // The word of a region with this index.
    fn index_in(self, region: &[u8], index: &[u8]) -> Result<Place, Wrong>
        requires { length self.regions.now < 2 ^ 32 }
        ensures { result ≡ index_in self.entry.variables.now self.entry.regions.now region.now (Some index.now) }
    {
        let (region, index) = both(self.region_in(region), expression(self.variables, index))?;
        one_place(region, index)
    }

    fn word_in(self, region: &[u8], index: &[u8]) -> Result<Range, Wrong>
        requires { length self.regions.now < 2 ^ 32 }
        ensures { result ≡ part_at self.entry.variables.now self.entry.regions.now region.now index.now None }
    {
        let (region, index) = both(self.region_in(region), expression(self.variables, index))?;
        one_word(region, index)
    }

    // The words of a region between two numbers, where the first dot stands at this place.
    fn words_in(self, region: &[u8], numbers: &[u8], dot: usize) -> Result<Range, Wrong>
        requires few { length self.regions.now < 2 ^ 32 }
        requires within { dot < length numbers.now }
        ensures { result ≡ part_at self.entry.variables.now self.entry.regions.now region.now numbers.now (Some dot) }
    {
        let (region, (low, high)) = both(
            self.region_in(region),
            bounds_at(self.variables, numbers, dot),
        )?;
        some_words(region, low, high)
    }

    // The words of a region that stand in brackets.
    fn part_in(self, region: &[u8], numbers: &[u8]) -> Result<Range, Wrong>
        requires { length self.regions.now < 2 ^ 32 }
        ensures { result ≡ part_in self.entry.variables.now self.entry.regions.now region.now (Some numbers.now) }
    {
        match find(numbers, b'.') {
            None => self.word_in(region, numbers),
            Some(dot) => self.words_in(region, numbers, dot),
        }
    }

    fn bracketed_part(self, region: &[u8], rest: &[u8]) -> Result<Range, Wrong>
        requires { length self.regions.now < 2 ^ 32 }
        ensures { result ≡ part_in self.entry.variables.now self.entry.regions.now region.now (bracketed rest.now) }
    {
        match bracketed(rest) {
            None => Err(Wrong::Form),
            Some(numbers) => self.part_in(region, numbers),
        }
    }

    fn bracketed_index(self, region: &[u8], rest: &[u8]) -> Result<Place, Wrong>
        requires { length self.regions.now < 2 ^ 32 }
        ensures { result ≡ index_in self.entry.variables.now self.entry.regions.now region.now (bracketed rest.now) }
    {
        match bracketed(rest) {
            None => Err(Wrong::Form),
            Some(index) => self.index_in(region, index),
        }
    }

    /// NAME, NAME[E..E] or NAME[E]. It takes no memory.
    #[tactic(auto, unfolding(crate::specs::Ranges::range_in))]
    pub(crate) fn range_in(self, token: &[u8]) -> Result<Range, Wrong>
        requires { length self.regions.now < 2 ^ 32 }
        ensures { result ≡ range_in self.entry.variables.now self.entry.regions.now token.now }
    {
        match find(token, b'[') {
            None => self.region_in(token),
            Some(at) => self.bracketed_part(&token[..at], &token[at + 1..]),
        }
    }

    /// NAME[E]. It takes no memory.
    #[tactic(auto, unfolding(crate::specs::Ranges::place_in))]
    pub(crate) fn place_in(self, token: &[u8]) -> Result<Place, Wrong>
        requires { length self.regions.now < 2 ^ 32 }
        ensures { result ≡ place_in self.entry.variables.now self.entry.regions.now token.now }
    {
        match find(token, b'[') {
            None => Err(Wrong::Form),
            Some(at) => self.bracketed_index(&token[..at], &token[at + 1..]),
        }
    }
}
