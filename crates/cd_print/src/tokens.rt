//! The tokens that statements are made of.
ghost use Rattle.std.specs.Prelude.{◌≡◌, ◌++◌, OnOk, string_bytes, codes};
ghost use Rattle.cd_tokens.specs.Written.{place_token};
ghost use Rattle.cd_print.specs.Canonical.{line, range_token, how_tokens, pattern_tokens};

use crate::printer::Printer;
use cd_base::{Pattern, Place, Range};
use cd_tokens::region_name;
use cd_tree::How;
use std::alloc::AllocError;
use std::fmt::Write;

impl Printer<'_> {
    /// Appends a range by its region's name and its bounds to a text.
    pub fn add_range(&self, range: Range, text: &mut String) -> Result<(), AllocError>
        ensures { OnOk result (string_bytes text.new ≡ string_bytes text.old ++ range_token self.now.document.now.regions range) }
    {
        let name = region_name(self.document.regions.items(), range.region);
        write!(text, "{name}[{}..{}]", range.low, range.high)
    }

    /// Appends a place by its region's name and its index to a text.
    pub fn add_place(&self, place: Place, text: &mut String) -> Result<(), AllocError>
        ensures { OnOk result (string_bytes text.new ≡ string_bytes text.old ++ place_token self.now.document.now.regions place) }
    {
        let name = region_name(self.document.regions.items(), place.region);
        write!(text, "{name}[{}]", place.index)
    }
}

/// Appends the tokens of a pattern to a text, as the end of a line with its line feed.
pub fn add_pattern(pattern: Pattern, text: &mut String) -> Result<(), AllocError>
    ensures { OnOk result (string_bytes text.new ≡ string_bytes text.old ++ line (pattern_tokens pattern)) }
{
    match pattern {
        Pattern::Const(word) => write!(text, "const {word}\n"),
        Pattern::Iota(first, step) => write!(text, "iota {first} {step}\n"),
        Pattern::Mix(seed) => write!(text, "mix {seed}\n"),
    }
}

/// Appends the tokens that say how an entry is preserved to a text, as the end of a line with its line feed.
pub fn add_how(how: How, text: &mut String) -> Result<(), AllocError>
    ensures { OnOk result (string_bytes text.new ≡ string_bytes text.old ++ line (how_tokens how)) }
{
    match how {
        How::Copy => text.push_str("copy\n"),
        How::Refer => text.push_str("refer\n"),
        How::Regen(pattern) => add_regen(pattern, text),
    }
}

fn add_regen(pattern: Pattern, text: &mut String) -> Result<(), AllocError>
    ensures { OnOk result (string_bytes text.new ≡ string_bytes text.old ++ (codes "regen " ++ line (pattern_tokens pattern))) }
{
    text.push_str("regen ")?;
    add_pattern(pattern, text)
}
