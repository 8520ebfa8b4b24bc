//! Regions, places and kinds as the tokens that they are written as.
ghost use Rattle.std.specs.Prelude.{◌≡◌, ◌≤◌, ◌++◌, ◌∷◌, length, IfOk, OnOk, string_bytes, if◌then◌else◌};
ghost use Rattle.cd_tree.specs.Limits.{kinds_limit};
ghost use Rattle.cd_tokens.specs.Written.{region_token, place_token, kind_token, kinds_token};

use cd_base::Place;
use cd_tree::{Kind, KindName, Kinds, Region};
use std::alloc::{AllocError, Global};

/// The name of a region; empty where there is no such region. It takes no memory.
pub fn region_name(regions: &[Region], number: u32) -> &str
    ensures { result.now ≡ region_token regions.now number }
{
    match regions.get(number as usize) {
        None => "",
        Some(region) => region.name.as_str(),
    }
}

/// The name of a kind; empty where there is no such kind. It takes no memory.
pub fn kind_name(kinds: &[KindName], kind: Kind) -> &str
    ensures { result.now ≡ kind_token kinds.now kind }
{
    match kinds.get(kind.0 as usize) {
        None => "",
        Some(kind) => kind.name.as_str(),
    }
}

/// A place by its region's name and its index.
pub fn place_text(alloc: Global, regions: &[Region], place: Place) -> Result<String, AllocError>
    ensures { IfOk result (λ text. string_bytes text ≡ place_token regions.now place) }
{
    let name = region_name(regions, place.region);
    format!(in alloc; "{name}[{}]", place.index)
}

/// The names of the kinds of a set, joined by commas, or `none`.
pub fn kinds_text(alloc: Global, names: &[KindName], kinds: Kinds) -> Result<String, AllocError>
    requires { length names.now ≤ kinds_limit }
    ensures { IfOk result (λ text. string_bytes text ≡ kinds_token names.now kinds) }
{
    let mut text = String::new(alloc);
    add_kinds(names, kinds, &mut text)?;
    Ok(text)
}

/// Appends the names of the kinds of a set to a text, joined by commas, or `none`.
pub fn add_kinds(names: &[KindName], kinds: Kinds, text: &mut String) -> Result<(), AllocError>
    requires { length names.now ≤ kinds_limit }
    ensures { OnOk result (string_bytes text.new ≡ string_bytes text.old ++ kinds_token names.now kinds) }
{
    let mut is_empty = true;
    for (number, kind) in names.iter().enumerate() {
        if kinds.has(Kind(number as u8)) {
            add_name(kind.name.as_str(), is_empty, text)?;
            is_empty = false;
        }
    }
    if is_empty {
        text.push_str("none")?;
    }
    Ok(())
}

// Appends a name to a text, after a comma unless it is the first.
fn add_name(name: &str, is_first: bool, text: &mut String) -> Result<(), AllocError>
    ensures { OnOk result (string_bytes text.new ≡ string_bytes text.old ++ (if is_first then name.now else 44 ∷ name.now)) }
{
    if !is_first {
        text.push_str(",")?;
    }
    text.push_str(name)
}
