// The lines of events, as the record of a run has them.
ghost use Rattle.std.specs.Prelude.{◌≡◌, ◌≤◌, ◌++◌, length, codes, decimal, OnOk, IfOk, string_bytes};
ghost use Rattle.cd_tree.specs.Limits.{kinds_limit};
ghost use Rattle.cd_tree.specs.declared.event.Event.TheVariants.{Fell, Lapsed};
ghost use Rattle.cd_tokens.specs.Written.{kinds_token};
ghost use Rattle.cd_report.specs.Texts.{line};
ghost use Rattle.cd_report.specs.Records.{kept_text, event_line};

use cd_base::Place;
use cd_tokens::{kinds_text, place_text};
use cd_tree::{Event, Kept, KindName, Kinds, NodeId, Region};
use std::alloc::{AllocError, Global};

/// Puts the line of an event behind a text.
pub fn add_event(
    alloc: Global,
    kinds: &[KindName],
    regions: &[Region],
    event: Event,
    text: &mut String,
) -> Result<(), AllocError>
    requires { length kinds.now ≤ kinds_limit }
    ensures { OnOk result (string_bytes text.new ≡ string_bytes text.old ++ event_line kinds.now regions.now event) }
{
    match event {
        Event::Begin { node, number } => add_numbered(text, "begin", node, number)?,
        Event::Saved { node, entry, how } => add_saved(text, node, entry, how)?,
        Event::Fell {
            node,
            entry,
            place,
            wanted,
            found,
        } => text.push_str(&fell(alloc, regions, node, entry, place, wanted, found)?)?,
        Event::Lapsed {
            node,
            entry,
            seen,
            found,
        } => text.push_str(&lapsed(alloc, node, entry, seen, found)?)?,
        Event::Refilled { node, entry } => add_numbered(text, "refilled", node, u64::from(entry))?,
        Event::Reached { node, point } => add_numbered(text, "reached", node, u64::from(point))?,
        Event::Halted { node, kinds: found } => add_named(
            alloc, text, "halted", node, kinds, found,
        )?,
        Event::Found { node, kinds: found } => add_named(alloc, text, "found", node, kinds, found)?,
        Event::Complete { node } => add_ended(text, "complete", node)?,
        Event::Escalate { node } => add_ended(text, "escalate", node)?,
    }
    Ok(())
}

/// A line of a word, a domain and a number.
fn add_numbered(text: &mut String, word: &str, node: NodeId, number: u64) -> Result<(), AllocError>
    ensures { OnOk result (string_bytes text.new ≡ string_bytes text.old ++ line (word.now ++ codes " " ++ decimal node.0 ++ codes " " ++ decimal number)) }
{
    write!(text, "{word} {} {number}\n", node.0)?;
    Ok(())
}

/// A line of a word and a domain.
fn add_ended(text: &mut String, word: &str, node: NodeId) -> Result<(), AllocError>
    ensures { OnOk result (string_bytes text.new ≡ string_bytes text.old ++ line (word.now ++ codes " " ++ decimal node.0)) }
{
    write!(text, "{word} {}\n", node.0)?;
    Ok(())
}

/// A line of a word, a domain and the names of the kinds of a set.
fn add_named(
    alloc: Global,
    text: &mut String,
    word: &str,
    node: NodeId,
    names: &[KindName],
    kinds: Kinds,
) -> Result<(), AllocError>
    requires { length names.now ≤ kinds_limit }
    ensures { OnOk result (string_bytes text.new ≡ string_bytes text.old ++ line (word.now ++ codes " " ++ decimal node.0 ++ codes " " ++ kinds_token names.now kinds)) }
{
    let kinds = kinds_text(alloc, names, kinds)?;
    write!(text, "{word} {} {kinds}\n", node.0)?;
    Ok(())
}

/// The line of an entry that was preserved.
fn add_saved(text: &mut String, node: NodeId, entry: u32, how: Kept) -> Result<(), AllocError>
    ensures { OnOk result (string_bytes text.new ≡ string_bytes text.old ++ line (codes "saved " ++ decimal node.0 ++ codes " " ++ decimal entry ++ codes " " ++ kept_text how)) }
{
    let how = kept_text(how);
    write!(text, "saved {} {entry} {how}\n", node.0)?;
    Ok(())
}

/// The line of an entry whose pattern does not give its words.
fn fell(
    alloc: Global,
    regions: &[Region],
    node: NodeId,
    entry: u32,
    place: Place,
    wanted: u64,
    found: u64,
) -> Result<String, AllocError>
    ensures { IfOk result (λ text. (kinds : _) → string_bytes text ≡ event_line kinds regions.now (Fell node entry place wanted found)) }
{
    let token = place_text(alloc, regions, place)?;
    format!(in alloc;
        "fell {} {entry} {token} wanted {wanted} found {found}\n",
        node.0
    )
}

/// The line of a shared copy that was gone.
fn lapsed(
    alloc: Global,
    node: NodeId,
    entry: u32,
    seen: u64,
    found: u64,
) -> Result<String, AllocError>
    ensures { IfOk result (λ text. (kinds : _) (regions : _) → string_bytes text ≡ event_line kinds regions (Lapsed node entry seen found)) }
{
    format!(in alloc; "lapsed {} {entry} seen {seen} found {found}\n", node.0)
}

/// How an entry was preserved.
fn kept_text(how: Kept) -> &'static str
    ensures { result.now ≡ kept_text how }
{
    match how {
        Kept::Copy => "copy",
        Kept::Refer => "refer",
        Kept::Regen => "regen",
    }
}
