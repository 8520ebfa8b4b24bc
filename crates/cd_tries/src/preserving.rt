// The first try of a domain preserves its entries, each as it is declared.
ghost use Rattle.std.specs.Prelude.{◌≡◌, ◌≢◌, ◌+◌, ◌≤◌, ◌∷◌, [], Option, Some, IfOk, IsSome, IsSomeAnd, OnOk, slice_get};
ghost use Rattle.std.specs.Option.{option_copied};
ghost use Rattle.cd_tree.specs.declared.domain.How.TheVariants.{Refer, Regen};
ghost use Rattle.cd_tree.specs.declared.event.Kept.TheVariants as kept_as;
ghost use Rattle.cd_tree.specs.declared.event.Event.TheVariants.{Lapsed, Saved};
ghost use Rattle.cd_tree.specs.Legal.{entry_at};
ghost use Rattle.cd_tree.specs.Meaning.{blocks_of, entry_need};
ghost use Rattle.cd_tree.specs.Operations.{IsFull};
ghost use Rattle.cd_field.specs.FieldModel.{ArePresent, told};
ghost use Rattle.cd_tries.specs.declared.keep.Pieces.{Pieces as Link};
ghost use Rattle.cd_tries.specs.Fitting.{CanPreserve};
ghost use Rattle.cd_tries.specs.Keeping.{Cover, linked};
ghost use Rattle.cd_tries.specs.Preserving.{IsCopy, IsPreserved, IsSaved, links_for, spot};

use crate::copying::copy_range;
use crate::patterns::first_other;
use crate::sharing::{pieces_met, share_all};
use crate::{Keep, Level, Pieces, Shelf};
use cd_base::{Items, NoMemory, Pattern, Range};
use cd_cover::Plan;
use cd_field::Field;
use cd_keep::{GoneNote, Pass};
use cd_tree::{Domain, Entry, How, Kept, NodeId};
use std::alloc::Global;
use std::sync::Wait;

/// Preserves the entries of a domain, in order: a copy of the words, the pieces of the link that meet the range, or nothing
/// where a pattern gives the words. Where a piece was gone, or the pattern gives other words, the words are copied.
pub fn preserve<F: Field, P: Pass, R: Wait>(
    rt: &R,
    alloc: Global,
    plan: &Plan,
    node: NodeId,
    domain: &Domain,
    above: &[Level],
    field: &mut F,
    pass: &mut P,
) -> Result<Shelf, NoMemory>
    requires domain { slice_get plan.now.tree.domains node.0 ≡ Some domain.now }
    requires here { (F.model field.old).node ≡ node }
    requires can { CanPreserve domain.now (links_for plan.now.tree.domains node above.now) (F.model field.old) (P.model pass.old) }
    ensures { IfOk result (λ keeps. IsPreserved node domain.now (links_for plan.now.tree.domains node above.now) keeps (F.model field.old) (F.model field.new) (P.model pass.old) (P.model pass.new)) }
{
    let mut keeps = Items::new(alloc);
    for (number, entry) in domain.entries.items().iter().enumerate() {
        let at = number as u32;
        let link = link_for(plan, node, at, above);
        let keep = preserve_entry(rt, alloc, at, *entry, link, field, pass)?;
        keeps.push(keep)?;
    }
    Shelf::of(alloc, keeps)
}

// The pieces of the link of an entry.
fn link_for<'a>(plan: &Plan, node: NodeId, at: u32, above: &'a [Level]) -> Option<&'a Pieces>
    requires { IsSome (entry_at plan.now.tree.domains node at) }
    ensures { option_copied result ≡ links_for plan.now.tree.domains node above.now at }
{
    let (up, entry) = plan.link(node, at)?;
    linked(above, up, entry)
}

// The pieces of an entry of a domain above.
fn linked(above: &[Level], up: NodeId, entry: u32) -> Option<&Pieces>
    ensures { option_copied result ≡ linked above.now (up, entry) }
{
    for level in above {
        if level.node == up {
            return level.keeps.pieces_at(entry);
        }
    }
    None
}

/// Preserves one entry as it is declared, with the pieces of its link, and tells the machine of it.
pub fn preserve_entry<F: Field, P: Pass, R: Wait>(
    rt: &R,
    alloc: Global,
    at: u32,
    entry: Entry,
    link: Option<&Pieces>,
    field: &mut F,
    pass: &mut P,
) -> Result<Keep, NoMemory>
    requires full { IsFull entry.range }
    requires present { ArePresent (F.model field.old) (entry.range ∷ []) }
    requires room { entry_need entry ≤ (P.model pass.old).room }
    requires covers { entry.how ≡ Refer → IsSomeAnd (option_copied link) (λ pieces. Cover (P.model pass.old).known pieces entry.range) }
    ensures { IfOk result (λ keep. IsSaved (spot (F.model field.old) at entry.range (option_copied link.entry)) entry.how keep (F.model field.old) (F.model field.new) (P.model pass.old) (P.model pass.new)) }
{
    match entry.how {
        How::Copy => {
            let pieces = save_copy(rt, alloc, at, entry.range, field, pass)?;
            Ok(Keep::Copied(pieces))
        }
        How::Refer => match link {
            Some(link) => save_reference(rt, alloc, at, entry.range, link, field, pass),
            None => unreachable!(),
        },
        How::Regen(pattern) => save_pattern(rt, alloc, at, entry.range, pattern, field, pass),
    }
}

// Copies the words of an entry, and tells the machine of it.
fn save_copy<F: Field, P: Pass, R: Wait>(
    rt: &R,
    alloc: Global,
    at: u32,
    range: Range,
    field: &mut F,
    pass: &mut P,
) -> Result<Pieces, NoMemory>
    requires full { IsFull range }
    requires present { ArePresent (F.model field.old) (range ∷ []) }
    requires room { blocks_of range ≤ (P.model pass.old).room }
    ensures copy { IfOk result (λ pieces. IsCopy (F.model field.old).words range pieces (P.model pass.old) (P.model pass.new)) }
    ensures told { OnOk result (F.model field.new ≡ told (F.model field.old) (Saved (F.model field.old).node at kept_as.Copy)) }
{
    let pieces = copy_range(rt, alloc, range, field, pass)?;
    field.saved(at, Kept::Copy)?;
    Ok(pieces)
}

// Shares the pieces of the link that meet an entry's range; or copies the words, where one is gone.
fn save_reference<F: Field, P: Pass, R: Wait>(
    rt: &R,
    alloc: Global,
    at: u32,
    range: Range,
    link: &Pieces,
    field: &mut F,
    pass: &mut P,
) -> Result<Keep, NoMemory>
    requires full { IsFull range }
    requires present { ArePresent (F.model field.old) (range ∷ []) }
    requires room { blocks_of range + 1 ≤ (P.model pass.old).room }
    requires covers { Cover (P.model pass.old).known link.now range }
    ensures { IfOk result (λ keep. IsSaved (spot (F.model field.old) at range (Some link.now)) Refer keep (F.model field.old) (F.model field.new) (P.model pass.old) (P.model pass.new)) }
{
    let pieces = pieces_met(alloc, link, range)?;
    match share_all(pieces.ids.items(), pass) {
        Ok(()) => {
            field.saved(at, Kept::Refer)?;
            Ok(Keep::Shared(pieces))
        }
        Err(note) => {
            tell_lapse(at, note, field)?;
            let pieces = save_copy(rt, alloc, at, range, field, pass)?;
            Ok(Keep::Copied(pieces))
        }
    }
}

// Tells the machine that a piece of the link was gone.
fn tell_lapse<F: Field>(at: u32, note: GoneNote, field: &mut F) -> Result<(), NoMemory>
    ensures told { OnOk result (F.model field.new ≡ told (F.model field.old) (Lapsed (F.model field.old).node at note.seen note.found)) }
    ensures differ { note.seen ≢ note.found }
{
    field.lapsed(at, note.seen(), note.found())
}

// Keeps an entry by its pattern, where it gives the words; or copies these.
fn save_pattern<F: Field, P: Pass, R: Wait>(
    rt: &R,
    alloc: Global,
    at: u32,
    range: Range,
    pattern: Pattern,
    field: &mut F,
    pass: &mut P,
) -> Result<Keep, NoMemory>
    requires full { IsFull range }
    requires present { ArePresent (F.model field.old) (range ∷ []) }
    requires room { blocks_of range ≤ (P.model pass.old).room }
    ensures { IfOk result (λ keep. (link : Option Link) → IsSaved (spot (F.model field.old) at range link) (Regen pattern) keep (F.model field.old) (F.model field.new) (P.model pass.old) (P.model pass.new)) }
{
    match first_other(range, pattern, field) {
        None => {
            field.saved(at, Kept::Regen)?;
            Ok(Keep::Pattern)
        }
        Some((place, _)) => {
            field.fell(at, place, pattern.at(place.index))?;
            let pieces = save_copy(rt, alloc, at, range, field, pass)?;
            Ok(Keep::Copied(pieces))
        }
    }
}
