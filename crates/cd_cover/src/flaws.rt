// What is refused of a domain, of its entries, and of all domains.
ghost use Rattle.std.specs.Prelude.{◌≡◌, ◌<◌, ◌^◌, length, map, IfOk, IsSomeAnd};
ghost use Rattle.cd_base.specs.Places.{IsLeast, in_second_alone};
ghost use Rattle.cd_tree.specs.Domains.{node_of, nodes_from};
ghost use Rattle.cd_tree.specs.Meaning.{uncovered};
ghost use Rattle.cd_tree.specs.Refusals.{FirstOf, numbered};
ghost use Rattle.cd_cover.specs.Links.{frames_of};
ghost use Rattle.cd_cover.specs.Programs.{HasFeet};
ghost use Rattle.cd_cover.specs.Checks.{CoverageOf, ReferenceOf, EntryOf, NumberedEntryOf, DomainOf};

use crate::links::link_of_range;
use crate::program::Program;
use crate::written::first_on_the_way;
use cd_base::{NoMemory, Place, Places, Range};
use cd_tree::{Entry, How, NodeId, Refusal};
use std::alloc::Global;

// The ranges of entries.
fn ranges_of(alloc: Global, entries: &[Entry]) -> Result<Vec<Range>, NoMemory>
    ensures { IfOk result (λ ranges. ranges.items ≡ map (λ entry. entry.range) entries.now) }
{
    let ranges: Vec<Range> = entries.iter().map(|entry| entry.range).collect(alloc)?;
    Ok(ranges)
}

// The least place that a domain's body touches and its entries leave out.
fn first_uncovered(
    alloc: Global,
    program: &Program,
    node: NodeId,
) -> Result<Option<Place>, NoMemory>
    requires program { HasFeet program.now }
    requires node { node.0 < length program.now.tree.now.domains }
    ensures { IfOk result (λ found. IsSomeAnd (node_of program.now.tree.now.domains node) (λ d. IsLeast (uncovered d) found)) }
{
    cd_tree::laws::the_nested_view_follows_the_list();
    let mut ranges = ranges_of(alloc, program.tree.node(node).entries.items())?;
    let preserved = Places::sorting(alloc, ranges.as_mut_slice())?;
    Ok(first_left_out(&preserved, program.feet.reach(node)))
}

// The least place that is reached and not preserved.
fn first_left_out(preserved: &Places, reached: &Places) -> Option<Place>
    ensures { IsLeast (in_second_alone preserved.now reached.now) result }
{
    preserved.lacks(reached)
}

// What a domain's entries leave out, as a refusal.
fn coverage_flaw(
    alloc: Global,
    program: &Program,
    node: NodeId,
) -> Result<Option<Refusal>, NoMemory>
    requires program { HasFeet program.now }
    requires node { node.0 < length program.now.tree.now.domains }
    ensures { IfOk result (λ answer. IsSomeAnd (node_of program.now.tree.now.domains node) (λ d. CoverageOf d answer)) }
{
    match first_uncovered(alloc, program, node)? {
        None => Ok(None),
        Some(place) => Ok(Some(Refusal::Uncovered(node, place))),
    }
}

// The refusal of a reference: it has no link, or is stale.
fn reference_flaw(program: &Program, node: NodeId, at: u32, range: Range) -> Option<Refusal>
    requires program { HasFeet program.now }
    requires node { node.0 < length program.now.tree.now.domains }
    ensures { ReferenceOf node (frames_of program.now.tree.now.domains node) at range result }
{
    match link_of_range(program.tree, node, range) {
        None => Some(Refusal::NoTarget(node, at)),
        Some(_) => match first_on_the_way(program, node, range, range) {
            None => None,
            Some(place) => Some(Refusal::Stale(node, at, place)),
        },
    }
}

// The refusal of an entry, which only a reference can have.
fn entry_flaw(program: &Program, node: NodeId, at: u32, entry: Entry) -> Option<Refusal>
    requires program { HasFeet program.now }
    requires node { node.0 < length program.now.tree.now.domains }
    ensures { EntryOf node (frames_of program.now.tree.now.domains node) at entry.range entry.how result }
{
    match entry.how {
        How::Copy | How::Regen(_) => None,
        How::Refer => reference_flaw(program, node, at, entry.range),
    }
}

// The first refusal among entries.
fn entries_flaw(program: &Program, node: NodeId, entries: &[Entry]) -> Option<Refusal>
    requires program { HasFeet program.now }
    requires node { node.0 < length program.now.tree.now.domains }
    requires few { length entries.now < 2 ^ 32 }
    ensures { FirstOf (NumberedEntryOf node (frames_of program.now.tree.now.domains node)) (numbered 0 entries.now) result }
{
    for at in 0..entries.len() as u32 {
        let flaw = entry_flaw(program, node, at, entries[at as usize]);
        if flaw.is_some() {
            return flaw;
        }
    }
    None
}

// The first refusal of a domain.
fn domain_flaw(alloc: Global, program: &Program, node: NodeId) -> Result<Option<Refusal>, NoMemory>
    requires program { HasFeet program.now }
    requires node { node.0 < length program.now.tree.now.domains }
    ensures { IfOk result (λ answer. IsSomeAnd (node_of program.now.tree.now.domains node) (λ d. DomainOf program.now.tree.now.domains d answer)) }
{
    cd_tree::laws::the_nested_view_follows_the_list();
    let entries = program.tree.node(node).entries.items();
    match coverage_flaw(alloc, program, node)? {
        None => Ok(entries_flaw(program, node, entries)),
        Some(flaw) => Ok(Some(flaw)),
    }
}

// The first refusal of all domains in preorder.
pub(crate) fn first_flaw(alloc: Global, program: &Program) -> Result<Option<Refusal>, NoMemory>
    requires { HasFeet program.now }
    ensures { IfOk result (λ answer. FirstOf (DomainOf program.now.tree.now.domains) (nodes_from 0 program.now.tree.now.domains) answer) }
{
    for k in 0..program.tree.count() {
        let flaw = domain_flaw(alloc, program, NodeId(k))?;
        if flaw.is_some() {
            return Ok(flaw);
        }
    }
    Ok(None)
}
