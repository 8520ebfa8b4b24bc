// The places that a domain has on one side: its own, and those of its members by their footprints.
ghost use Rattle.std.specs.Prelude.{◌≡◌, ◌++◌, ◌<◌, length, map, slice_get, OnOk, IfOk, All, IsSomeAnd};
ghost use Rattle.std.specs.List.{flat_map};
ghost use Rattle.cd_base.specs.declared.place.Place.{Place};
ghost use Rattle.cd_base.specs.Words.{in_ranges};
ghost use Rattle.cd_tree.specs.Operations.{IsFull, op_reads, op_writes};
ghost use Rattle.cd_tree.specs.declared.domain.NodeId.{NodeId};
ghost use Rattle.cd_foot.specs.Gathered.{op_side, foot_side, entry_side, side_at, item_side, gathered, IsItemOf, CanGather};

use crate::Foot;
use cd_base::{NoMemory, Places, Range};
use cd_tree::{Domain, Entry, Item, NodeId, Op, reads, writes};
use std::alloc::{AllocError, Global};

/// Which of the two sets of a footprint.
#[derive(Clone, Copy)]
pub(crate) enum Side {
    Reads,
    Writes,
}

/// The places that a domain has on one side, its members' by their footprints. They are gathered in `ranges`, whose room
/// serves one domain after another.
pub(crate) fn places_of(
    alloc: Global,
    side: Side,
    domain: &Domain,
    feet: &[Foot],
    ranges: &mut Vec<Range>,
) -> Result<Places, NoMemory>
    requires { CanGather (length feet.now) domain.now }
    ensures { IfOk result (λ set. (p : Place) → in_ranges set p ≡ in_ranges (gathered side feet.now domain.now) p) }
{
    ranges.clear();
    add_entries(side, domain.entries.items(), ranges)?;
    add_items(side, domain.items.items(), feet, ranges)?;
    let set = Places::sorting(alloc, ranges.as_mut_slice())?;
    Ok(set)
}

// The ranges of entries, which are read.
fn add_entries(side: Side, entries: &[Entry], ranges: &mut Vec<Range>) -> Result<(), AllocError>
    ensures { OnOk result (ranges.new.items ≡ ranges.old.items ++ entry_side side entries.now) }
{
    match side {
        Side::Reads => add_ranges(entries, ranges),
        Side::Writes => Ok(()),
    }
}

// The range of each entry.
fn add_ranges(entries: &[Entry], ranges: &mut Vec<Range>) -> Result<(), AllocError>
    ensures { OnOk result (ranges.new.items ≡ ranges.old.items ++ map (λ entry. entry.range) entries.now) }
{
    for entry in entries {
        ranges.push(entry.range)?;
    }
    Ok(())
}

// The ranges of items.
fn add_items(
    side: Side,
    items: &[Item],
    feet: &[Foot],
    ranges: &mut Vec<Range>,
) -> Result<(), AllocError>
    requires { All (IsItemOf (length feet.now)) items.now }
    ensures ranges { OnOk result (ranges.new.items ≡ ranges.old.items ++ flat_map (item_side side feet.now) items.now) }
    ensures full { OnOk result (All IsFull (flat_map (item_side side feet.now) items.now)) }
{
    for item in items {
        add_item(side, item, feet, ranges)?;
    }
    Ok(())
}

// The ranges of an item.
fn add_item(
    side: Side,
    item: &Item,
    feet: &[Foot],
    ranges: &mut Vec<Range>,
) -> Result<(), AllocError>
    requires { IsItemOf (length feet.now) item.now }
    ensures ranges { OnOk result (ranges.new.items ≡ ranges.old.items ++ item_side side feet.now item.now) }
    ensures full { OnOk result (All IsFull (item_side side feet.now item.now)) }
{
    match item {
        Item::Run(op) => add_own(side, op, ranges),
        Item::Group(members) => add_members(side, members.items(), feet, ranges),
    }
}

// An operation's sources, or its destination.
fn add_own(side: Side, op: &Op, ranges: &mut Vec<Range>) -> Result<(), AllocError>
    ensures { OnOk result (ranges.new.items ≡ ranges.old.items ++ op_side side op.now) }
{
    match side {
        Side::Reads => add_sources(op, ranges),
        Side::Writes => {
            ranges.push(writes(op))?;
            Ok(())
        }
    }
}

// An operation's sources; there are at most four.
fn add_sources(op: &Op, ranges: &mut Vec<Range>) -> Result<(), AllocError>
    ensures { OnOk result (ranges.new.items ≡ ranges.old.items ++ op_reads op.now) }
{
    for k in 0..4 {
        if let Some(range) = reads(op, k) {
            ranges.push(range)?;
        }
    }
    Ok(())
}

// The ranges of members.
fn add_members(
    side: Side,
    members: &[NodeId],
    feet: &[Foot],
    ranges: &mut Vec<Range>,
) -> Result<(), AllocError>
    requires { All (λ (id : NodeId). id.0 < length feet.now) members.now }
    ensures ranges { OnOk result (ranges.new.items ≡ ranges.old.items ++ flat_map (side_at side feet.now) members.now) }
    ensures full { OnOk result (All IsFull (flat_map (side_at side feet.now) members.now)) }
{
    for member in members {
        let places = side.set_of(&feet[member.0 as usize]);
        ranges.extend_from_slice(places.ranges())?;
    }
    Ok(())
}

impl Side {
    // One set of a footprint.
    fn set_of(self, foot: &Foot) -> &Places
        ensures { result.now ≡ foot_side self foot.now }
    {
        match self {
            Side::Reads => &foot.reads,
            Side::Writes => &foot.writes,
        }
    }
}
