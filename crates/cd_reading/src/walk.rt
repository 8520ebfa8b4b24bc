// The walk over a program's domains that reads them: tries, points, items and members, each as the reading says.
ghost use Rattle.std.specs.Prelude.{◌≡◌, ◌<◌, ◌^◌, ℕ, [], ◌∷◌, Some, length, slice_get, true};
ghost use Rattle.cd_tree.specs.Domains.{body_by, members_by, node_of};
ghost use Rattle.cd_tree.specs.KindSets.{no_kinds};
ghost use Rattle.cd_tree.specs.TreeModel.{FitsItems, NamesChildren};
ghost use Rattle.cd_tree.specs.Reading.{Counts, Told, TryEnd, read_node, read_try, read_points, read_members};
ghost use Rattle.cd_reading.specs.Cases.{IsCase, domains_of, given};
ghost use Rattle.cd_reading.specs.Ends.{try_end, node_end, group_end, TryFits, NodeFits, GroupFits};
ghost use Rattle.cd_reading.specs.Steps.{quiet, try_of, went, StepFits};
ghost use Rattle.cd_reading.specs.Walk.{the_node, listed, AreCounts, item_read, item_counts};

use crate::case::Case;
use crate::ends::{Ended, Grouped, Tried};
use crate::plain::read_plain;
use crate::steps::{Step, Try};
use crate::strikes::kinds_at;
use cd_tree::{Domain, Item, Kinds, NodeId, laws};

// A domain from its begin to its end. Most domains of a large program are plain, and need no walk.
#[cycle(reading)]
pub(crate) fn read_domain(case: &Case, id: NodeId, counts: &mut [u64]) -> Ended
    requires case { IsCase case.now }
    requires node { id.0 < length (domains_of case.now) }
    requires size { length counts.old ≡ length (domains_of case.now) }
    requires counts { AreCounts (read_node (given case.now) (the_node (domains_of case.now) id) (listed counts.old)).counts }
    ensures reads { quiet (read_node (given case.now) (the_node (domains_of case.now) id) (listed counts.old)) ≡ (listed counts.new, node_end result) }
    ensures fits { NodeFits (length (domains_of case.now)) result }
{
    if case.is_plain(id) {
        read_plain(case, id, counts)
    } else {
        read_tries(case, id, counts)
    }
}

// As many tries of a domain as it has, while they fail.
#[cycle(reading)]
fn read_tries(case: &Case, id: NodeId, counts: &mut [u64]) -> Ended
    requires case { IsCase case.now }
    requires node { id.0 < length (domains_of case.now) }
    requires size { length counts.old ≡ length (domains_of case.now) }
    requires counts { AreCounts (read_node (given case.now) (the_node (domains_of case.now) id) (listed counts.old)).counts }
    ensures reads { quiet (read_node (given case.now) (the_node (domains_of case.now) id) (listed counts.old)) ≡ (listed counts.new, node_end result) }
    ensures fits { NodeFits (length (domains_of case.now)) result }
{
    laws::the_nested_view_follows_the_list();
    let domain = case.tree.node(id);
    for _ in 1..domain.retry {
        let end = read_one_try(case, id, domain, counts);
        if !end.is_failed() {
            return end.last();
        }
    }
    let end = read_one_try(case, id, domain, counts);
    end.last()
}

// One try of a domain: the count rises, and the points follow.
#[cycle(reading)]
fn read_one_try(case: &Case, id: NodeId, domain: &Domain, counts: &mut [u64]) -> Tried
    requires case { IsCase case.now }
    requires domain { slice_get (domains_of case.now) id.0 ≡ Some domain.now }
    requires size { length counts.old ≡ length (domains_of case.now) }
    requires counts { AreCounts (read_try (given case.now) id domain.now (body_by (node_of (domains_of case.now)) domain.now.items) true (listed counts.old)).counts }
    ensures reads { quiet (read_try (given case.now) id domain.now (body_by (node_of (domains_of case.now)) domain.now.items) true (listed counts.old)) ≡ (listed counts.new, try_end result) }
    ensures fits { TryFits (length (domains_of case.now)) result }
{
    let begin = counts[id.0 as usize] + 1;
    counts[id.0 as usize] = begin;
    let hand = Try {
        node: id,
        detects: domain.detects,
        begin,
    };
    read_all_points(case, &hand, domain.items.items(), counts)
}

// The points of a try, each followed by its item.
#[cycle(reading)]
fn read_all_points(case: &Case, hand: &Try, items: &[Item], counts: &mut [u64]) -> Tried
    requires case { IsCase case.now }
    requires node { hand.now.node.0 < length (domains_of case.now) }
    requires items { FitsItems (domains_of case.now) hand.now.node.0 items.now }
    requires few { length items.now < 2 ^ 32 }
    requires size { length counts.old ≡ length (domains_of case.now) }
    requires counts { AreCounts (read_points (given case.now) (body_by (node_of (domains_of case.now)) items.now) (try_of hand.now) 0 no_kinds (listed counts.old)).counts }
    ensures reads { quiet (read_points (given case.now) (body_by (node_of (domains_of case.now)) items.now) (try_of hand.now) 0 no_kinds (listed counts.old)) ≡ (listed counts.new, try_end result) }
    ensures fits { TryFits (length (domains_of case.now)) result }
{
    let faults = case.struck_at(hand.node, hand.begin);
    let mut notes = Kinds::none();
    for (point, item) in items.iter().enumerate() {
        let kinds = kinds_at(faults, point as u32);
        let seen = match hand.arrive(case.halts, kinds, notes) {
            Step::On(seen) => seen,
            Step::Over(end) => return end,
        };
        match pass_item(case, hand, item, seen, counts) {
            Step::On(all) => notes = all,
            Step::Over(end) => return end,
        }
    }
    let kinds = kinds_at(faults, items.len() as u32);
    match hand.arrive(case.halts, kinds, notes) {
        Step::On(seen) => hand.judge(seen),
        Step::Over(end) => end,
    }
}

// What follows a point: nothing after an operation, the members after a group.
#[cycle(reading)]
fn pass_item(case: &Case, hand: &Try, item: &Item, notes: Kinds, counts: &mut [u64]) -> Step
    requires case { IsCase case.now }
    requires node { hand.now.node.0 < length (domains_of case.now) }
    requires item { FitsItems (domains_of case.now) hand.now.node.0 (item.now ∷ []) }
    requires size { length counts.old ≡ length (domains_of case.now) }
    requires counts { AreCounts (item_counts (given case.now) (node_of (domains_of case.now)) item.now (listed counts.old)) }
    ensures step { (next : ℕ → Counts → Told TryEnd) → quiet (item_read (given case.now) (try_of hand.now) (node_of (domains_of case.now)) item.now notes (listed counts.old) next) ≡ quiet (went result (listed counts.new) (λ all. next all (listed counts.new))) }
    ensures fits { StepFits (length (domains_of case.now)) result }
{
    match item {
        Item::Run(_) => Step::On(notes),
        Item::Group(members) => {
            let end = read_all_members(case, hand.node, members.items(), counts);
            hand.behind(end, notes)
        }
    }
}

// The members of a group in order, all of them.
#[cycle(reading)]
fn read_all_members(case: &Case, parent: NodeId, ids: &[NodeId], counts: &mut [u64]) -> Grouped
    requires case { IsCase case.now }
    requires parent { parent.0 < length (domains_of case.now) }
    requires ids { NamesChildren (domains_of case.now) parent.0 ids.now }
    requires size { length counts.old ≡ length (domains_of case.now) }
    requires counts { AreCounts (read_members (given case.now) (members_by (node_of (domains_of case.now)) ids.now) (listed counts.old)).counts }
    ensures reads { quiet (read_members (given case.now) (members_by (node_of (domains_of case.now)) ids.now) (listed counts.old)) ≡ (listed counts.new, group_end result) }
    ensures fits { GroupFits (length (domains_of case.now)) result }
{
    laws::the_nested_view_follows_the_list();
    let mut ends = Grouped::AllDone(Kinds::none());
    for id in ids {
        ends = ends.and(read_domain(case, *id, counts));
    }
    ends
}
