//! The static checks of documents: first refusals, and needs.

use super::documents::{Refused, all_refused, joined, read};
use super::texts::{PRODUCT, SHARING, SHARING_STRUCK};
use cd_base::Place;
use cd_check::check;
use cd_foot::Footprints;
use cd_tree::{Document, NodeId, Refusal};
use std::alloc::Global;
use std::test::Fail;

macro_rules! place {
    ($region:literal, $index:literal) => {
        Place {
            region: $region,
            index: $index,
        }
    };
}

macro_rules! overlap {
    ($first:literal, $second:literal, $index:literal) => {
        Some(Refusal::Overlap(NodeId($first), NodeId($second), place!(0, $index)))
    };
}

macro_rules! uncovered {
    ($node:literal, $region:literal, $index:literal) => {
        Some(Refusal::Uncovered(NodeId($node), place!($region, $index)))
    };
}

macro_rules! stale {
    ($node:literal, $entry:literal, $index:literal) => {
        Some(Refusal::Stale(NodeId($node), $entry, place!(0, $index)))
    };
}

macro_rules! no_target {
    ($node:literal, $entry:literal) => {
        Some(Refusal::NoTarget(NodeId($node), $entry))
    };
}

/// A root that preserves `y` and `z` by copies, and what follows it.
macro_rules! root {
    ($rest:literal) => {
        concat!(
            "cd 1\nregion y 4 const 0\nregion z 4 iota 10 1\ndomain root retry 2 detects node\npreserve y copy\npreserve z copy\n",
            $rest
        )
    };
}

const FIRST: &str = root!("group\ndomain b retry 1 detects flip\n");

const SECOND: &str = "end\ndomain c retry 1 detects flip\n";

const FILL_Y: &str = "preserve y copy\nfill y 7\n";

/// What two members hold, and what the first word is refused for that one writes and the other reaches.
static SIBLINGS: [Refused; 7] = refusals! {
    FILL_Y, "preserve z copy\nfill z 9\n" => None;
    FILL_Y, "preserve z copy\npreserve y[3] copy\nfill z 9\n" => overlap!(1, 2, 3);
    FILL_Y, "preserve z copy\npreserve y copy\nfill z 9\n" => overlap!(1, 2, 0);
    "preserve y[0..3] copy\nfill y[0..3] 7\n", "preserve z copy\npreserve y[3] copy\nfill z 9\n" => None;
    "preserve y[3] copy\npreserve y[1] copy\n", FILL_Y => overlap!(1, 2, 1);
    "preserve y copy\nfill y[2..4] 7\n", "preserve y[0..3] copy\nfill y[1] 7\n" => overlap!(1, 2, 1);
    "preserve y refer\n", "preserve y refer\n" => None;
};

#[test]
fn siblings_that_interfere_are_named(rt: HostRuntime) -> Result<(), Fail> {
    all_refused(rt.alloc(), (FIRST, SECOND, "end\nend\nend\n"), &SIBLINGS)
}

/// Members of members, and members that only read what they share.
static FAMILIES: [Refused; 2] = refusals! {
    root!("group\ndomain a retry 1 detects none\npreserve y copy\ngroup\ndomain b retry 1 detects none\npreserve y copy\nfill y[0..2] 1\nend\n"), "domain c retry 1 detects none\npreserve y copy\nfill y[1..3] 1\nend\nend\nend\ndomain d retry 1 detects none\npreserve y[2..4] copy\nfill y[2..4] 1\nend\nend\nend\n" => overlap!(1, 4, 2);
    SHARING, SHARING_STRUCK => None;
};

#[test]
fn a_parent_is_asked_before_its_members(rt: HostRuntime) -> Result<(), Fail> {
    all_refused(rt.alloc(), ("", "", ""), &FAMILIES)
}

const DECLARED: &str =
    "cd 1\nregion y 4 const 0\nregion z 4 const 0\ndomain root retry 1 detects flip\n";

/// Entries and items of the root, and what they leave out. What a member preserves counts for the domain above it, though no
/// operation touches it.
static LEFT_OUT: [Refused; 6] = refusals! {
    "preserve y[0..3] copy\n", "fill y 7\nend\n" => uncovered!(0, 0, 3);
    "preserve y[3] copy\npreserve y[0] copy\npreserve z[0..3] copy\n", "copy z y\nend\n" => uncovered!(0, 0, 1);
    "preserve y copy\npreserve z[0..3] copy\n", "copy y z\nend\n" => uncovered!(0, 1, 3);
    "preserve y copy\n", "domain a retry 1 detects none\npreserve z[2] copy\nend\nend\n" => uncovered!(0, 1, 2);
    "preserve y copy\n", "domain a retry 1 detects none\npreserve y[1..4] copy\nfill y 1\nend\nend\n" => uncovered!(1, 0, 0);
    "preserve y copy\npreserve z refer\n", "fill y 7\nend\n" => no_target!(0, 1);
};

#[test]
fn what_entries_leave_out_is_named(rt: HostRuntime) -> Result<(), Fail> {
    all_refused(rt.alloc(), (DECLARED, "", ""), &LEFT_OUT)
}

const MEMBER: &str = "domain a retry 1 detects none\npreserve y refer\nend\nend\n";

const CHAIN: &str = "domain b retry 1 detects none\npreserve y[0] refer\nend\nend\nend\n";

const WHOLE: &str = "domain b retry 1 detects none\npreserve y refer\nend\nend\nend\n";

/// What stands before a reference and the reference, and why it leads to nothing or to words that have changed.
static REFERENCES: [Refused; 11] = refusals! {
    root!(""), MEMBER => None;
    root!("fill z 7\n"), MEMBER => None;
    root!("fill y 7\n"), MEMBER => stale!(1, 0, 0);
    root!("fill y[2..4] 7\n"), MEMBER => stale!(1, 0, 2);
    root!("domain a retry 1 detects none\npreserve z copy\npreserve y[1..3] copy\n"), WHOLE => uncovered!(1, 0, 0);
    root!("domain a retry 1 detects none\npreserve y regen const 0\n"), WHOLE => None;
    root!("domain a retry 1 detects none\npreserve z copy\npreserve y refer\n"), CHAIN => None;
    root!("domain a retry 1 detects none\npreserve z copy\npreserve y refer\nfill y[1..4] 7\n"), CHAIN => None;
    root!("domain a retry 1 detects none\npreserve z copy\npreserve y refer\nfill y[0..2] 7\n"), CHAIN => stale!(2, 0, 0);
    root!("fill y[3] 7\ndomain a retry 1 detects none\npreserve z copy\npreserve y refer\n"), CHAIN => stale!(1, 1, 3);
    "cd 1\nregion y 4 const 0\ndomain root retry 1 detects none\npreserve y regen const 0\n", MEMBER => no_target!(1, 0);
};

#[test]
fn references_lead_to_links_and_are_fresh(rt: HostRuntime) -> Result<(), Fail> {
    all_refused(rt.alloc(), ("", "", ""), &REFERENCES)
}

/// Two members, and a strike that is in order.
const STRUCK: &str = root!(
    "group\ndomain b retry 1 detects flip\npreserve y copy\nfill y 7\nend\ndomain c retry 1 detects flip\npreserve z copy\nfill z 9\nend\nend\nend\nfaults\nstrike root/b 1 1 flip y[3] 1\n"
);

/// A second strike, perhaps a third, and what is refused: a path that is no domain's, a point after the last, a place out of
/// reach, a kind that neither the domain nor one above it declares; of one strike the first of these, of two the first strike.
static STRIKES: [Refused; 18] = refusals! {
    "strike root/b 1 0 node y[0] 1\n", "" => None;
    "strike root 900 1 node z[3] 1\n", "" => None;
    "strike root/d 1 9 flip y[0] 1\n", "" => Some(Refusal::UnknownPath(2));
    "strike roo 1 0 node y[0] 1\n", "" => Some(Refusal::UnknownPath(2));
    "strike b 1 0 flip y[0] 1\n", "" => Some(Refusal::UnknownPath(2));
    "strike root/b/b 1 0 flip y[0] 1\n", "" => Some(Refusal::UnknownPath(2));
    "strike root/b 1 2 flip z[0] 1\n", "" => Some(Refusal::NoSuchItem(2));
    "strike root 1 2 flip y[0] 1\n", "" => Some(Refusal::NoSuchItem(2));
    "strike root 1 1 node y[0] 1\n", "" => None;
    "strike root/b 1 1 lost z[0] 1\n", "" => Some(Refusal::OutsideReach(2));
    "strike root/c 1 0 flip y[0] 1\n", "" => Some(Refusal::OutsideReach(2));
    "strike root/b 1 1 lost y[0] 1\n", "" => Some(Refusal::Undetected(2));
    "strike root 1 1 flip y[0] 1\n", "" => Some(Refusal::Undetected(2));
    "strike root/b 1 1 lost y[0] 1\n", "strike root/d 1 0 flip y[0] 1\n" => Some(Refusal::Undetected(2));
    "strike root/c 1 0 flip y[0] 1\n", "strike root/d 1 0 flip y[0] 1\n" => Some(Refusal::OutsideReach(2));
    "strike root/b 1 2 flip y[0] 1\n", "strike root/d 1 0 flip y[0] 1\n" => Some(Refusal::NoSuchItem(2));
    "strike root/b 5 1 flip y[0] 0\n", "strike root/d 1 0 flip y[0] 1\n" => Some(Refusal::UnknownPath(3));
    "strike root/b 1 0 flip y[3] 1\n", "strike root/c 1 1 node z[3] 1\n" => None;
};

#[test]
fn strikes_are_refused_by_their_first_cause(rt: HostRuntime) -> Result<(), Fail> {
    all_refused(rt.alloc(), (STRUCK, "", ""), &STRIKES)
}

/// The need of a domain of a document, by its number.
fn need_of(alloc: Global, document: &Document, node: u32) -> Result<u32, Fail> {
    let feet = Footprints::of(alloc, &document.tree)?;
    let Ok((plan, _)) = check(alloc, document, &feet) else {
        return Err(Fail::new("the document is refused"));
    };
    if plan.tree().count() <= node {
        return Err(Fail::new("there is no such domain"));
    }
    Ok(plan.need(NodeId(node)))
}

/// The same of a text.
fn need(alloc: Global, text: &str, node: u32) -> Result<u32, Fail> {
    match read(alloc, text)? {
        Ok(document) => need_of(alloc, &document, node),
        Err(_) => Err(Fail::new("the text is refused")),
    }
}

/// Ranges of one word, 64 and 65; aligned to a block and not; kept by copies, references and patterns.
const RANGES: &str =
    "cd 1\nregion y 200 const 0\ndomain root retry 1 detects none\npreserve y copy\ngroup\ndomain b retry 1 detects none\npreserve y[0..64] copy\npreserve y[63..128] copy\npreserve y[128] refer\nend\ndomain c retry 1 detects none\npreserve y[7..71] refer\npreserve y[0..65] regen const 1\nend\nend\ndomain d retry 1 detects none\npreserve y refer\nend\nend\n";

/// Documents and domains of them, with the blocks that each needs.
static NEEDS: [(&str, u32, u32); 7] = [
    (RANGES, 0, 13),
    (RANGES, 1, 5),
    (RANGES, 2, 4),
    (RANGES, 3, 5),
    (PRODUCT, 0, 653),
    (PRODUCT, 6, 155),
    (PRODUCT, 20, 31),
];

/// A domain of a text needs so many blocks.
fn needs(alloc: Global, text: &str, node: u32, wanted: u32) -> Result<(), Fail> {
    let found = need(alloc, text, node)?;
    if found == wanted {
        return Ok(());
    }
    Err(Fail::new(format_args!("domain {node} needs {found}: {text}")))
}

#[test]
fn needs_are_counted_in_blocks(rt: HostRuntime) -> Result<(), Fail> {
    for (text, node, blocks) in &NEEDS {
        needs(rt.alloc(), text, *node, *blocks)?;
    }
    Ok(())
}

/// As many domains and entries as a program may have: a root with eight groups, whose members refer to seven words each
/// and fill one of their own.
const MOST: &str =
    "cd 1\nregion own 4096 const 0\nfor r in 1..8\nregion x:r 2048 const 0\nend\ndomain root retry 2 detects flip\npreserve own copy\nfor r in 1..8\npreserve x:r copy\nend\n";

const WORKER: &str =
    "domain w:k retry 1 detects none\npreserve own[2*k] copy\nfor r in 1..8\npreserve x:r[k] refer\nend\nfill own[2*k] 1\nend\n";

#[test]
fn the_largest_programs_are_checked(rt: HostRuntime) -> Result<(), Fail> {
    let alloc = rt.alloc();
    let seven = "for g in 0..7\ngroup\nfor k in 256*g..256*g+256\n";
    let eighth = "end\nend\nend\ngroup\nfor k in 1792..2047\n";
    let text = joined(
        alloc,
        &[MOST, seven, WORKER, eighth, WORKER, "end\nend\nend\n"],
    )?;
    needs(alloc, text.as_str(), 0, 64 + 7 * 32 + 256 * 15)
}
