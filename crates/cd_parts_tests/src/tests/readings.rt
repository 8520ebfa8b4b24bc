//! How often the one domain of a program is tried, for pairs of faults at its begins.

use cd_base::{Items, Place, Text};
use cd_reading::read_through;
use cd_tree::{Domain, Fault, Kind, KindName, Kinds, NodeId, Tree};
use std::alloc::Global;
use std::test::Fail;

// A program of one domain, which has two tries and finds the one kind.
fn one_domain(alloc: Global) -> Result<Option<Tree>, Fail> {
    let mut kinds = Items::new(alloc);
    kinds.push(KindName {
        name: Text::of(alloc, "flip")?,
        halts: false,
    })?;
    let mut domains = Items::new(alloc);
    domains.push(Domain {
        name: Text::of(alloc, "top")?,
        parent: None,
        retry: 2,
        detects: Kinds::none().with(Kind(0)),
        entries: Items::new(alloc),
        items: Items::new(alloc),
    })?;
    Ok(Tree::checked(kinds, domains))
}

// A fault of the one domain at this begin.
fn fault_at(begin: u64) -> Fault {
    Fault {
        node: NodeId(0),
        begin,
        item: 0,
        kind: Kind(0),
        place: Place {
            region: 0,
            index: 0,
        },
        mask: 1,
    }
}

#[test]
fn a_domain_is_tried_until_nothing_strikes(rt: HostRuntime) -> Result<(), Fail> {
    let alloc = rt.alloc();
    let tree = one_domain(alloc)?.ok_or("no tree")?;
    let cases = [((3, 4), 1, false), ((1, 4), 2, false), ((1, 2), 2, true)];
    for ((first, second), begins, escalates) in cases {
        let mut script = Items::new(alloc);
        script.push(fault_at(first))?;
        script.push(fault_at(second))?;
        let reading = read_through(alloc, &tree, &script)?;
        assert!(rt; reading.cause.is_some() == escalates);
        if tree.count() == 1 {
            assert_eq!(rt; reading.begins.at(0), begins);
        }
    }
    Ok(())
}
