//! Lists of domains that are a program's, and lists that in one point are not.

use super::ground::range;
use cd_base::{Items, Range, Text};
use cd_tree::limits::{MOST_DEPTH, MOST_RETRY};
use cd_tree::{
    Domain, Entry, How, Item, Kind, KindName, Kinds, NodeId, Op, Tree, find, fits, is_full,
    path_text,
};
use std::alloc::Global;
use std::process::Abort;
use std::test::Fail;

// A domain as a test writes it: one entry, one operation, and then a group where it has one.
#[derive(Debug, Clone, Copy)]
struct Sketch<'a> {
    name: &'a str,
    parent: Option<NodeId>,
    retry: u32,
    entry: Range,
    op: Op,
    members: Option<&'a [NodeId]>,
}

// The root of a test's domains.
fn top(members: &[NodeId]) -> Sketch<'_> {
    Sketch {
        name: "top",
        parent: None,
        retry: MOST_RETRY,
        entry: range(0, 0, 8),
        op: Op::Fill(range(0, 0, 8), 1),
        members: Some(members),
    }
}

// A child of the root with no domain in it.
fn leaf(name: &str) -> Sketch<'_> {
    Sketch {
        name,
        parent: Some(NodeId(0)),
        retry: 1,
        entry: range(0, 0, 4),
        op: Op::Copy(range(0, 0, 4), range(0, 4, 8)),
        members: None,
    }
}

fn domain(rt: &impl Abort, alloc: Global, sketch: &Sketch) -> Result<Domain, Fail> {
    let mut entries = Items::new(alloc);
    entries.push(Entry {
        range: sketch.entry,
        how: How::Copy,
    })?;
    let mut items = Items::new(alloc);
    items.push(Item::Run(sketch.op))?;
    if let Some(members) = sketch.members {
        assert!(rt; members.len() < 300);
        items.push(Item::Group(Items::of(members.to_vec(alloc)?)))?;
    }
    Ok(Domain {
        name: Text::of(alloc, sketch.name)?,
        parent: sketch.parent,
        retry: sketch.retry,
        detects: Kinds::none().with(Kind(0)),
        entries,
        items,
    })
}

// The tree of these domains and one kind, where they are a program's.
fn checked(rt: &impl Abort, alloc: Global, sketches: &[Sketch]) -> Result<Option<Tree>, Fail> {
    let mut kinds = Items::new(alloc);
    kinds.push(KindName {
        name: Text::of(alloc, "flip")?,
        halts: false,
    })?;
    let mut domains = Items::new(alloc);
    for sketch in sketches {
        let made = domain(rt, alloc, sketch)?;
        assert!(rt; domains.items().len() < 3000);
        domains.push(made)?;
    }
    Ok(Tree::checked(kinds, domains))
}

#[test]
fn a_program_is_a_tree(rt: HostRuntime) -> Result<(), Fail> {
    let sketches = [top(&[NodeId(1), NodeId(2)]), leaf("left"), leaf("right")];
    let tree = checked(&rt, rt.alloc(), &sketches)?.ok_or("no tree")?;
    assert_eq!(rt; tree.count(), 3);
    assert_eq!(rt; tree.kinds().len(), 1);
    assert_eq!(rt; tree.node(NodeId(2)).name.as_str(), "right");
    assert_eq!(rt;
        path_text(rt.alloc(), &tree, NodeId(2))?.as_str(),
        "top/right"
    );
    assert_eq!(rt; find(&tree, "top/left"), Some(NodeId(1)));
    Ok(())
}

#[test]
fn what_is_wrong_in_one_point_is_no_tree(rt: HostRuntime) -> Result<(), Fail> {
    let both = [NodeId(1), NodeId(2)];
    let cases = [
        (
            "a member before its parent",
            [
                top(&[NodeId(0), NodeId(1), NodeId(2)]),
                leaf("left"),
                leaf("right"),
            ],
        ),
        (
            "members not in order",
            [top(&[NodeId(2), NodeId(1)]), leaf("left"), leaf("right")],
        ),
        (
            "a member named twice",
            [
                top(&[NodeId(1), NodeId(2), NodeId(2)]),
                leaf("left"),
                leaf("right"),
            ],
        ),
        (
            "a child that no group names",
            [top(&[NodeId(1)]), leaf("left"), leaf("right")],
        ),
        (
            "a group without members",
            [top(&[]), leaf("left"), leaf("right")],
        ),
        (
            "a name with a `/`",
            [top(&both), leaf("left/most"), leaf("right")],
        ),
        (
            "two siblings of one name",
            [top(&both), leaf("right"), leaf("right")],
        ),
        (
            "no try",
            [
                top(&both),
                Sketch {
                    retry: 0,
                    ..leaf("left")
                },
                leaf("right"),
            ],
        ),
        (
            "a try too many",
            [
                top(&both),
                Sketch {
                    retry: MOST_RETRY + 1,
                    ..leaf("left")
                },
                leaf("right"),
            ],
        ),
        (
            "an entry turned round",
            [
                top(&both),
                Sketch {
                    entry: range(0, 4, 0),
                    ..leaf("left")
                },
                leaf("right"),
            ],
        ),
        (
            "an operation of wrong lengths",
            [
                top(&both),
                Sketch {
                    op: Op::Copy(range(0, 0, 4), range(0, 4, 7)),
                    ..leaf("left")
                },
                leaf("right"),
            ],
        ),
        (
            "an operation over a part of its destination",
            [
                top(&both),
                Sketch {
                    op: Op::Copy(range(0, 0, 4), range(0, 3, 7)),
                    ..leaf("left")
                },
                leaf("right"),
            ],
        ),
        (
            "a root with a parent",
            [
                Sketch {
                    parent: Some(NodeId(0)),
                    ..top(&both)
                },
                leaf("left"),
                leaf("right"),
            ],
        ),
    ];
    for (what, sketches) in &cases {
        assert!(rt;
            checked(&rt, rt.alloc(), sketches.as_slice())?.is_none(),
            "{what}"
        );
    }
    Ok(())
}

// The tree of domains that stand each in the one before.
fn chain(rt: &impl Abort, alloc: Global, levels: u32) -> Result<Option<Tree>, Fail> {
    let mut ids = Vec::new(alloc);
    for k in 0..levels {
        ids.push(NodeId(k))?;
    }
    let mut sketches = Vec::new(alloc);
    for k in 0..levels {
        let next = k as usize + 1;
        sketches.push(Sketch {
            parent: k.checked_sub(1).map(|above| NodeId(above)),
            members: ids.get(next..next + 1),
            ..leaf("next")
        })?;
    }
    checked(rt, alloc, sketches.as_slice())
}

#[test]
fn no_tree_is_deeper_than_the_limit(rt: HostRuntime) -> Result<(), Fail> {
    assert!(rt; chain(&rt, rt.alloc(), MOST_DEPTH)?.is_some());
    assert!(rt; chain(&rt, rt.alloc(), MOST_DEPTH + 1)?.is_none());
    Ok(())
}

#[test]
fn operations_have_their_shapes(rt: HostRuntime) {
    let x = range(0, 0, 4);
    let cases = [
        (Op::Add(x, x, range(1, 2, 6)), true),
        (Op::Add(x, x, range(0, 2, 6)), false),
        (Op::Sum(range(1, 0, 1), x), true),
        (Op::Sum(range(0, 3, 4), x), false),
        (Op::Stencil(range(1, 0, 2), 1, 2, 1, x), true),
        (Op::Stencil(range(1, 0, 4), 1, 2, 1, x), false),
    ];
    for (op, shape) in cases {
        assert!(rt; is_full(&op), "{op:?}");
        assert_eq!(rt; fits(&op), shape, "{op:?}");
    }
    assert!(rt; !is_full(&Op::Scan(x, range(1, 4, 4))));
}
