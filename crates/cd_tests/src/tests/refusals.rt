//! Refusals as the program writes them: one of each kind, which comes first, limits, and documents that are cut.

use super::calls::{Case, all_begin, all_tell, tells, touches};
use super::documents::joined;
use super::texts::COPIED;
use std::alloc::Global;
use std::sync::Wait;
use std::test::Fail;
use std::thread::Threads;

/// A document with one domain, up to its first item.
const ONE: &str = "region y 4 const 0\ndomain root retry 2 detects flip\npreserve y copy\n";

/// Documents in two parts without their first lines, and what they are refused for in version 1, and in version 2 after
/// four kinds.
static REFUSED: [(&str, &str, &str, &str); 18] = [
    (
        ONE,
        "fil y 7\nend\n",
        "refused E2 line 5\n",
        "refused E2 line 9\n",
    ),
    (
        ONE,
        "fill y 7\n",
        "refused E2 line 6\n",
        "refused E2 line 10\n",
    ),
    (
        ONE,
        "fill q 7\nend\n",
        "refused E3 line 5\n",
        "refused E3 line 9\n",
    ),
    (
        ONE,
        "fill y[4] 7\nend\n",
        "refused E4 line 5\n",
        "refused E4 line 9\n",
    ),
    (
        "region y 4 const 0\nregion y 1 const 0\n",
        "domain root retry 2 detects flip\nend\n",
        "refused E5 line 3\n",
        "refused E5 line 7\n",
    ),
    (
        ONE,
        "copy y y[0..3]\nend\n",
        "refused E6 line 5\n",
        "refused E6 line 9\n",
    ),
    (
        ONE,
        "fill y 2-3\nend\n",
        "refused E7 line 5\n",
        "refused E7 line 9\n",
    ),
    (
        "domain root retry 101 detects flip\n",
        "end\n",
        "refused E8 retry 101\n",
        "refused E8 retry 101\n",
    ),
    (
        "region y 4 const 0\nregion z 4 iota 10 1\ndomain root retry 2 detects node\npreserve y copy\npreserve z copy\ngroup\n",
        "domain b retry 1 detects flip\npreserve y copy\nfill y 7\nend\ndomain c retry 1 detects flip\npreserve z copy\npreserve y[3] copy\nfill z 9\nend\nend\nend\n",
        "refused E9 root/b root/c y[3]\n",
        "refused E9 root/b root/c y[3]\n",
    ),
    (
        "region y 4 const 0\ndomain root retry 2 detects flip\n",
        "preserve y[0..3] copy\nfill y 7\nend\n",
        "refused E10 root y[3]\n",
        "refused E10 root y[3]\n",
    ),
    (
        "region y 4 const 0\ndomain root retry 2 detects flip\n",
        "preserve y refer\nfill y 7\nend\n",
        "refused E11 root entry 0\n",
        "refused E11 root entry 0\n",
    ),
    (
        ONE,
        "fill y 7\ndomain a retry 1 detects flip\npreserve y refer\nfill y 7\nend\nend\n",
        "refused E12 root/a entry 0 y[0]\n",
        "refused E12 root/a entry 0 y[0]\n",
    ),
    (
        ONE,
        "fill y 7\nend\nfaults\nstrike root/a 1 0 flip y[0] 1\nstrike root 1 1 flip y[0] 1\n",
        "refused E13 fault 1\n",
        "refused E13 fault 1\n",
    ),
    (
        ONE,
        "fill y 7\nend\nfaults\nstrike root 1 2 node y[0] 1\nstrike root 1 1 flip y[0] 1\n",
        "refused E14 fault 1\n",
        "refused E14 fault 1\n",
    ),
    (
        "region y 4 const 0\nregion q 1 const 0\ndomain root retry 2 detects flip\npreserve y copy\n",
        "fill y 7\nend\nfaults\nstrike root 1 1 flip y[0] 1\nstrike root 1 0 flip q[0] 1\n",
        "refused E15 fault 2\n",
        "refused E15 fault 2\n",
    ),
    (
        "region y 4 const 0\nregion q 1 const 0\ndomain root retry 2 detects flip\npreserve y copy\n",
        "fill y 7\nend\nfaults\nstrike root 1 0 flip q[0] 1\nstrike root 1 1 flip y[0] 1\n",
        "refused E15 fault 1\n",
        "refused E15 fault 1\n",
    ),
    (
        ONE,
        "fill y 7\nend\nfaults\nstrike root 1 0 node y[0] 1\nstrike root 1 1 flip y[0] 1\n",
        "refused E16 fault 1\n",
        "refused E16 fault 1\n",
    ),
    (
        "region y 4 const 0\ndomain root retry 2 detects flip,seu\n",
        "end\n",
        "refused E2 line 3\n",
        "refused E2 line 7\n",
    ),
];

const KINDS: &str = "cd 2\nkind flip\nkind lost\nkind link\nkind node\n";

/// A document in three parts, which each action refuses with this line.
fn each_action_tells<R: Threads + Wait + Sync>(
    rt: &R,
    alloc: Global,
    head: &str,
    front: &str,
    back: &str,
    line: &str,
) -> Result<(), Fail> {
    let text = joined(alloc, &[head, front])?;
    for word in ["check", "read", "lift", "run"] {
        tells(rt, alloc, &[word], &(text.as_str(), back, 3, line))?;
    }
    Ok(())
}

#[test]
fn refused_documents_are_told_by_each_action(rt: HostRuntime) -> Result<(), Fail> {
    for (front, back, first, second) in &REFUSED {
        each_action_tells(&rt, rt.alloc(), "cd 1\n", front, back, first)?;
        each_action_tells(&rt, rt.alloc(), KINDS, front, back, second)?;
    }
    Ok(())
}

/// As many regions as there may be.
const REGIONS: &str = "cd 1\nfor k in 0..64\nregion x:k 1 const 0\nend\n";

/// Two members that write the same words, which nobody preserves.
const CLASHING: &str =
    "cd 1\nregion y 4 const 0\ndomain root retry 1 detects none\ngroup\ndomain b retry 1 detects none\nfill y 1\nend\ndomain c retry 1 detects none\nfill y 2\nend\nend\nend\n";

/// A root with two regions, up to its first entry.
const TWO: &str =
    "cd 1\nregion y 4 const 0\nregion z 4 const 0\ndomain root retry 1 detects none\n";

/// Documents in two parts with more than one mistake, and the refusal that comes first: blocks before statements, statements
/// in order; in one statement its form, numbers, regions, ranges, names, shapes and limits in this order; then siblings,
/// domains in order, the need, and the strikes.
static FIRSTS: [Case; 17] = cases! {
    "cd 1\nfil y 7\n", "domain root retry 1 detects none\n" => 3, "refused E2 line 4\n";
    "cd 1\nfil y 7\n", "end\n" => 3, "refused E2 line 3\n";
    "cd 1\nfil y 7\n", "domain root retry 1 detects none\nend\n" => 3, "refused E2 line 2\n";
    "cd 1\nfor a in 0..65535\nend\n", "fil y 7\n" => 3, "refused E8 lines 65537\n";
    COPIED, "fill q 2-3\nend\n" => 3, "refused E7 line 5\n";
    COPIED, "copy q y[4]\nend\n" => 3, "refused E3 line 5\n";
    COPIED, "copy y[0..2] y[3..9]\nend\n" => 3, "refused E4 line 5\n";
    "cd 1\nregion y 4 const 0\nregion y 0 const 0\n", "domain root retry 1 detects none\nend\n" => 3, "refused E5 line 3\n";
    REGIONS, "region z 0 const 0\ndomain root retry 1 detects none\nend\n" => 3, "refused E6 line 5\n";
    REGIONS, "region the_name_of_a_region_with_words:12 1 const 0\ndomain root retry 1 detects none\nend\n" => 3, "refused E8 name 33\n";
    REGIONS, "region z 1048576 const 0\ndomain root retry 1 detects none\nend\n" => 3, "refused E8 regions 65\n";
    CLASHING, "faults\nstrike root 1 0 bang y[0] 1\n" => 3, "refused E2 line 14\n";
    CLASHING, "" => 3, "refused E9 root/b root/c y[0]\n";
    TWO, "preserve y refer\nfill z 7\nfill y 7\nend\n" => 3, "refused E10 root z[0]\n";
    TWO, "preserve y copy\npreserve z copy\nfill y 7\ndomain a retry 1 detects none\npreserve y refer\nend\ndomain b retry 1 detects none\nfill z 7\nend\nend\n" => 3, "refused E12 root/a entry 0 y[0]\n";
    WIDE, "preserve y copy\nfill y[0] 7\ndomain a retry 1 detects flip\npreserve y[0] refer\nend\nend\nend\nend\nend\n" => 3, "refused E12 a/a/a/a/a entry 0 y[0]\n";
    WIDE, "preserve y copy\ndomain a retry 1 detects flip\npreserve y[0] copy\nend\nend\nend\nend\nend\nfaults\nstrike b 1 0 flip y[0] 1\n" => 3, "refused E8 need 65537\n";
};

#[test]
fn of_two_refusals_the_first_is_told(rt: HostRuntime) -> Result<(), Fail> {
    all_tell(&rt, rt.alloc(), &["check"], &FIRSTS)
}

/// The lines of a document, each with what `check` answers where the text ends after it: the status, and the front of the
/// text. Blocks that are open at the end, and an `end` that closes nothing, come before all else.
static CUTS: [(&str, u8, &str); 20] = [
    ("cd 1\n", 3, "refused E2 line 2\n"),
    ("region y 4 const 0\n", 3, "refused E2 line 3\n"),
    (
        "domain root retry 2 detects node\n",
        3,
        "refused E2 line 4\n",
    ),
    ("preserve y copy\n", 3, "refused E2 line 5\n"),
    ("group\n", 3, "refused E2 line 6\n"),
    ("for a in 0..2\n", 3, "refused E2 line 7\n"),
    (
        "domain w:a retry 1 detects flip\n",
        3,
        "refused E2 line 8\n",
    ),
    ("preserve y[a] refer\n", 3, "refused E2 line 9\n"),
    ("fill y[a] 7\n", 3, "refused E2 line 10\n"),
    ("end\n", 3, "refused E2 line 11\n"),
    ("end\n", 3, "refused E2 line 12\n"),
    ("end\n", 3, "refused E2 line 13\n"),
    (
        "end\n",
        0,
        "# accepted domains 3 items 3 entries 3 words 4 need 5 faults 0\n",
    ),
    (
        "faults\n",
        0,
        "# accepted domains 3 items 3 entries 3 words 4 need 5 faults 0\n",
    ),
    ("for a in 0..2\n", 3, "refused E2 line 16\n"),
    (
        "strike root/w:a 1 1 flip y[a] 1\n",
        3,
        "refused E2 line 17\n",
    ),
    (
        "end\n",
        0,
        "# accepted domains 3 items 3 entries 3 words 4 need 5 faults 2\n",
    ),
    (
        "strike root/w2 1 1 flip y[0] 1\n",
        3,
        "refused E13 fault 3\n",
    ),
    ("fil y 7\n", 3, "refused E2 line 19\n"),
    ("end\n", 3, "refused E2 line 20\n"),
];

#[test]
fn a_document_is_refused_where_it_is_cut(rt: HostRuntime) -> Result<(), Fail> {
    let mut text = String::new(rt.alloc());
    for (line, status, written) in &CUTS {
        text.push_str(line)?;
        touches(
            &rt,
            rt.alloc(),
            &["check"],
            true,
            &(text.as_str(), "", *status, *written),
        )?;
    }
    Ok(())
}

/// A text, and sixteen times another after it.
macro_rules! sixteen {
    ($head:literal, $piece:literal) => {
        concat!(
            $head, $piece, $piece, $piece, $piece, $piece, $piece, $piece, $piece, $piece, $piece,
            $piece, $piece, $piece, $piece, $piece, $piece
        )
    };
}

/// As many domains inside each other as there may be.
const DEEP: &str = sixteen!("cd 1\n", "domain a retry 1 detects none\n");

const ENDS: &str = sixteen!("", "end\n");

/// The same with one more.
const DEEPER: &str = sixteen!("domain a retry 1 detects none\nend\n", "end\n");

/// As many kinds as there may be.
const ALL_KINDS: &str = "\
cd 2
kind a
kind b
kind c
kind d
kind e
kind f
kind g
kind h
kind i
kind j
kind k
kind l
kind m
kind n
kind o
kind p
";

/// A region with as many words as there may be, and domains inside each other that keep all of them.
const WIDE: &str = "\
cd 1
region y 1048576 const 0
domain a retry 1 detects flip
preserve y copy
domain a retry 1 detects flip
preserve y copy
domain a retry 1 detects flip
preserve y copy
domain a retry 1 detects flip
";

/// Documents in two parts, at a limit or past one, each with its status and the first line that is written.
static LIMITS: [Case; 24] = cases! {
    "cd 1\nfor a in 0..65532\nend\n", "domain root retry 2 detects flip\nend\n" => 0, "# accepted domains 1 items 0 entries 0 words 0 need 0 faults 0\n";
    "cd 1\nfor a in 0..65534\nend\n", "domain root retry 2 detects flip\nend\n" => 3, "refused E8 lines 65537\n";
    "cd 1\nregion y 4 const 0\ndomain root retry 2 detects flip\npreserve y copy\n", "for a in 0..1\nfor b in 0..1\nfor c in 0..1\nfor d in 0..1\nfor e in 0..1\nfor f in 0..1\nfor g in 0..1\nfor h in 0..1\nfor i in 0..1\nfor j in 0..1\nfor k in 0..1\nfor l in 0..1\nfor m in 0..1\nfor n in 0..1\nfor o in 0..1\nfor p in 0..1\nfor q in 0..1\nfill y 7\nend\nend\nend\nend\nend\nend\nend\nend\nend\nend\nend\nend\nend\nend\nend\nend\nend\nend\n" => 3, "refused E8 nesting 17\n";
    "cd 1\nregion the_name_of_a_region_with_words:1 4 const 0\n", "domain root retry 2 detects flip\nend\n" => 0, "# accepted domains 1 items 0 entries 0 words 4 need 0 faults 0\n";
    "cd 1\nregion the_name_of_a_region_with_words:12 4 const 0\n", "domain root retry 2 detects flip\nend\n" => 3, "refused E8 name 33\n";
    ALL_KINDS, "domain root retry 2 detects a,p\nend\n" => 0, "# accepted domains 1 items 0 entries 0 words 0 need 0 faults 0\n";
    ALL_KINDS, "kind q\ndomain root retry 2 detects a\nend\n" => 3, "refused E8 kinds 17\n";
    "cd 2\nkind seu\nkind seu\n", "domain root retry 2 detects seu\nend\n" => 3, "refused E5 line 3\n";
    "cd 1\nfor k in 0..65\nregion x:k 1 const 0\nend\n", "domain root retry 2 detects flip\nend\n" => 3, "refused E8 regions 65\n";
    "cd 1\nregion x 1048576 const 0\nregion y 1 const 0\n", "domain root retry 2 detects flip\nend\n" => 3, "refused E8 words 1048577\n";
    "cd 1\nregion x 2 const 0\nregion y 18446744073709551614 const 0\n", "domain root retry 2 detects flip\nend\n" => 3, "refused E8 words 18446744073709551615\n";
    "cd 1\ndomain root retry 1 detects none\nfor g in 0..8\ngroup\nfor k in 0..256\n", "domain w:256*g+k retry 1 detects none\nend\nend\nend\nend\nend\n" => 3, "refused E8 domains 2049\n";
    DEEP, ENDS => 0, "# accepted domains 16 items 15 entries 0 words 0 need 0 faults 0\n";
    DEEP, DEEPER => 3, "refused E8 depth 17\n";
    "cd 1\nregion y 4 const 0\ndomain root retry 2 detects flip\npreserve y copy\n", "for a in 0..16384\nfill y a\nend\nend\n" => 0, "# accepted domains 1 items 16384 entries 1 words 4 need 1 faults 0\n";
    "cd 1\nregion y 4 const 0\ndomain root retry 2 detects flip\npreserve y copy\n", "for a in 0..16385\nfill y a\nend\nend\n" => 3, "refused E8 items 16385\n";
    "cd 1\nregion y 4 const 0\ndomain root retry 1 detects none\n", "for a in 0..65\npreserve y copy\nend\nend\n" => 3, "refused E8 entries 65\n";
    "cd 1\nregion y 4 const 0\ndomain root retry 1 detects none\npreserve y copy\ngroup\nfor a in 0..256\ndomain w:a retry 1 detects none\n", "for b in 0..64\npreserve y[0] refer\nend\nend\nend\nend\nend\n" => 3, "refused E8 preserves 16385\n";
    "cd 1\ndomain root retry 1 detects none\ngroup\nfor a in 0..257\n", "domain w:a retry 1 detects none\nend\nend\nend\nend\n" => 3, "refused E8 members 257\n";
    "cd 1\ndomain root retry 100 detects none\n", "domain a retry 0 detects none\nend\nend\n" => 3, "refused E8 retry 0\n";
    "cd 1\nregion y 4 const 0\ndomain root retry 2 detects flip\npreserve y copy\nend\n", "faults\nfor a in 0..256\nstrike root a 0 flip y[0] 1\nend\n" => 0, "# accepted domains 1 items 0 entries 1 words 4 need 1 faults 256\n";
    "cd 1\nregion y 4 const 0\ndomain root retry 2 detects flip\npreserve y copy\nend\n", "faults\nfor a in 0..257\nstrike root a 0 flip y[0] 1\nend\n" => 3, "refused E8 faults 257\n";
    WIDE, "preserve y copy\nend\nend\nend\nend\n" => 0, "# accepted domains 4 items 3 entries 4 words 1048576 need 65536 faults 0\n";
    WIDE, "preserve y copy\ndomain a retry 1 detects flip\npreserve y[0] copy\nend\nend\nend\nend\nend\n" => 3, "refused E8 need 65537\n";
};

#[test]
fn limits_are_kept_and_told(rt: HostRuntime) -> Result<(), Fail> {
    all_begin(&rt, rt.alloc(), &["check"], &LIMITS)
}
