//! The largest documents: as many domains, strikes and begins as there may be.

use super::calls::{Case, all_begin, all_end, call};
use cd_field::MapField;
use std::alloc::Global;
use std::sync::Wait;
use std::test::Fail;
use std::thread::Threads;

/// A root with as many domains as a program may have, in eight groups, after its head.
macro_rules! many {
    ($root:literal) => {
        concat!(
            $root,
            "for g in 0..7\ngroup\nfor k in 0..256\ndomain w:256*g+k retry 1 detects none\nend\nend\nend\nend\n",
            "group\nfor k in 1792..2047\ndomain w:k retry 1 detects none\nend\nend\nend\nend\n"
        )
    };
}

/// They begin once.
const MANY: &str = many!("cd 1\ndomain root retry 1 detects none\n");

const MANY_COUNTED: &str = "# accepted domains 2048 items 8 entries 0 words 0 need 0 faults 0\n";

/// A document and its canonical text have the same canonical text, and both are read to the same end.
fn stays<R: Threads + Wait + Sync>(
    rt: &R,
    alloc: Global,
    document: &str,
    line: &str,
    end: &str,
) -> Result<(), Fail> {
    let mut machine = MapField::empty(alloc);
    let first = call(rt, alloc, &["check"], document.as_bytes(), &mut machine)?;
    let again = call(
        rt,
        alloc,
        &["check"],
        first.written.as_slice(),
        &mut machine,
    )?;
    let read = call(rt, alloc, &["read"], first.written.as_slice(), &mut machine)?;
    if first.status == 0
        && first.written.as_slice().starts_with(line.as_bytes())
        && again.is(0, first.written.as_slice())
        && read.status == 0
        && read.written.as_slice().ends_with(end.as_bytes())
    {
        return Ok(());
    }
    Err(Fail::new(format_args!("it is no document with {line}")))
}

#[test]
fn as_many_domains_as_there_may_be_are_checked_and_read(rt: HostRuntime) -> Result<(), Fail> {
    stays(
        &rt,
        rt.alloc(),
        MANY,
        MANY_COUNTED,
        "begins root/w2046 1\ntotal 2048\n",
    )
}

/// As many tries as the root may have.
const TRIED: &str = many!(
    "cd 1\nregion y 1 const 0\ndomain root retry 100 detects flip\npreserve y copy\n"
);

/// Members that are struck in each try but the last, by as many strikes as there may be; domains inside each other whose
/// strikes each cost the outermost a try; as many domains as there may be, each with as many begins as the root has tries.
static STRUCK: [Case; 5] = cases! {
    "cd 1\nregion y 64 const 0\ndomain root retry 1 detects none\npreserve y copy\ngroup\nfor a in 0..64\ndomain w:a retry 5 detects flip\npreserve y[a] copy\nfill y[a] a\nend\nend\nend\nend\n", "faults\nfor a in 0..64\nfor b in 1..5\nstrike root/w:a b 1 flip y[a] 1\nend\nend\n" => 0, "begins root/w63 5\ntotal 321\n";
    "cd 1\nregion y 4 const 0\ndomain root retry 100 detects node\npreserve y copy\ndomain a retry 2 detects flip\npreserve y copy\ndomain b retry 2 detects flip\npreserve y copy\nfill y 7\nend\nend\nend\n", "faults\nfor a in 1..257\nstrike root/a/b a 1 flip y[0] 1\nend\n" => 0, "committed\nbegins root 65\nbegins root/a 129\nbegins root/a/b 257\ntotal 451\n";
    "cd 1\nregion y 4 const 0\ndomain root retry 64 detects node\npreserve y copy\ndomain a retry 2 detects flip\npreserve y copy\ndomain b retry 2 detects flip\npreserve y copy\nfill y 7\nend\nend\nend\n", "faults\nfor a in 1..257\nstrike root/a/b a 1 flip y[0] 1\nend\n" => 0, "exhausted root/a/b flip\nbegins root 64\nbegins root/a 128\nbegins root/a/b 256\ntotal 448\n";
    TRIED, "faults\nfor a in 1..100\nstrike root a 8 flip y[0] 1\nend\n" => 0, "begins root/w2045 100\nbegins root/w2046 100\ntotal 204800\n";
    TRIED, "faults\nfor a in 1..101\nstrike root a 8 flip y[0] 1\nend\n" => 0, "begins root/w2045 100\nbegins root/w2046 100\ntotal 204800\n";
};

/// The last two, by how the run would end.
static ENDS: [Case; 2] = cases! {
    TRIED, "faults\nfor a in 1..100\nstrike root a 8 flip y[0] 1\nend\n" => 0, "committed\nbegins root 100\nbegins root/w0 100\n";
    TRIED, "faults\nfor a in 1..101\nstrike root a 8 flip y[0] 1\nend\n" => 0, "exhausted root flip\nbegins root 100\nbegins root/w0 100\n";
};

#[test]
fn as_many_strikes_as_there_may_be_are_read(rt: HostRuntime) -> Result<(), Fail> {
    all_end(&rt, rt.alloc(), &["read"], &STRUCK)?;
    all_begin(&rt, rt.alloc(), &["read"], &ENDS)
}
