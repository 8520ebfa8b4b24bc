//! What `read`, `check`, `lift` and `make` write.

use super::calls::{Case, EXHAUSTED, FILL, RECOVERED, all_begin, all_tell, call, tells};
use super::texts::{
    ANEW, HALTED, HALTING, HALTING_FOUND, HALTING_LAST, LEAKING, LEAKING_STRUCK, MEMBERS,
    MEMBERS_STRUCK, NAMED, NAMED_STRUCK, NESTED, NESTED_STRUCK, PRODUCT, PRODUCT_READ,
    PRODUCT_STRUCK, REFERRING, REFERRING_STRUCK, SHARING, SHARING_STRUCK, STRUCK_99, STRUCK_100,
    TRIED,
};
use cd_field::MapField;
use std::alloc::Global;
use std::sync::Wait;
use std::test::Fail;
use std::thread::Threads;

/// Documents in two parts, and what is read of them.
static READINGS: [Case; 16] = cases! {
    FILL, "" => 0, "committed\nbegins root 1\ntotal 1\n";
    FILL, RECOVERED => 0, "committed\nbegins root 2\ntotal 2\n";
    FILL, EXHAUSTED => 0, "exhausted root flip\nbegins root 2\ntotal 2\n";
    NESTED, NESTED_STRUCK => 0, "committed\nbegins root 2\nbegins root/a 2\ntotal 4\n";
    MEMBERS, MEMBERS_STRUCK => 0, "committed\nbegins root 2\nbegins root/b 2\nbegins root/c 2\ntotal 6\n";
    LEAKING, LEAKING_STRUCK => 0, "committed\nbegins root 2\nbegins root/a 2\ntotal 4\n";
    REFERRING, REFERRING_STRUCK => 0, "committed\nbegins root 2\nbegins root/a 3\ntotal 5\n";
    SHARING, SHARING_STRUCK => 0, "committed\nbegins root 1\nbegins root/b 2\nbegins root/c 1\ntotal 4\n";
    PRODUCT, PRODUCT_STRUCK => 0, PRODUCT_READ;
    TRIED, STRUCK_99 => 0, "committed\nbegins root 100\ntotal 100\n";
    TRIED, STRUCK_100 => 0, "exhausted root flip\nbegins root 100\ntotal 100\n";
    HALTING, HALTED => 0, "committed\nbegins root 2\nbegins root/a 2\ntotal 4\n";
    HALTING_FOUND, HALTED => 0, "committed\nbegins root 1\nbegins root/a 2\ntotal 3\n";
    HALTING_LAST, HALTED => 0, "exhausted root/a hard\nbegins root 1\nbegins root/a 1\ntotal 2\n";
    NAMED, NAMED_STRUCK => 0, "exhausted root seu\nbegins root 2\ntotal 2\n";
    ANEW, "fill y 7\nend\n" => 0, "committed\nbegins root 1\ntotal 1\n";
};

#[test]
fn documents_are_read_through(rt: HostRuntime) -> Result<(), Fail> {
    all_tell(&rt, rt.alloc(), &["read"], &READINGS)
}

/// What `check` and `lift` write, for a document in two parts.
static TEXTS: [(&str, &str, &str, &str); 7] = [
    (
        "check",
        FILL,
        "",
        "# accepted domains 1 items 1 entries 1 words 4 need 1 faults 0\ncd 1\nregion y 4 const 0\ndomain root retry 2 detects flip\npreserve y[0..4] copy\nfill y[0..4] 7\nend\n",
    ),
    (
        "check",
        FILL,
        RECOVERED,
        "# accepted domains 1 items 1 entries 1 words 4 need 1 faults 1\ncd 1\nregion y 4 const 0\ndomain root retry 2 detects flip\npreserve y[0..4] copy\nfill y[0..4] 7\nend\nfaults\nstrike root 1 1 flip y[0] 255\n",
    ),
    (
        "check",
        ANEW,
        "fill y 7\nend\n",
        "# accepted domains 1 items 1 entries 1 words 4 need 1 faults 0\ncd 1\nregion y 4 const 0\ndomain root retry 2 detects flip\npreserve y[0..4] regen const 1\nfill y[0..4] 7\nend\n",
    ),
    (
        "check",
        HALTING,
        HALTED,
        "# accepted domains 2 items 2 entries 2 words 4 need 2 faults 1\ncd 2\nkind soft\nkind hard halt\nregion y 4 const 0\ndomain root retry 2 detects hard\npreserve y[0..4] copy\ndomain a retry 3 detects soft\npreserve y[0..4] copy\nfill y[0..4] 7\nend\nend\nfaults\nstrike root/a 1 0 hard y[0] 1\n",
    ),
    (
        "lift",
        FILL,
        "",
        "cd 2\nkind flip\nkind lost\nkind link\nkind node\nregion y 4 const 0\ndomain root retry 2 detects flip\npreserve y[0..4] copy\nfill y[0..4] 7\nend\n",
    ),
    (
        "lift",
        NESTED,
        NESTED_STRUCK,
        "cd 2\nkind flip\nkind lost\nkind link\nkind node\nregion y 4 const 0\ndomain root retry 2 detects node\npreserve y[0..4] copy\ndomain a retry 1 detects flip\npreserve y[0..4] copy\nfill y[0..4] 7\nend\nend\nfaults\nstrike root/a 1 1 flip y[0] 255\n",
    ),
    (
        "lift",
        HALTING,
        HALTED,
        "cd 2\nkind soft\nkind hard halt\nregion y 4 const 0\ndomain root retry 2 detects hard\npreserve y[0..4] copy\ndomain a retry 3 detects soft\npreserve y[0..4] copy\nfill y[0..4] 7\nend\nend\nfaults\nstrike root/a 1 0 hard y[0] 1\n",
    ),
];

#[test]
fn texts_are_written_and_stay_when_read_again(rt: HostRuntime) -> Result<(), Fail> {
    for (word, front, back, written) in &TEXTS {
        tells(&rt, rt.alloc(), &[*word], &(*front, *back, 0, *written))?;
        tells(&rt, rt.alloc(), &[*word], &(*written, "", 0, *written))?;
    }
    Ok(())
}

/// The first lines of `check`, for documents in two parts.
static FIRST_LINES: [Case; 4] = cases! {
    MEMBERS, MEMBERS_STRUCK => 0, "# accepted domains 3 items 3 entries 4 words 8 need 4 faults 1\n";
    REFERRING, REFERRING_STRUCK => 0, "# accepted domains 2 items 2 entries 4 words 8 need 6 faults 2\n";
    PRODUCT, "" => 0, "# accepted domains 21 items 21 entries 105 words 2049 need 653 faults 0\n";
    PRODUCT, PRODUCT_STRUCK => 0, "# accepted domains 21 items 21 entries 105 words 2049 need 653 faults 12\n";
};

#[test]
fn accepted_documents_are_counted(rt: HostRuntime) -> Result<(), Fail> {
    all_begin(&rt, rt.alloc(), &["check"], &FIRST_LINES)
}

/// Sizes of generated documents, with their first line of `check`, and the end of what is read of them.
static SIZES: [(&str, &str, &str); 3] = [
    (
        "1",
        "# accepted domains 4 items 6 entries 20 words 260 need 28 faults 2\n",
        "begins root 2\nbegins root/part0 2\nbegins root/part0/rows0 3\nbegins root/strip0 2\ntotal 9\n",
    ),
    (
        "4",
        "# accepted domains 25 items 27 entries 116 words 2564 need 663 faults 5\n",
        "begins root/strip3 2\ntotal 54\n",
    ),
    (
        "14",
        "# accepted domains 225 items 227 entries 1086 words 26884 need 63703 faults 15\n",
        "begins root/strip13 2\ntotal 464\n",
    ),
];

/// The document that is made at a size is accepted with this first line, and what is read of it has this end.
fn is_made<R: Threads + Wait + Sync>(
    rt: &R,
    alloc: Global,
    size: &str,
    line: &str,
    end: &str,
) -> Result<(), Fail> {
    let mut machine = MapField::empty(alloc);
    let made = call(rt, alloc, &["make", "--size", size], b"", &mut machine)?;
    let checked = call(rt, alloc, &["check"], made.written.as_slice(), &mut machine)?;
    let read = call(rt, alloc, &["read"], made.written.as_slice(), &mut machine)?;
    if (made.status, checked.status, read.status) == (0, 0, 0)
        && checked.written.as_slice().starts_with(line.as_bytes())
        && read.written.as_slice().ends_with(end.as_bytes())
    {
        return Ok(());
    }
    Err(Fail::new(format_args!("the size {size} makes another document")))
}

#[test]
fn made_documents_are_accepted_and_read(rt: HostRuntime) -> Result<(), Fail> {
    for (size, line, end) in &SIZES {
        is_made(&rt, rt.alloc(), size, line, end)?;
    }
    Ok(())
}
