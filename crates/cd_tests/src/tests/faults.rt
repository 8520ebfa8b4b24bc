//! Faults of the source and the sink, at each read and at each write.

use super::calls::{Answer, FILL, FILLED, call_failing};
use super::reports::RECORDED_ONCE;
use cd_field::MapField;
use std::alloc::Global;
use std::sync::Wait;
use std::test::Fail;
use std::thread::Threads;

/// What a call on a document gives whose read and write with these numbers fail.
fn failing<R: Threads + Wait + Sync>(
    rt: &R,
    alloc: Global,
    words: &[&str],
    text: &str,
    calls: (u64, u64),
) -> Result<Answer, Fail> {
    let mut machine = MapField::empty(alloc);
    call_failing(rt, alloc, words, text, calls, &mut machine)
}

/// At each read before this one a fault ends the call with a line that says so, and nothing runs; this one never comes.
fn no_read_may_fail<R: Threads + Wait + Sync>(
    rt: &R,
    alloc: Global,
    word: &str,
    end: u64,
) -> Result<(), Fail> {
    for read in 1..end {
        let answer = failing(rt, alloc, &[word], FILL, (read, 0))?;
        if !answer.is(4, b"read fault\n") || answer.began {
            return Err(Fail::new(format_args!("{word} at read {read}")));
        }
    }
    let answer = failing(rt, alloc, &[word], FILL, (end, 0))?;
    if answer.status == 0 {
        return Ok(());
    }
    Err(Fail::new(format_args!("{word} reads {end} times")))
}

#[test]
fn a_fault_at_any_read_runs_nothing(rt: HostRuntime) -> Result<(), Fail> {
    for word in ["run", "check", "read", "lift"] {
        no_read_may_fail(&rt, rt.alloc(), word, 88)?;
    }
    Ok(())
}

/// What each action writes of a document.
static WRITTEN: [(&[&str], &str); 5] = [
    (&["run"], FILLED),
    (&["run", "--record"], RECORDED_ONCE),
    (
        &["check"],
        "# accepted domains 1 items 1 entries 1 words 4 need 1 faults 0\ncd 1\nregion y 4 const 0\ndomain root retry 2 detects flip\npreserve y[0..4] copy\nfill y[0..4] 7\nend\n",
    ),
    (&["read"], "committed\nbegins root 1\ntotal 1\n"),
    (
        &["lift"],
        "cd 2\nkind flip\nkind lost\nkind link\nkind node\nregion y 4 const 0\ndomain root retry 2 detects flip\npreserve y[0..4] copy\nfill y[0..4] 7\nend\n",
    ),
];

/// A fault at each write cuts the text there; a fault after them changes nothing.
fn each_write_cuts<R: Threads + Wait + Sync>(
    rt: &R,
    alloc: Global,
    words: &[&str],
    text: &[u8],
) -> Result<(), Fail> {
    let mut write: u64 = 1;
    for written in 0..text.len() {
        let answer = failing(rt, alloc, words, FILL, (0, write))?;
        if !answer.is(5, &text[..written]) {
            return Err(Fail::new(format_args!("{words:?} at write {write}")));
        }
        write = write.wrapping_add(1);
    }
    let answer = failing(rt, alloc, words, FILL, (0, write))?;
    if answer.is(0, text) {
        return Ok(());
    }
    Err(Fail::new(format_args!("{words:?} writes more than its text")))
}

#[test]
fn a_fault_at_any_write_cuts_the_text_there(rt: HostRuntime) -> Result<(), Fail> {
    for (words, text) in &WRITTEN {
        each_write_cuts(&rt, rt.alloc(), words, text.as_bytes())?;
    }
    Ok(())
}

/// Calls that write a line of their own: a word and a document, the numbers of the read and of the write that fail, the
/// status, and what was written of the line.
static LINES: [(&str, &str, (u64, u64), u8, &str); 5] = [
    ("run", "", (0, 4), 3, "ref"),
    ("check", "", (0, 1), 3, ""),
    ("run", "", (1, 5), 4, "read"),
    ("read", "", (1, 1), 4, ""),
    ("walk", "", (1, 6), 2, "usage"),
];

/// A call as in `LINES` keeps its status, writes so much of its line, and runs nothing.
fn keeps_its_status<R: Threads + Wait + Sync>(
    rt: &R,
    alloc: Global,
    word: &str,
    text: &str,
    calls: (u64, u64),
    status: u8,
    written: &str,
) -> Result<(), Fail> {
    let answer = failing(rt, alloc, &[word], text, calls)?;
    if answer.is(status, written.as_bytes()) && !answer.began {
        return Ok(());
    }
    Err(Fail::new(format_args!("{word} does not end with {written}")))
}

#[test]
fn a_fault_at_any_write_of_another_line_keeps_its_status(rt: HostRuntime) -> Result<(), Fail> {
    for (word, text, calls, status, written) in &LINES {
        keeps_its_status(&rt, rt.alloc(), word, text, *calls, *status, written)?;
    }
    Ok(())
}
