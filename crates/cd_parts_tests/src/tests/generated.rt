//! What the generated documents are, by their lengths and by the lines that tell sizes apart.

use cd_base::{MemorySink, WriteStop};
use cd_make::write_make;
use std::alloc::Global;
use std::test::Fail;

/// Lines by their numbers from 0: that of the smallest document, and that of the largest.
static LINES: [(usize, &'static str, &'static str); 12] = [
    (
        1,
        "region starts 17 iota 0 2",
        "region starts 3137 iota 0 2",
    ),
    (4, "region x 32 iota 1 1", "region x 6272 iota 1 1"),
    (5, "region y 16 const 0", "region y 3136 const 0"),
    (7, "region u 66 iota 0 1", "region u 898 iota 0 1"),
    (8, "region t 64 const 0", "region t 896 const 0"),
    (19, "for a in 0..1", "for a in 0..14"),
    (
        21,
        "preserve starts[16*a..16*a+17] refer",
        "preserve starts[224*a..224*a+225] refer",
    ),
    (
        25,
        "preserve y[16*a..16*a+16] copy",
        "preserve y[224*a..224*a+224] copy",
    ),
    (27, "for b in 0..1", "for b in 0..14"),
    (
        34,
        "spmv y[16*a+16*b..16*a+16*b+16] starts[16*a+16*b..16*a+16*b+17] cols vals x",
        "spmv y[224*a+16*b..224*a+16*b+16] starts[224*a+16*b..224*a+16*b+17] cols vals x",
    ),
    (
        54,
        "strike root/part:a/rows:0 1 1 flip y[16*a] 1",
        "strike root/part:a/rows:0 1 1 flip y[224*a] 1",
    ),
    (
        56,
        "strike root 1 3 node total[0] 7",
        "strike root 1 3 node total[0] 7",
    ),
];

// The document of a size, in pieces of at most 100 bytes.
fn document(alloc: Global, size: u32) -> Result<MemorySink, Fail> {
    let mut sink = MemorySink::new(alloc, 100, Vec::new(alloc));
    if 0 < size && size <= 14 {
        write_make(alloc, size, &mut sink)?;
    }
    Ok(sink)
}

// Whether a document has a line at a number.
fn has_line(document: &MemorySink, number: usize, line: &str) -> bool {
    match str::from_utf8(document.bytes()) {
        Ok(text) => text.lines().nth(number) == Some(line),
        Err(_) => false,
    }
}

#[test]
fn documents_have_these_lines(rt: HostRuntime) -> Result<(), Fail> {
    let smallest = document(rt.alloc(), 1)?;
    let largest = document(rt.alloc(), 14)?;
    assert_eq!(rt; smallest.bytes().len(), 1142);
    assert_eq!(rt; largest.bytes().len(), 1173);
    for (number, small, large) in &LINES {
        let holds = has_line(&smallest, *number, small) && has_line(&largest, *number, large);
        assert!(rt; holds, "at line {number}");
    }
    Ok(())
}

#[test]
fn a_write_that_fails_is_told(rt: HostRuntime) -> Result<(), Fail> {
    let alloc = rt.alloc();
    let fails = vec![in alloc; 3]?;
    let mut sink = MemorySink::new(alloc, 10, fails);
    assert_eq!(rt; write_make(alloc, 2, &mut sink), Err(WriteStop::Failed));
    assert_eq!(rt; sink.bytes(), b"cd 1\nregion starts 6".as_slice());
    Ok(())
}
