//! What `run` writes of programs of odd and of great shapes: entries that overlap, repeat and lie across pieces; groups in which two
//! members escalate; as many levels, and as many members, as there may be.

use super::calls::{Case, all_end, all_run};
use std::test::Fail;

/// References that begin and end inside of pieces, and one to a reference.
const UNALIGNED: &str = "\
cd 1
region x 200 iota 0 1
region y 1 const 0
domain root retry 2 detects node
preserve x copy
preserve y copy
domain a retry 2 detects flip
preserve x[60..130] refer
preserve y copy
add x[60..130] x[60..130] x[60..130]
domain b retry 2 detects link
preserve x[120..129] copy
preserve y refer
domain c retry 2 detects lost
preserve x[126..128] refer
preserve y refer
sum y x[126..128]
fill x[126..128] 1
end
end
end
end
faults
strike root/a/b/c 1 2 lost x[127] 9
strike root/a 1 2 flip x[129] 1
";

const UNALIGNED_RECORD: &str = "\
committed
region x length 200 sum 26011 weighted 3262649
region y 506
begins root 1
begins root/a 2
begins root/a/b 2
begins root/a/b/c 3
total 8
record
begin 0 1
saved 0 0 copy
saved 0 1 copy
reached 0 0
begin 1 1
saved 1 0 refer
saved 1 1 copy
reached 1 0
reached 1 1
begin 2 1
saved 2 0 copy
saved 2 1 refer
reached 2 0
begin 3 1
saved 3 0 refer
saved 3 1 refer
reached 3 0
reached 3 1
reached 3 2
found 3 lost
begin 3 2
refilled 3 0
refilled 3 1
reached 3 0
reached 3 1
reached 3 2
found 3 none
complete 3
reached 2 1
found 2 none
complete 2
reached 1 2
found 1 flip
begin 1 2
refilled 1 0
refilled 1 1
reached 1 0
reached 1 1
begin 2 2
saved 2 0 copy
saved 2 1 refer
reached 2 0
begin 3 3
saved 3 0 refer
saved 3 1 refer
reached 3 0
reached 3 1
reached 3 2
found 3 none
complete 3
reached 2 1
found 2 none
complete 2
reached 1 2
found 1 none
complete 1
reached 0 1
found 0 none
complete 0
";

/// Entries that overlap and repeat, of each kind; a pattern that gives its word and one that does not.
const OVERLAPPING: &str = "\
cd 1
region x 4 iota 1 1
region y 4 iota 5 1
domain root retry 2 detects flip
preserve x copy
preserve x[1..3] copy
preserve x copy
preserve y copy
domain a retry 2 detects link
preserve x[0..3] refer
preserve x[2..4] refer
preserve x[1] copy
preserve x[1] copy
preserve y regen iota 5 1
preserve y[1..2] regen iota 6 1
mul x x y
fill y[1] 9
end
end
faults
strike root/a 1 1 link x[2] 8
strike root/a 1 2 link y[0] 1
strike root 1 1 flip x[1] 4
";

const OVERLAPPING_RECORD: &str = "\
committed
region x 5 12 21 32
region y 5 9 7 8
begins root 2
begins root/a 3
total 5
record
begin 0 1
saved 0 0 copy
saved 0 1 copy
saved 0 2 copy
saved 0 3 copy
reached 0 0
begin 1 1
saved 1 0 refer
saved 1 1 refer
saved 1 2 copy
saved 1 3 copy
saved 1 4 regen
fell 1 5 y[1] wanted 7 found 6
saved 1 5 copy
reached 1 0
reached 1 1
reached 1 2
found 1 link
begin 1 2
refilled 1 0
refilled 1 1
refilled 1 2
refilled 1 3
refilled 1 4
refilled 1 5
reached 1 0
reached 1 1
reached 1 2
found 1 none
complete 1
reached 0 1
found 0 flip
begin 0 2
refilled 0 0
refilled 0 1
refilled 0 2
refilled 0 3
reached 0 0
begin 1 3
saved 1 0 refer
saved 1 1 refer
saved 1 2 copy
saved 1 3 copy
saved 1 4 regen
fell 1 5 y[1] wanted 7 found 6
saved 1 5 copy
reached 1 0
reached 1 1
reached 1 2
found 1 none
complete 1
reached 0 1
found 0 none
complete 0
";

/// Three kinds that halt, of which the root declares two: a member that meets all three, and one that comes to its end beside it.
const HALTS_IN_PART: &str = "\
cd 2
kind soft
kind hard halt
kind worse halt
kind worst halt
region y 4 const 0
region z 4 const 1
domain root retry 2 detects hard,worst
preserve y copy
preserve z copy
group
domain a retry 2 detects soft
preserve y copy
fill y 7
end
domain b retry 2 detects worse
preserve z copy
fill z 9
end
end
end
faults
strike root/a 1 0 hard y[0] 1
strike root/b 1 1 hard z[0] 1
strike root/b 1 1 worst z[1] 1
strike root/b 1 1 worse z[1] 1
strike root/a 2 1 hard y[3] 1
";

const HALTS_IN_PART_RECORD: &str = "\
exhausted root/a hard
region y 0 0 0 0
region z 1 1 1 1
begins root 2
begins root/a 2
begins root/b 2
total 6
record
begin 0 1
saved 0 0 copy
saved 0 1 copy
reached 0 0
begin 1 1
saved 1 0 copy
reached 1 0
halted 1 hard
escalate 1
begin 2 1
saved 2 0 copy
reached 2 0
reached 2 1
halted 2 hard,worse,worst
escalate 2
begin 0 2
refilled 0 0
refilled 0 1
reached 0 0
begin 1 2
saved 1 0 copy
reached 1 0
reached 1 1
halted 1 hard
escalate 1
begin 2 2
saved 2 0 copy
reached 2 0
reached 2 1
found 2 none
complete 2
refilled 0 0
refilled 0 1
escalate 0
";

/// Two members that escalate with different kinds, of which their parent declares one.
const TWO_ESCALATED: &str = "\
cd 2
kind soft
kind hard halt
kind worse halt
region y 4 const 0
region z 4 const 1
domain root retry 2 detects worse
preserve y copy
preserve z copy
domain m retry 2 detects hard
preserve y copy
preserve z copy
group
domain a retry 2 detects soft
preserve y copy
fill y 7
end
domain b retry 2 detects soft
preserve z copy
fill z 9
end
end
end
end
faults
strike root/m/a 1 0 hard y[0] 1
strike root/m/b 1 1 worse z[1] 1
strike root/m/a 2 1 hard y[3] 1
strike root/m/b 2 1 hard z[2] 1
";

const TWO_ESCALATED_RECORD: &str = "\
committed
region y 7 7 7 7
region z 9 9 9 9
begins root 2
begins root/m 3
begins root/m/a 3
begins root/m/b 3
total 11
record
begin 0 1
saved 0 0 copy
saved 0 1 copy
reached 0 0
begin 1 1
saved 1 0 copy
saved 1 1 copy
reached 1 0
begin 2 1
saved 2 0 copy
reached 2 0
halted 2 hard
escalate 2
begin 3 1
saved 3 0 copy
reached 3 0
reached 3 1
halted 3 worse
escalate 3
escalate 1
begin 0 2
refilled 0 0
refilled 0 1
reached 0 0
begin 1 2
saved 1 0 copy
saved 1 1 copy
reached 1 0
begin 2 2
saved 2 0 copy
reached 2 0
reached 2 1
halted 2 hard
escalate 2
begin 3 2
saved 3 0 copy
reached 3 0
reached 3 1
halted 3 hard
escalate 3
begin 1 3
refilled 1 0
refilled 1 1
reached 1 0
begin 2 3
saved 2 0 copy
reached 2 0
reached 2 1
found 2 none
complete 2
begin 3 3
saved 3 0 copy
reached 3 0
reached 3 1
found 3 none
complete 3
reached 1 1
found 1 none
complete 1
reached 0 1
found 0 none
complete 0
";

/// Sixteen levels, each with a reference to the one above or a copy; two of them are struck.
const DEEP: &str = "\
cd 1
region y 4 const 0
domain root retry 2 detects lost
preserve y copy
domain d1 retry 2 detects link
preserve y refer
domain d2 retry 2 detects lost
preserve y refer
domain d3 retry 2 detects link
preserve y copy
domain d4 retry 2 detects lost
preserve y refer
domain d5 retry 2 detects link
preserve y refer
domain d6 retry 2 detects lost
preserve y copy
domain d7 retry 2 detects link
preserve y refer
domain d8 retry 2 detects lost
preserve y refer
domain d9 retry 2 detects link
preserve y copy
domain d10 retry 2 detects lost
preserve y refer
domain d11 retry 2 detects link
preserve y refer
domain d12 retry 2 detects lost
preserve y copy
domain d13 retry 2 detects link
preserve y refer
domain d14 retry 2 detects lost
preserve y refer
domain d15 retry 2 detects flip
preserve y copy
fill y 7
end
end
end
end
end
end
end
end
end
end
end
end
end
end
end
end
faults
strike root/d1/d2/d3/d4/d5/d6/d7/d8/d9/d10/d11/d12/d13/d14/d15 1 1 flip y[0] 1
strike root/d1/d2/d3/d4/d5/d6/d7 1 1 link y[1] 1
";

const DEEP_RUN: &str = "\
committed
region y 7 7 7 7
begins root 1
begins root/d1 1
begins root/d1/d2 1
begins root/d1/d2/d3 1
begins root/d1/d2/d3/d4 1
begins root/d1/d2/d3/d4/d5 1
begins root/d1/d2/d3/d4/d5/d6 1
begins root/d1/d2/d3/d4/d5/d6/d7 2
begins root/d1/d2/d3/d4/d5/d6/d7/d8 2
begins root/d1/d2/d3/d4/d5/d6/d7/d8/d9 2
begins root/d1/d2/d3/d4/d5/d6/d7/d8/d9/d10 2
begins root/d1/d2/d3/d4/d5/d6/d7/d8/d9/d10/d11 2
begins root/d1/d2/d3/d4/d5/d6/d7/d8/d9/d10/d11/d12 2
begins root/d1/d2/d3/d4/d5/d6/d7/d8/d9/d10/d11/d12/d13 2
begins root/d1/d2/d3/d4/d5/d6/d7/d8/d9/d10/d11/d12/d13/d14 2
begins root/d1/d2/d3/d4/d5/d6/d7/d8/d9/d10/d11/d12/d13/d14/d15 3
total 26
";

/// A group of 256 members, of which every fourth is struck.
const WIDE: &str = "\
cd 1
region y 256 iota 0 1
domain root retry 2 detects none
preserve y copy
group
for a in 0..256
domain m:a retry 2 detects flip
preserve y[a] refer
add y[a] y[a] y[a]
end
end
end
end
faults
for a in 0..64
strike root/m:4*a 1 1 flip y[4*a] 255
end
";

/// Documents, each with its status and its text with the record.
static RECORDS: [Case; 4] = cases! {
    UNALIGNED, "" => 0, UNALIGNED_RECORD;
    OVERLAPPING, "" => 0, OVERLAPPING_RECORD;
    HALTS_IN_PART, "" => 1, HALTS_IN_PART_RECORD;
    TWO_ESCALATED, "" => 0, TWO_ESCALATED_RECORD;
};

static DEEP_RUNS: [Case; 1] = cases! {
    DEEP, "" => 0, DEEP_RUN;
};

/// By the end of its text.
static WIDE_RUNS: [Case; 1] = cases! {
    WIDE, "" => 0, "begins root/m252 2\nbegins root/m253 1\nbegins root/m254 1\nbegins root/m255 1\ntotal 321\n";
};

#[test]
fn odd_and_great_shapes_are_run(rt: HostRuntime) -> Result<(), Fail> {
    for workers in &["--workers=1", "--workers=2", "--workers=8"] {
        all_run(&rt, rt.alloc(), &["run", "--record", workers], &RECORDS)?;
        all_run(&rt, rt.alloc(), &["run", workers], &DEEP_RUNS)?;
        all_end(&rt, rt.alloc(), &["run", workers], &WIDE_RUNS)?;
    }
    Ok(())
}
