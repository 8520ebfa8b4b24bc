//! What `run` writes of documents of several domains, with references, patterns and kinds that halt: the same by any number of
//! workers.

use super::calls::{Case, all_run};
use super::texts::{
    ANEW, HALTED, HALTING, HALTING_FOUND, HALTING_LAST, LEAKING, LEAKING_STRUCK, MEMBERS,
    MEMBERS_STRUCK, NESTED, NESTED_STRUCK, PRODUCT, PRODUCT_RUN, PRODUCT_STRUCK, REFERRING,
    REFERRING_STRUCK, SHARING, SHARING_STRUCK,
};
use std::test::Fail;

/// The one below escalates from each try of the root, which has two.
const NESTED_LOST: &str =
    "faults\nstrike root/a 1 1 flip y[0] 255\nstrike root/a 2 1 flip y[3] 1\n";

/// One member escalates from the first try of the root, and the other from the second.
const MEMBERS_LOST: &str = "faults\nstrike root/b 1 1 flip y[2] 1\nstrike root/c 2 0 flip z[0] 2\n";

/// Words that patterns are to make anew: of the root and of its first member they do, of the second they do not.
const MADE_BELOW: &str = "\
cd 1
region x 3 const 5
region y 3 iota 1 1
domain root retry 2 detects none
preserve x copy
preserve y regen iota 1 1
group
domain b retry 2 detects flip
preserve x regen const 5
add x x x
end
domain c retry 2 detects flip
preserve y regen const 1
fill y 9
end
end
end
";

const MADE_BELOW_STRUCK: &str =
    "faults\nstrike root/b 1 1 flip x[1] 3\nstrike root/c 1 0 flip y[0] 3\n";

/// Documents in two parts, each with its status and its text.
static RUNS: [Case; 15] = cases! {
    NESTED, "" => 0, "committed\nregion y 7 7 7 7\nbegins root 1\nbegins root/a 1\ntotal 2\n";
    NESTED, NESTED_STRUCK => 0, "committed\nregion y 7 7 7 7\nbegins root 2\nbegins root/a 2\ntotal 4\n";
    NESTED, NESTED_LOST => 1, "exhausted root/a flip\nregion y 0 0 0 0\nbegins root 2\nbegins root/a 2\ntotal 4\n";
    LEAKING, LEAKING_STRUCK => 0, "committed\nregion y 7 7 7 7\nbegins root 2\nbegins root/a 2\ntotal 4\n";
    MEMBERS, "" => 0, "committed\nregion y 7 7 7 7\nregion z 9 9 9 9\nbegins root 1\nbegins root/b 1\nbegins root/c 1\ntotal 3\n";
    MEMBERS, MEMBERS_STRUCK => 0, "committed\nregion y 7 7 7 7\nregion z 9 9 9 9\nbegins root 2\nbegins root/b 2\nbegins root/c 2\ntotal 6\n";
    MEMBERS, MEMBERS_LOST => 1, "exhausted root/c flip\nregion y 0 0 0 0\nregion z 10 11 12 13\nbegins root 2\nbegins root/b 2\nbegins root/c 2\ntotal 6\n";
    REFERRING, REFERRING_STRUCK => 0, "committed\nregion x 1 2 3 4\nregion y 1 2 3 4\nbegins root 2\nbegins root/a 3\ntotal 5\n";
    SHARING, SHARING_STRUCK => 0, "committed\nregion x 5 6\nregion y 5 6\nregion z 5 6\nbegins root 1\nbegins root/b 2\nbegins root/c 1\ntotal 4\n";
    HALTING, HALTED => 0, "committed\nregion y 7 7 7 7\nbegins root 2\nbegins root/a 2\ntotal 4\n";
    HALTING_FOUND, HALTED => 0, "committed\nregion y 7 7 7 7\nbegins root 1\nbegins root/a 2\ntotal 3\n";
    HALTING_LAST, HALTED => 1, "exhausted root/a hard\nregion y 0 0 0 0\nbegins root 1\nbegins root/a 1\ntotal 2\n";
    ANEW, "fill y 7\nend\n" => 0, "committed\nregion y 7 7 7 7\nbegins root 1\ntotal 1\n";
    MADE_BELOW, MADE_BELOW_STRUCK => 0, "committed\nregion x 10 10 10\nregion y 9 9 9\nbegins root 1\nbegins root/b 2\nbegins root/c 2\ntotal 5\n";
    PRODUCT, PRODUCT_STRUCK => 0, PRODUCT_RUN;
};

/// The numbers of workers with which each is run.
static WORKERS: [&str; 3] = ["--workers=1", "--workers=2", "--workers=8"];

#[test]
fn documents_of_several_domains_are_run(rt: HostRuntime) -> Result<(), Fail> {
    for workers in &WORKERS {
        all_run(&rt, rt.alloc(), &["run", workers], &RUNS)?;
    }
    Ok(())
}

/// A member that escalates in each try, and exhausts the root.
const NESTED_LOST_RECORD: &str = "\
exhausted root/a flip
region y 0 0 0 0
begins root 2
begins root/a 2
total 4
record
begin 0 1
saved 0 0 copy
reached 0 0
begin 1 1
saved 1 0 copy
reached 1 0
reached 1 1
found 1 flip
escalate 1
begin 0 2
refilled 0 0
reached 0 0
begin 1 2
saved 1 0 copy
reached 1 0
reached 1 1
found 1 flip
escalate 1
refilled 0 0
escalate 0
";

/// A member that completes with a leak, which its parent finds.
const LEAKING_STRUCK_RECORD: &str = "\
committed
region y 7 7 7 7
begins root 2
begins root/a 2
total 4
record
begin 0 1
saved 0 0 copy
reached 0 0
begin 1 1
saved 1 0 copy
reached 1 0
reached 1 1
found 1 none
complete 1
reached 0 1
found 0 link
begin 0 2
refilled 0 0
reached 0 0
begin 1 2
saved 1 0 copy
reached 1 0
reached 1 1
found 1 none
complete 1
reached 0 1
found 0 none
complete 0
";

/// A member that escalates, beside one that completes.
const MEMBERS_STRUCK_RECORD: &str = "\
committed
region y 7 7 7 7
region z 9 9 9 9
begins root 2
begins root/b 2
begins root/c 2
total 6
record
begin 0 1
saved 0 0 copy
saved 0 1 copy
reached 0 0
begin 1 1
saved 1 0 copy
reached 1 0
reached 1 1
found 1 flip
escalate 1
begin 2 1
saved 2 0 copy
reached 2 0
reached 2 1
found 2 none
complete 2
begin 0 2
refilled 0 0
refilled 0 1
reached 0 0
begin 1 2
saved 1 0 copy
reached 1 0
reached 1 1
found 1 none
complete 1
begin 2 2
saved 2 0 copy
reached 2 0
reached 2 1
found 2 none
complete 2
reached 0 1
found 0 none
complete 0
";

/// References, in a domain that is struck and whose parent is.
const REFERRING_STRUCK_RECORD: &str = "\
committed
region x 1 2 3 4
region y 1 2 3 4
begins root 2
begins root/a 3
total 5
record
begin 0 1
saved 0 0 copy
saved 0 1 copy
reached 0 0
begin 1 1
saved 1 0 refer
saved 1 1 refer
reached 1 0
reached 1 1
found 1 flip
begin 1 2
refilled 1 0
refilled 1 1
reached 1 0
reached 1 1
found 1 none
complete 1
reached 0 1
found 0 link
begin 0 2
refilled 0 0
refilled 0 1
reached 0 0
begin 1 3
saved 1 0 refer
saved 1 1 refer
reached 1 0
reached 1 1
found 1 none
complete 1
reached 0 1
found 0 none
complete 0
";

/// A kind that halts a try, where it is found.
const HALTING_FOUND_RECORD: &str = "\
committed
region y 7 7 7 7
begins root 1
begins root/a 2
total 3
record
begin 0 1
saved 0 0 copy
reached 0 0
begin 1 1
saved 1 0 copy
reached 1 0
halted 1 hard
found 1 hard
begin 1 2
refilled 1 0
reached 1 0
reached 1 1
found 1 none
complete 1
reached 0 1
found 0 none
complete 0
";

/// A kind that halts a try, where it exhausts the root.
const HALTING_LAST_RECORD: &str = "\
exhausted root/a hard
region y 0 0 0 0
begins root 1
begins root/a 1
total 2
record
begin 0 1
saved 0 0 copy
reached 0 0
begin 1 1
saved 1 0 copy
reached 1 0
halted 1 hard
escalate 1
refilled 0 0
escalate 0
";

/// Patterns that give their words, and one that does not: its words are copied.
const MADE_BELOW_RECORD: &str = "\
committed
region x 10 10 10
region y 9 9 9
begins root 1
begins root/b 2
begins root/c 2
total 5
record
begin 0 1
saved 0 0 copy
saved 0 1 regen
reached 0 0
begin 1 1
saved 1 0 regen
reached 1 0
reached 1 1
found 1 flip
begin 1 2
refilled 1 0
reached 1 0
reached 1 1
found 1 none
complete 1
begin 2 1
fell 2 0 y[1] wanted 1 found 2
saved 2 0 copy
reached 2 0
reached 2 1
found 2 flip
begin 2 2
refilled 2 0
reached 2 0
reached 2 1
found 2 none
complete 2
reached 0 1
found 0 none
complete 0
";

/// A pattern of the root that does not give its words.
const ANEW_RECORD: &str = "\
committed
region y 7 7 7 7
begins root 1
total 1
record
begin 0 1
fell 0 0 y[0] wanted 1 found 0
saved 0 0 copy
reached 0 0
reached 0 1
found 0 none
complete 0
";

/// Documents in two parts, each with its status and its text with the record.
pub(crate) static RECORDS: [Case; 8] = cases! {
    NESTED, NESTED_LOST => 1, NESTED_LOST_RECORD;
    LEAKING, LEAKING_STRUCK => 0, LEAKING_STRUCK_RECORD;
    MEMBERS, MEMBERS_STRUCK => 0, MEMBERS_STRUCK_RECORD;
    REFERRING, REFERRING_STRUCK => 0, REFERRING_STRUCK_RECORD;
    HALTING_FOUND, HALTED => 0, HALTING_FOUND_RECORD;
    HALTING_LAST, HALTED => 1, HALTING_LAST_RECORD;
    MADE_BELOW, MADE_BELOW_STRUCK => 0, MADE_BELOW_RECORD;
    ANEW, "fill y 7\nend\n" => 0, ANEW_RECORD;
};

#[test]
fn records_are_in_the_order_of_one_thread(rt: HostRuntime) -> Result<(), Fail> {
    for workers in &WORKERS {
        all_run(&rt, rt.alloc(), &["run", "--record", workers], &RECORDS)?;
    }
    Ok(())
}
