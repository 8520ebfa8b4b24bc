//! What `run` writes: reports, records, and that a call does not depend on the call before.

use super::calls::{
    Case, EXHAUSTED, FILL, FILLED, RECOVERED, all_run, call, call_failing, call_joined,
};
use super::runs;
use super::texts::{COPIED, NAMED, NAMED_STRUCK, NESTED, STRUCK_99, STRUCK_100, TRIED};
use cd_field::MapField;
use std::alloc::Global;
use std::sync::Wait;
use std::test::Fail;
use std::thread::Threads;

const TWICE: &str = "committed\nregion y 7 7 7 7\nbegins root 2\ntotal 2\n";

/// Operations on words in order, and a region that no domain uses.
const ORDERED: &str = "\
cd 1
region x 4 iota 1 1
region a 4 const 1
region b 4 const 0
region c 2 const 0
region d 3 const 0
region m 4 mix 0
domain root retry 1 detects none
preserve x copy
preserve a copy
preserve b copy
preserve c copy
preserve d copy
axpy a 3 x
scan b x
stencil c 1 2 1 x
sum d[0] x
dot d[1] x x
max d[2] b
end
";

const ORDERED_RUN: &str = "\
committed
region x 1 2 3 4
region a 4 7 10 13
region b 1 3 6 10
region c 8 12
region d 10 30 10
region m 1442695040888963407 7806831264735756412 14170967488582549417 2088359638719790806
begins root 1
total 1
";

/// Sums past the largest word, and rows that are empty, too long or point outside.
const EDGES: &str = "\
cd 1
region w 2 const 18446744073709551615
region s 2 const 0
region starts 3 const 0
region cols 3 iota 0 2
region vals 3 const 5
region x 3 iota 1 1
region y 2 const 9
domain root retry 1 detects none
preserve w copy
preserve s copy
preserve starts copy
preserve cols copy
preserve vals copy
preserve x copy
preserve y copy
sum s[0] w
sub s[1] x[0] x[1]
fill starts[0] 2
fill starts[2] 9
spmv y starts cols vals x
end
";

const EDGES_RUN: &str = "\
committed
region w 18446744073709551615 18446744073709551615
region s 18446744073709551614 18446744073709551615
region starts 2 0 9
region cols 0 2 4
region vals 5 5 5
region x 1 2 3
region y 0 20
begins root 1
total 1
";

/// Operations on words each by itself, under a strike between them.
const PLAIN: &str = "\
cd 1
region x 4 iota 1 1
region f 4 const 3
region p 4 const 0
region q 4 const 0
region t 4 const 0
region z 4 mix 0
domain root retry 2 detects flip
preserve x copy
preserve f copy
preserve p copy
preserve q copy
preserve t copy
preserve z copy
fill f 7
copy p x
add q x z
sub t f p
mul x p p
mul z[0..2] z[2..4] f[0..2]
end
faults
strike root 1 4 flip q[0] 1
";

const PLAIN_RUN: &str = "\
committed
region x 1 4 9 16
region f 7 7 7 7
region p 1 2 3 4
region q 1442695040888963408 7806831264735756414 14170967488582549420 2088359638719790810
region t 6 5 4 3
region z 6963052051530087839 14618517471038535642 14170967488582549417 2088359638719790806
begins root 2
total 2
";

/// What is reported where as many words are filled as a line may not show.
const LONG: &str = "cd 1\nregion y 65 const 0\ndomain root retry 2 detects flip\npreserve y copy\n";

const LONG_RUN: &str =
    "committed\nregion y length 65 sum 455 weighted 15015\nbegins root 1\ntotal 1\n";

/// A sum that a strike would change twice, if it were not restored.
const ADDED: &str =
    "cd 1\nregion x 2 const 1\nregion y 2 const 5\ndomain root retry 2 detects flip\npreserve x copy\npreserve y copy\nadd y y x\nend\n";

const ADDED_RUN: &str = "committed\nregion x 1 1\nregion y 6 6\nbegins root 2\ntotal 2\n";

/// Documents in two parts, each with its status and its text.
static DOCUMENTS: [Case; 17] = cases! {
    FILL, "" => 0, FILLED;
    FILL, RECOVERED => 0, TWICE;
    FILL, EXHAUSTED => 1, "exhausted root flip\nregion y 0 0 0 0\nbegins root 2\ntotal 2\n";
    FILL, "faults\nstrike root 1 1 flip y[0] 0\n" => 0, TWICE;
    FILL, "faults\nstrike root 5 0 flip y[0] 1\n" => 0, FILLED;
    TRIED, STRUCK_99 => 0, "committed\nregion y 7 7 7 7\nbegins root 100\ntotal 100\n";
    TRIED, STRUCK_100 => 1, "exhausted root flip\nregion y 0 0 0 0\nbegins root 100\ntotal 100\n";
    ADDED, "faults\nstrike root 1 1 flip y[0] 255\n" => 0, ADDED_RUN;
    LONG, "fill y 7\nend\n" => 0, LONG_RUN;
    NAMED, NAMED_STRUCK => 1, "exhausted root seu\nregion y 0 0 0 0\nbegins root 2\ntotal 2\n";
    ORDERED, "" => 0, ORDERED_RUN;
    EDGES, "" => 0, EDGES_RUN;
    PLAIN, "" => 0, PLAIN_RUN;
    "cd 1\ndomain root retry 1 detects none\n", "end\n" => 0, "committed\nbegins root 1\ntotal 1\n";
    COPIED, "fil y 7\nend\n" => 3, "refused E2 line 5\n";
    "", "" => 3, "refused E2 line 1\n";
    COPIED, "fill y 7\n" => 3, "refused E2 line 6\n";
};

#[test]
fn documents_are_run_and_reported(rt: HostRuntime) -> Result<(), Fail> {
    all_run(&rt, rt.alloc(), &["run"], &DOCUMENTS)
}

/// A report of two tries of which the first is struck, with its record: its first lines, and the last events.
macro_rules! twice {
    ($first:literal, $last:literal) => {
        concat!(
            $first,
            "begins root 2\ntotal 2\nrecord\nbegin 0 1\nsaved 0 0 copy\nreached 0 0\nreached 0 1\nfound 0 flip\n",
            "begin 0 2\nrefilled 0 0\nreached 0 0\nreached 0 1\n",
            $last
        )
    };
}

const RECORDED: &str = twice!(
    "committed\nregion y 7 7 7 7\n",
    "found 0 none\ncomplete 0\n"
);

const RECORDED_EXHAUSTED: &str = twice!(
    "exhausted root flip\nregion y 0 0 0 0\n",
    "found 0 flip\nrefilled 0 0\nescalate 0\n"
);

/// A run that nothing strikes, and its record.
pub(crate) const RECORDED_ONCE: &str =
    "committed\nregion y 7 7 7 7\nbegins root 1\ntotal 1\nrecord\nbegin 0 1\nsaved 0 0 copy\nreached 0 0\nreached 0 1\nfound 0 none\ncomplete 0\n";

/// A run of a root that holds nothing, and its record.
const RECORDED_EMPTY: &str =
    "committed\nbegins root 1\ntotal 1\nrecord\nbegin 0 1\nreached 0 0\nfound 0 none\ncomplete 0\n";

/// Documents in two parts, each with its status and its text with the record.
static RECORDS: [Case; 5] = cases! {
    FILL, "" => 0, RECORDED_ONCE;
    FILL, RECOVERED => 0, RECORDED;
    FILL, EXHAUSTED => 1, RECORDED_EXHAUSTED;
    "cd 2\nkind soft\nkind seu\ndomain root retry 1 detects none\n", "end\n" => 0, RECORDED_EMPTY;
    COPIED, "fill y[4] 7\nend\n" => 3, "refused E4 line 5\n";
};

#[test]
fn records_are_written_where_they_are_asked_for(rt: HostRuntime) -> Result<(), Fail> {
    all_run(&rt, rt.alloc(), &["run", "--record"], &RECORDS)
}

/// Calls by the status that they give: a word and a document, and the numbers of the read and of the write that fail.
static STATUSES: [(&str, &str, u64, u64, u8); 10] = [
    ("run", FILL, 0, 0, 0),
    ("check", NESTED, 0, 0, 0),
    ("make", "", 0, 0, 0),
    (
        "run",
        "cd 1\nregion z 1 const 1\ndomain root retry 1 detects flip\npreserve z copy\nfill z 2\nend\nfaults\nstrike root 1 0 flip z[0] 8\n",
        0,
        0,
        1,
    ),
    ("stop", FILL, 0, 0, 2),
    ("run", "cd 1\n", 0, 0, 3),
    ("run", FILL, 3, 0, 4),
    ("run", FILL, 0, 2, 5),
    ("read", FILL, 0, 2, 5),
    ("run", NESTED, 0, 0, 0),
];

/// Runs with the record on a machine that a call with this status used answer as on an empty one.
fn run_as_ever<R: Threads + Wait + Sync>(
    rt: &R,
    alloc: Global,
    word: &str,
    text: &str,
    failing: (u64, u64),
    status: u8,
) -> Result<(), Fail> {
    let mut machine = MapField::empty(alloc);
    let before = call_failing(rt, alloc, &[word], text, failing, &mut machine)?;
    if before.status != status
        || !answer_as_ever(rt, alloc, &RECORDS, &mut machine)?
        || !answer_as_ever(rt, alloc, &runs::RECORDS, &mut machine)?
    {
        return Err(Fail::new(format_args!("{word} {status} changes the next run")));
    }
    Ok(())
}

/// Whether runs with the record, one after the other on one machine, answer as their cases say.
fn answer_as_ever<R: Threads + Wait + Sync>(
    rt: &R,
    alloc: Global,
    cases: &[Case],
    machine: &mut MapField,
) -> Result<bool, Fail> {
    for (front, back, wanted, written) in cases {
        let answer = call_joined(rt, alloc, &["run", "--record"], front, back, machine)?;
        if !answer.is(*wanted, written.as_bytes()) {
            return Ok(false);
        }
    }
    Ok(true)
}

#[test]
fn calls_do_not_depend_on_the_call_before(rt: HostRuntime) -> Result<(), Fail> {
    for (word, text, read, write, status) in &STATUSES {
        run_as_ever(&rt, rt.alloc(), word, text, (*read, *write), *status)?;
    }
    Ok(())
}

/// Lengths of texts of blanks, with what is refused of each.
static LENGTHS: [(usize, &str); 3] = [
    (1_048_576, "refused E2 line 2\n"),
    (1_048_577, "refused E1 longer than 1048576 bytes\n"),
    (1_048_578, "refused E1 longer than 1048576 bytes\n"),
];

/// What each action refuses of as many blanks.
fn each_refuses<R: Threads + Wait + Sync>(
    rt: &R,
    alloc: Global,
    length: usize,
    written: &str,
) -> Result<(), Fail> {
    let blanks = vec![in alloc; b' '; length]?;
    for word in ["run", "check", "read", "lift"] {
        let mut machine = MapField::empty(alloc);
        let answer = call(rt, alloc, &[word], blanks.as_slice(), &mut machine)?;
        if !answer.is(3, written.as_bytes()) {
            return Err(Fail::new(format_args!("{word} of {length} bytes")));
        }
    }
    Ok(())
}

#[test]
fn a_text_past_the_limit_is_too_long(rt: HostRuntime) -> Result<(), Fail> {
    for (length, written) in &LENGTHS {
        each_refuses(&rt, rt.alloc(), *length, written)?;
    }
    Ok(())
}
