// Tries on the shipped machine: a table of scripts, and how far the tries of a small domain come under each.
ghost use Rattle.std.specs.Prelude.{◌≡◌, IfOk, OnOk};
ghost use Rattle.cd_keep.specs.declared.keep_id.KeepId.{KeepId as Id};
ghost use Rattle.cd_state_tests.specs.Sample.{sample_keeps, sample_pass, IsSample, SampleIsHere, StrikesSample};

use crate::tests::samples::{one_region, range, tells};
use cd_base::{Items, Place, Places, Text};
use cd_field::{Field, ScriptField};
use cd_keep::{ArcPass, KeepId, Pass};
use cd_tree::{Domain, Entry, Fault, How, Item, Kind, Kinds, NodeId, Op, Script};
use cd_tries::{Attempt, Course, Keep, Pieces, Stop, go_on, try_again};
use std::alloc::Global;
use std::test::Fail;

// A fault of a kind that strikes the first word.
pub(crate) struct Strike {
    begin: u64,
    item: u32,
    kind: u8,
}

// How the last try ends, with the one kind that is found, leaks, or halts.
#[derive(Clone, Copy)]
enum End {
    Passed,
    Leaked(u8),
    Failed(u8),
    Broken(u8),
}

// What strikes, whether the words are away before the tries, and what comes of it: the number of the last begin, how many
// tries are still to spare, how the last ends, the number of events, and the second word.
struct Case {
    name: &'static str,
    strikes: &'static [Strike],
    away: bool,
    begin: u64,
    spare: u32,
    end: End,
    events: u64,
    word: u64,
}

// Kinds 0 and 3 are declared, kinds 1 and 3 halt. The words begin as 3 and are kept as 5, and the operation makes them 7.
static TABLE: [Case; 8] = [
    Case {
        name: "nothing strikes",
        strikes: &[],
        away: false,
        begin: 1,
        spare: 1,
        end: End::Passed,
        events: 4,
        word: 7,
    },
    Case {
        name: "a declared kind is found, and the next try passes",
        strikes: &[Strike {
            begin: 1,
            item: 1,
            kind: 0,
        }],
        away: false,
        begin: 2,
        spare: 0,
        end: End::Passed,
        events: 9,
        word: 7,
    },
    Case {
        name: "both tries fail",
        strikes: &[
            Strike {
                begin: 1,
                item: 1,
                kind: 0,
            },
            Strike {
                begin: 2,
                item: 1,
                kind: 0,
            },
        ],
        away: false,
        begin: 2,
        spare: 0,
        end: End::Failed(0),
        events: 9,
        word: 7,
    },
    Case {
        name: "an undeclared kind leaks",
        strikes: &[Strike {
            begin: 1,
            item: 1,
            kind: 2,
        }],
        away: false,
        begin: 1,
        spare: 1,
        end: End::Leaked(2),
        events: 4,
        word: 7,
    },
    Case {
        name: "an undeclared kind halts before the operation",
        strikes: &[Strike {
            begin: 1,
            item: 0,
            kind: 1,
        }],
        away: false,
        begin: 1,
        spare: 1,
        end: End::Broken(1),
        events: 3,
        word: 3,
    },
    Case {
        name: "a declared kind halts, and the next try passes",
        strikes: &[Strike {
            begin: 1,
            item: 0,
            kind: 3,
        }],
        away: false,
        begin: 2,
        spare: 0,
        end: End::Passed,
        events: 9,
        word: 7,
    },
    Case {
        name: "lost words are put back",
        strikes: &[Strike {
            begin: 2,
            item: 0,
            kind: 1,
        }],
        away: true,
        begin: 2,
        spare: 1,
        end: End::Broken(1),
        events: 5,
        word: 5,
    },
    Case {
        name: "a later try fails, and the one after it passes",
        strikes: &[Strike {
            begin: 2,
            item: 1,
            kind: 0,
        }],
        away: true,
        begin: 3,
        spare: 0,
        end: End::Passed,
        events: 11,
        word: 7,
    },
];

fn kind(number: u8) -> Kinds {
    Kinds::none().with(Kind(number))
}

fn stop_of(end: End) -> Stop {
    match end {
        End::Passed => Stop::Passed(Kinds::none()),
        End::Leaked(number) => Stop::Passed(kind(number)),
        End::Failed(number) => Stop::Failed(kind(number)),
        End::Broken(number) => Stop::Broken(kind(number), kind(number)),
    }
}

pub(crate) fn one_operation(alloc: Global) -> Result<Domain, Fail>
    ensures { IfOk result (λ domain. IsSample domain) }
{
    let mut entries = Items::new(alloc);
    entries.push(Entry {
        range: range(),
        how: How::Copy,
    })?;
    let mut items = Items::new(alloc);
    items.push(Item::Run(Op::Fill(range(), 7)))?;
    Ok(Domain {
        name: Text::of(alloc, "root")?,
        parent: None,
        retry: 2,
        detects: kind(0).with(Kind(3)),
        entries,
        items,
    })
}

fn script_of(alloc: Global, strikes: &[Strike]) -> Result<Script, Fail>
    ensures { IfOk result (λ script. StrikesSample script) }
{
    let mut script = Items::new(alloc);
    for strike in strikes {
        if script.items().len() < 8 && strike.kind < 16 {
            script.push(fault(strike.begin, strike.item, strike.kind))?;
        }
    }
    Ok(script)
}

fn fault(begin: u64, item: u32, kind: u8) -> Fault
    ensures { (result.place ≡ record { region = 0; index = 0 }) × (result.kind ≡ record { 0 = kind }) }
{
    Fault {
        node: NodeId(0),
        begin,
        item,
        kind: Kind(kind),
        place: Place {
            region: 0,
            index: 0,
        },
        mask: 255,
    }
}

fn one_copy(alloc: Global, id: KeepId) -> Result<Vec<Keep>, Fail>
    ensures { IfOk result (λ keeps. keeps.items ≡ sample_keeps id) }
{
    let mut ids = Items::new(alloc);
    ids.push(id)?;
    let mut keeps = Vec::new(alloc);
    keeps.push(Keep::Copied(Pieces {
        begin: 0,
        end: 4,
        ids,
    }))?;
    Ok(keeps)
}

// The machine where the domain's first begin has told of itself, with its words, under a script.
pub(crate) fn begin_first<F: Field>(
    alloc: Global,
    strikes: &[Strike],
    field: &mut F,
) -> Result<(), Fail>
    ensures here { OnOk result ((F.model field.new).node ≡ record { 0 = 0 }) }
    ensures words { OnOk result (SampleIsHere (F.model field.new)) }
    ensures strikes { OnOk result (StrikesSample (F.model field.new).script) }
{
    field.load(&one_region(alloc)?, &script_of(alloc, strikes)?)?;
    field.begin(NodeId(0), 1)?;
    Ok(())
}

// The words are carved out, and what has them is dropped.
fn lose_words<F: Field>(alloc: Global, field: &mut F) -> Result<(), Fail>
    requires { SampleIsHere (F.model field.old) }
    ensures words { OnOk result ((F.model field.new).words ≡ (F.model field.old).words) }
    ensures script { OnOk result ((F.model field.new).script ≡ (F.model field.old).script) }
{
    let mut places = Places::new(alloc);
    places.add(range())?;
    field.carve(&Places::new(alloc), &places)?;
    Ok(())
}

// The tries of a case: from the first, or, where the words are away, from the second.
fn tries<F: Field, P: Pass>(
    alloc: Global,
    away: bool,
    attempt: &Attempt,
    field: &mut F,
    pass: &mut P,
) -> Result<Course, Fail>
    requires node { attempt.now.node ≡ record { 0 = 0 } }
    requires domain { IsSample attempt.now.domain.now }
    requires here { (F.model field.old).node ≡ record { 0 = 0 } }
    requires words { SampleIsHere (F.model field.old) }
    requires strikes { StrikesSample (F.model field.old).script }
    requires keeps { (id : Id) × (P.model pass.old ≡ sample_pass id) × (attempt.now.keeps.now ≡ sample_keeps id) }
    ensures { OnOk result (SampleIsHere (F.model field.new)) }
{
    if away {
        lose_words(alloc, field)?;
        Ok(try_again(attempt, 1, 1, field, pass)?)
    } else {
        Ok(go_on(attempt, 1, 1, 0, field, pass)?)
    }
}

// Runs the tries of a case, and compares.
fn comes_of<F: Field, P: Pass>(
    alloc: Global,
    case: &Case,
    id: KeepId,
    field: &mut F,
    pass: &mut P,
) -> Result<(), Fail>
    requires { P.model pass.old ≡ sample_pass id }
{
    let domain = one_operation(alloc)?;
    let keeps = one_copy(alloc, id)?;
    begin_first(alloc, case.strikes, field)?;
    let attempt = Attempt {
        node: NodeId(0),
        domain: &domain,
        halts: kind(1).with(Kind(3)),
        keeps: keeps.as_slice(),
    };
    let course = tries(alloc, case.away, &attempt, field, pass)?;
    let word = field.read(Place {
        region: 0,
        index: 1,
    });
    let wanted = Course {
        spare: case.spare,
        begin: case.begin,
        stop: stop_of(case.end),
    };
    if course != wanted || word != case.word || !tells(case.events, field) {
        return Err(Fail::new(format_args!("{}: {course:?}, word {word}", case.name)));
    }
    Ok(())
}

fn run_case(alloc: Global, case: &Case) -> Result<(), Fail> {
    let mut field = ScriptField::empty(alloc);
    let mut pass = ArcPass::open(alloc, 1)?;
    let id = pass.keep_at_once([5, 5, 5, 5].as_slice())?;
    comes_of(alloc, case, id, &mut field, &mut pass)
}

#[test]
fn tries_come_to_their_ends(rt: HostRuntime) -> Result<(), Fail> {
    for case in &TABLE {
        run_case(rt.alloc(), case)?;
    }
    Ok(())
}
