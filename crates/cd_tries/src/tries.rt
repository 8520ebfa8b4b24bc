// The tries of one domain, from a point of one of them on: up to a group, or to the end of the last.
ghost use Rattle.std.specs.Prelude.{◌≡◌, ◌≤◌, length, IfOk, OnOk};
ghost use Rattle.cd_field.specs.FieldModel.{begun};
ghost use Rattle.cd_tries.specs.Fitting.{ArePresentIn, CanRun, CanTry};
ghost use Rattle.cd_tries.specs.Refilling.{refilled_all};
ghost use Rattle.cd_tries.specs.Running.{means, stops, tries_from, tried_from, tried_again, next_begin, judged, detected, judged_at, has_next};
ghost use Rattle.cd_tries.specs.declared.points.Arrival.TheVariants as at;

use crate::points::{Arrival, run_points};
use crate::{Keep, refill_all};
use cd_base::NoMemory;
use cd_field::Field;
use cd_keep::Pass;
use cd_tree::{Domain, Kinds, NodeId};

/// What stops a domain.
#[derive(Debug, Clone, Copy, PartialEq, Eq)]
pub enum Stop {
    /// It has come to the group at a point.
    Group(u32),
    /// Its last try has passed, with a leak.
    Passed(Kinds),
    /// Its last try has failed, with the kinds found.
    Failed(Kinds),
    /// Its last try has broken off, with the halting kinds, and those that are still to be declared.
    Broken(Kinds, Kinds),
}

/// How far the tries of a domain have come.
#[derive(Debug, Clone, Copy, PartialEq, Eq)]
pub struct Course {
    /// How many more tries it may make.
    pub spare: u32,
    /// The number of this try's begin.
    pub begin: u64,
    /// What stops it.
    pub stop: Stop,
}

/// A domain that is tried: its number, what it is, the kinds that halt, and what it keeps of its entries.
#[derive(Clone, Copy)]
pub struct Attempt<'a> {
    pub node: NodeId,
    pub domain: &'a Domain,
    pub halts: Kinds,
    pub keeps: &'a [Keep],
}

impl Course {
    // Whether a further try comes: the last has failed, and one is to spare.
    fn has_next(&self) -> bool
        ensures { result ≡ has_next self.now }
    {
        self.spare > 0 && matches!(self.stop, Stop::Failed(_))
    }
}

/// Goes on with a try from a point on, and with as many more as are to spare where it fails. Each costs what its entries,
/// its operations and its points cost; memory is taken for the record alone.
pub fn go_on<F: Field, P: Pass>(
    attempt: &Attempt,
    spare: u32,
    begin: u64,
    point: u32,
    field: &mut F,
    pass: &mut P,
) -> Result<Course, NoMemory>
    requires point { point ≤ length attempt.now.domain.now.items }
    requires present { ArePresentIn attempt.now.domain.now.entries (F.model field.old) }
    requires here { (F.model field.old).node ≡ attempt.now.node }
    requires tries { CanTry (means attempt.now.node attempt.now.domain.now attempt.now.halts (P.model pass.old).known attempt.now.keeps.now) (F.model field.old) (P.model pass.old) }
    ensures course { IfOk result (λ course. tries_from (means attempt.now.node attempt.now.domain.now attempt.now.halts (P.model pass.old).known attempt.now.keeps.now) spare begin (tried_from attempt.now.halts attempt.now.domain.now (F.model field.old) point) ≡ record { field = F.model field.new; course = course }) }
    ensures pass { P.model pass.new ≡ P.model pass.old }
{
    let stop = finish_try(attempt, point, field)?;
    more_tries(attempt, Course { spare, begin, stop }, field, pass)
}

/// Makes a later try, whose begin comes next, and as many more as are to spare where it fails. Each costs what its entries,
/// its operations and its points cost; memory is taken for the record alone.
pub fn try_again<F: Field, P: Pass>(
    attempt: &Attempt,
    spare: u32,
    begin: u64,
    field: &mut F,
    pass: &mut P,
) -> Result<Course, NoMemory>
    requires tries { CanTry (means attempt.now.node attempt.now.domain.now attempt.now.halts (P.model pass.old).known attempt.now.keeps.now) (F.model field.old) (P.model pass.old) }
    ensures course { IfOk result (λ course. tries_from (means attempt.now.node attempt.now.domain.now attempt.now.halts (P.model pass.old).known attempt.now.keeps.now) spare (next_begin begin) (tried_again (means attempt.now.node attempt.now.domain.now attempt.now.halts (P.model pass.old).known attempt.now.keeps.now) (next_begin begin) (F.model field.old)) ≡ record { field = F.model field.new; course = course }) }
    ensures pass { P.model pass.new ≡ P.model pass.old }
{
    let begin = begin.saturating_add(1);
    let stop = one_more(attempt, begin, field, pass)?;
    more_tries(attempt, Course { spare, begin, stop }, field, pass)
}

// From where a try has come to: further tries, while they fail and one is to spare.
fn more_tries<F: Field, P: Pass>(
    attempt: &Attempt,
    course: Course,
    field: &mut F,
    pass: &mut P,
) -> Result<Course, NoMemory>
    requires tries { CanTry (means attempt.now.node attempt.now.domain.now attempt.now.halts (P.model pass.old).known attempt.now.keeps.now) (F.model field.old) (P.model pass.old) }
    ensures course { IfOk result (λ last. tries_from (means attempt.now.node attempt.now.domain.now attempt.now.halts (P.model pass.old).known attempt.now.keeps.now) course.spare course.begin (stops (F.model field.old) course.stop) ≡ record { field = F.model field.new; course = last }) }
    ensures pass { P.model pass.new ≡ P.model pass.old }
{
    let mut course = course;
    while course.has_next() {
        let begin = course.begin.saturating_add(1);
        let stop = one_more(attempt, begin, field, pass)?;
        let spare = course.spare - 1;
        course = Course { spare, begin, stop };
    }
    Ok(course)
}

// One later try: the domain begins, its entries are put back, and its points run.
fn one_more<F: Field, P: Pass>(
    attempt: &Attempt,
    begin: u64,
    field: &mut F,
    pass: &mut P,
) -> Result<Stop, NoMemory>
    requires tries { CanTry (means attempt.now.node attempt.now.domain.now attempt.now.halts (P.model pass.old).known attempt.now.keeps.now) (F.model field.old) (P.model pass.old) }
    ensures field { IfOk result (λ stop. tried_again (means attempt.now.node attempt.now.domain.now attempt.now.halts (P.model pass.old).known attempt.now.keeps.now) begin (F.model field.old) ≡ stops (F.model field.new) stop) }
    ensures pass { P.model pass.new ≡ P.model pass.old }
{
    restart(attempt, begin, field, pass)?;
    finish_try(attempt, 0, field)
}

// The domain begins once more, and its entries are put back.
fn restart<F: Field, P: Pass>(
    attempt: &Attempt,
    begin: u64,
    field: &mut F,
    pass: &mut P,
) -> Result<(), NoMemory>
    requires tries { CanTry (means attempt.now.node attempt.now.domain.now attempt.now.halts (P.model pass.old).known attempt.now.keeps.now) (F.model field.old) (P.model pass.old) }
    ensures field { OnOk result (F.model field.new ≡ refilled_all (P.model pass.old).known attempt.now.domain.now.entries attempt.now.keeps.now (begun (F.model field.old) attempt.now.node begin)) }
    ensures pass { P.model pass.new ≡ P.model pass.old }
{
    field.begin(attempt.node, begin)?;
    refill_all(attempt.domain.entries.items(), attempt.keeps, field, pass)
}

// The rest of one try, from a point on.
fn finish_try<F: Field>(attempt: &Attempt, point: u32, field: &mut F) -> Result<Stop, NoMemory>
    requires point { point ≤ length attempt.now.domain.now.items }
    requires runs { CanRun attempt.now.node attempt.now.domain.now (F.model field.old) }
    ensures { IfOk result (λ stop. tried_from attempt.now.halts attempt.now.domain.now (F.model field.old) point ≡ stops (F.model field.new) stop) }
{
    let arrival = run_points(attempt.domain, attempt.halts, point, field)?;
    judge(attempt, arrival, field)
}

// Judges a try whose points have come to a stop.
fn judge<F: Field>(attempt: &Attempt, arrival: Arrival, field: &mut F) -> Result<Stop, NoMemory>
    ensures { IfOk result (λ stop. judged attempt.now.halts attempt.now.domain.now.detects (record { field = F.model field.old; arrival = arrival }) ≡ stops (F.model field.new) stop) }
{
    match arrival {
        Arrival::Group(point) => Ok(Stop::Group(point)),
        Arrival::Halt => judge_halt(attempt.halts, attempt.domain.detects, field),
        Arrival::End => judge_end(attempt.domain.detects, field),
    }
}

// Judges a try that a noted kind halts: it has failed where the domain declares each such kind, and breaks off elsewhere.
fn judge_halt<F: Field>(halts: Kinds, detects: Kinds, field: &mut F) -> Result<Stop, NoMemory>
    ensures { IfOk result (λ stop. judged_at halts detects (F.model field.old) at.Halt ≡ stops (F.model field.new) stop) }
{
    let halting = field.notes().meet(halts);
    field.halted(halting)?;
    let over = halting.without(detects);
    if !over.is_none() {
        return Ok(Stop::Broken(halting, over));
    }
    let found = field.notes().meet(detects);
    field.found(found)?;
    Ok(Stop::Failed(found))
}

// Judges a try after its last point: it has passed where none of its notes is declared.
fn judge_end<F: Field>(detects: Kinds, field: &mut F) -> Result<Stop, NoMemory>
    ensures { IfOk result (λ stop. detected detects (F.model field.old) ≡ stops (F.model field.new) stop) }
{
    let notes = field.notes();
    let found = notes.meet(detects);
    field.found(found)?;
    if found.is_none() {
        Ok(Stop::Passed(notes))
    } else {
        Ok(Stop::Failed(found))
    }
}
