//! Engines: what runs a program for a caller, through a gate, and counts how often the domains of what it ran began.

ghost use Rattle.std.specs.Prelude.{◌≡◌, ℕ, ◌<◌, ◌≤◌, IfOk, OnErr, length, sum};
ghost use Rattle.cd_field.specs.FieldModel.{FieldModel};
ghost use Rattle.cd_core.specs.StateLaws.{CanStart};
ghost use Rattle.cd_core.specs.Running.{FewBegins, RanTo};
ghost use Rattle.cd_pool.specs.Counts.{begins_of, counted};

use crate::gate::Gate;
use crate::run::run_root;
use cd_base::NoMemory;
use cd_core::Outcome;
use cd_cover::Plan;
use cd_field::Field;
use cd_keep::Pass;
use cd_tree::Begins;
use std::alloc::Global;
use std::marker::Model;
use std::sync::Wait;
use std::thread::Threads;

/// Runs programs, and counts how often their domains began. The count is a number of 64 bits that stays once it is at its last value.
pub trait Engine {
    ghost begins: { Self → ℕ };

    /// What its workers go through.
    type Door: Gate;

    /// The gate that the workers of its runs go through. It takes no memory.
    fn door(&self) -> &Self::Door;

    /// Counts so many begins more. It takes no memory.
    fn count(&mut self, more: u64)
        ensures { begins self.new ≡ counted (begins self.old) more };

    /// Runs the program of a plan on a machine that was carved for its root, with a pass that has the room which the root needs, and
    /// counts the begins of its outcome.
    ///
    /// `workers` is the most workers at once, 1 to 64. It changes nothing that is said of the outcome. After want of memory the
    /// machine and the pass are dropped, and nothing is counted.
    final fn run_root<R: Threads + Wait + Sync, F: Field, P: Pass>(
        &mut self,
        rt: &R,
        alloc: Global,
        plan: &Plan,
        field: F,
        pass: P,
        workers: u32,
    ) -> Result<Outcome<F>, NoMemory>
        requires can { CanStart plan.now (F.model field) (P.model pass) }
        requires some { 0 < workers }
        requires most { workers ≤ 64 }
        ensures ran { IfOk result (RanTo F.model plan.now (F.model field)) }
        ensures few { IfOk result (FewBegins (F.model field)) }
        ensures counted { IfOk result (λ outcome. begins self.new ≡ counted (begins self.old) (begins_of outcome)) }
        ensures stays { OnErr result (begins self.new ≡ begins self.old) }
    {
        let outcome = run_root(rt, alloc, plan, field, pass, workers, self.door())?;
        let more = total_of(plan, &outcome);
        self.count(more);
        Ok(outcome)
    }
}

// How often the domains of an outcome began, in all, as far as a number of 64 bits goes.
fn total_of<F: Field>(plan: &Plan, outcome: &Outcome<F>) -> u64
    requires { (was : FieldModel) × RanTo F.model plan.now was outcome.now }
    ensures { result ≡ counted 0 (begins_of outcome.now) }
{
    let count = plan.tree().count();
    match outcome {
        Outcome::Committed(_, begins) => sum_of(begins, count),
        Outcome::Exhausted(_, begins, _) => sum_of(begins, count),
    }
}

// The sum of the counts of begins, as far as a number of 64 bits goes.
fn sum_of(begins: &Begins, count: u32) -> u64
    requires { length begins.now ≡ count }
    ensures { result ≡ counted 0 (sum begins.now) }
{
    let mut total: u64 = 0;
    for k in 0..count {
        total = total.saturating_add(begins.at(k));
    }
    total
}

/// The engine over the pool's workers, with a gate that they go through.
#[derive(Drop)]
pub struct PoolEngine<'g, G> {
    gate: &'g G,
    begins: u64,
}

impl<'g, G> Model for PoolEngine<'g, G> {
    ghost use Rattle.std.specs.Prelude.{ℕ};

    ghost Value = { ℕ };

    ghost view = { λ engine. engine.begins };
}

impl<'g, G: Gate> PoolEngine<'g, G> {
    /// An engine that has run nothing. It takes no memory.
    pub fn new(gate: &'g G) -> PoolEngine<'g, G>
        ensures { result ≡ 0 }
    {
        PoolEngine { gate, begins: 0 }
    }

    /// How often the domains of what it ran began. It takes no memory.
    pub fn begins(&self) -> u64
        ensures { result ≡ self.now }
    {
        self.begins
    }
}

impl<'g, G: Gate> Engine for PoolEngine<'g, G> {
    ghost begins = { λ engine. engine };

    type Door = G;

    fn door(&self) -> &G {
        self.gate
    }

    fn count(&mut self, more: u64) {
        self.begins = self.begins.saturating_add(more);
    }
}
