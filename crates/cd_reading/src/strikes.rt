// The faults of a script by the domain and the begin at which they strike, and the kinds that strike at a point.
ghost use Rattle.std.specs.Prelude.{◌≡◌, ◌≢◌, ◌↔◌, ◌==◌, ◌<◌, ◌≤◌, ◌^◌, ℕ, List, Some, false, All, IsTrue, filter, length, slice_get, IfOk, OnOk};
ghost use Rattle.cd_tree.specs.Scripts.{kinds_of};
ghost use Rattle.cd_tree.specs.declared.document.Fault.{Fault};
ghost use Rattle.cd_reading.specs.Strikes.{strikes_in, AreStruck, AreAllStruck, AreMarks};
ghost use Rattle.cd_reading.specs.declared.strikes.Struck.{Struck};

use cd_base::{Items, NoMemory};
use cd_tree::{Fault, Kinds, NodeId, Script};
use std::alloc::Global;

// The faults of one begin of a domain, in script order.
#[derive(Drop)]
pub(crate) struct Struck {
    begin: u64,
    faults: Items<Fault>,
}

// For each of so many domains, the faults of each of its begins. Only a domain that a fault names is compared with each.
pub(crate) fn all_struck(
    alloc: Global,
    script: &Script,
    count: u32,
) -> Result<Vec<Items<Struck>>, NoMemory>
    ensures size { IfOk result (λ domains. length domains.items ≡ count) }
    ensures few { OnOk result (length script.now < 2 ^ 32) }
    ensures struck { IfOk result (λ domains. AreAllStruck script.now domains.items) }
{
    let faults = script.items();
    let marks = marks_of(alloc, faults, count)?;
    let mut domains = Vec::new(alloc);
    for id in 0..count {
        domains.push(struck_where(alloc, faults, NodeId(id), &marks)?)?;
    }
    Ok(domains)
}

// The faults of each begin of a domain, which has none where it is not marked.
fn struck_where(
    alloc: Global,
    faults: &[Fault],
    node: NodeId,
    marks: &[bool],
) -> Result<Items<Struck>, NoMemory>
    requires few { length faults.now < 2 ^ 32 }
    requires node { node.0 < length marks.now }
    requires marks { AreMarks faults.now marks.now }
    ensures { IfOk result (AreStruck faults.now node.0) }
{
    if marks[node.0 as usize] {
        struck_of(alloc, faults, node)
    } else {
        Ok(Items::new(alloc))
    }
}

// Which of so many domains are named by a fault.
fn marks_of(alloc: Global, faults: &[Fault], count: u32) -> Result<Vec<bool>, NoMemory>
    ensures size { IfOk result (λ marks. length marks.items ≡ count) }
    ensures marks { IfOk result (λ marks. AreMarks faults.now marks.items) }
{
    let mut marks = no_marks(alloc, count)?;
    for fault in faults {
        mark(&mut marks, fault.node);
    }
    Ok(marks)
}

// So many marks, none of them set.
fn no_marks(alloc: Global, count: u32) -> Result<Vec<bool>, NoMemory>
    ensures { IfOk result (λ marks. length marks.items ≡ count) }
{
    let mut marks = Vec::new(alloc);
    for _ in 0..count {
        marks.push(false)?;
    }
    Ok(marks)
}

// Marks a domain, where it is among those that have a mark.
fn mark(marks: &mut Vec<bool>, node: NodeId)
    ensures size { length marks.new.items ≡ length marks.old.items }
    ensures marked { (id : ℕ) → slice_get marks.new.items id ≡ Some false → (node.0 ≢ id) × (slice_get marks.old.items id ≡ Some false) }
{
    let index = node.0 as usize;
    if index < marks.len() {
        marks[index] = true;
    }
}

// The faults of each begin of a domain.
fn struck_of(alloc: Global, faults: &[Fault], node: NodeId) -> Result<Items<Struck>, NoMemory>
    requires { length faults.now < 2 ^ 32 }
    ensures { IfOk result (AreStruck faults.now node.0) }
{
    let mut begins = Items::new(alloc);
    for fault in faults {
        if fault.node.0 == node.0 && is_new(begins.items(), fault.begin) {
            begins.push(one_struck(alloc, faults, node, fault.begin)?)?;
        }
    }
    Ok(begins)
}

// Whether none of these begins has this number.
fn is_new(begins: &[Struck], begin: u64) -> bool
    ensures { IsTrue result ↔ All (λ (struck : Struck). struck.begin ≢ begin) begins.now }
{
    begins.iter().all(|struck| struck.begin != begin)
}

// The faults of one begin of a domain.
fn one_struck(alloc: Global, faults: &[Fault], node: NodeId, begin: u64) -> Result<Struck, NoMemory>
    requires { length faults.now < 2 ^ 32 }
    ensures begin { IfOk result (λ struck. struck.begin ≡ begin) }
    ensures faults { IfOk result (λ struck. struck.faults ≡ filter (strikes_in node.0 begin) faults.now) }
{
    let mut own = Items::new(alloc);
    for fault in faults {
        if strikes_in(fault, node, begin) {
            own.push(*fault)?;
        }
    }
    Ok(Struck { begin, faults: own })
}

// Whether a fault strikes in this begin of this domain.
fn strikes_in(fault: &Fault, node: NodeId, begin: u64) -> bool
    ensures { result ≡ strikes_in node.0 begin fault.now }
{
    fault.node.0 == node.0 && fault.begin == begin
}

// The faults of a domain's begin with this number.
pub(crate) fn struck_in(begins: &[Struck], begin: u64) -> &[Fault]
    ensures { (faults : List Fault) (node : ℕ) → AreStruck faults node begins.now → result.now ≡ filter (strikes_in node begin) faults }
{
    for struck in begins {
        if struck.begin == begin {
            return struck.faults.items();
        }
    }
    &[]
}

// The kinds of the faults that strike at a point.
pub(crate) fn kinds_at(faults: &[Fault], point: u32) -> Kinds
    ensures { result ≡ kinds_of (filter (λ (fault : Fault). fault.item == point) faults.now) }
{
    let mut kinds = Kinds::none();
    for fault in faults {
        if fault.item == point {
            kinds = kinds.with(fault.kind);
        }
    }
    kinds
}
