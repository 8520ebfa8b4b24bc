//! Gates: two members of a group that are kept until both are in hand.

use super::calls::words_of;
use super::texts::MEMBERS;
use cd_app::run_cd;
use cd_base::{MemorySink, MemorySource};
use cd_field::MapField;
use cd_pool::{HoldingGate, PoolEngine};
use cd_tree::NodeId;
use std::alloc::Global;
use std::sync::Wait;
use std::test::Fail;
use std::thread::Threads;

// A run of two members by so many workers, through a gate that keeps each until the other is there, for at most so many turns: its
// status, and whether the turns were used up.
fn held<R: Threads + Wait + Sync>(
    rt: &R,
    alloc: Global,
    workers: &str,
    turns: u64,
) -> Result<(u8, bool), Fail> {
    let gate = HoldingGate::new(NodeId(1), NodeId(2), turns);
    let mut engine = PoolEngine::new(&gate);
    let words = words_of(alloc, &["run", workers])?;
    let text = Vec::from_slice(alloc, MEMBERS.as_bytes())?;
    let mut source = MemorySource::new(text, 4096, Vec::new(alloc));
    let mut sink = MemorySink::new(alloc, 4096, Vec::new(alloc));
    let mut machine = MapField::empty(alloc);
    let status = run_cd(
        rt,
        alloc,
        &words,
        &mut source,
        &mut sink,
        &mut machine,
        &mut engine,
    );
    Ok((status.code(), gate.ran_out()))
}

#[test]
fn two_workers_have_two_members_in_hand_at_once(rt: HostRuntime) -> Result<(), Fail> {
    let (status, ran_out) = held(&rt, rt.alloc(), "--workers=2", 20_000_000)?;
    if status != 0 || ran_out {
        return Err(Fail::new("the members ran one after the other"));
    }
    Ok(())
}

#[test]
fn one_worker_has_one_member_in_hand(rt: HostRuntime) -> Result<(), Fail> {
    let (status, ran_out) = held(&rt, rt.alloc(), "--workers=1", 5)?;
    if status != 0 || !ran_out {
        return Err(Fail::new("both members were in hand at once"));
    }
    Ok(())
}
