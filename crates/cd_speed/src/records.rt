// Events that are told to the shipped machine, or put into a plain list, and read back.
use cd_base::NoMemory;
use cd_field::{Field, ScriptField};
use cd_tree::{Event, NodeId};
use std::alloc::Global;

/// Tells so many events, and reads them back where that is asked for. Gives the sum of what was read.
pub(crate) fn sum_of_told(alloc: Global, count: u32, reads: bool) -> Result<u64, NoMemory> {
    let mut field = ScriptField::empty(alloc);
    tell_each(&mut field, count)?;
    if reads {
        Ok(read_each(&field, count))
    } else {
        Ok(point_of(field.event(0)))
    }
}

/// The same with a plain list.
pub(crate) fn sum_of_list(alloc: Global, count: u32, reads: bool) -> Result<u64, NoMemory> {
    let mut list = Vec::new(alloc);
    for point in 0..count {
        list.push(event(point))?;
    }
    if reads {
        Ok(read_list(&list, count))
    } else {
        Ok(point_of(list.first().copied()))
    }
}

fn event(point: u32) -> Event {
    Event::Reached {
        node: NodeId(1),
        point,
    }
}

fn tell_each<F: Field>(field: &mut F, count: u32) -> Result<(), NoMemory> {
    for point in 0..count {
        field.tell(event(point))?;
    }
    Ok(())
}

fn read_each<F: Field>(field: &F, count: u32) -> u64 {
    let mut sum = 0u64;
    for k in 0..count {
        sum = sum.wrapping_add(point_of(field.event(u64::from(k))));
    }
    sum
}

fn read_list(list: &[Event], count: u32) -> u64 {
    let mut sum = 0u64;
    for k in 0..count {
        sum = sum.wrapping_add(point_of(list.get(k as usize).copied()));
    }
    sum
}

fn point_of(event: Option<Event>) -> u64 {
    match event {
        Some(Event::Reached { point, .. }) => u64::from(point),
        _ => 0,
    }
}
