// A list of events that grows without copying what it has: parts of many events are only ever moved.
ghost use Rattle.std.specs.Prelude.{◌≡◌, ◌++◌, ◌∷◌, [], ◌+◌, ◌-◌, ◌<◌, ◌≤◌, length, min, take, drop, IfOk, OnOk, slice_get, option_map};
ghost use Rattle.cd_field.specs.EventLists.{before_part, event_told, events_told, events_in, events_of, IsNumbered};

use crate::told::Told;
use cd_base::NoMemory;
use cd_tree::Event;
use std::alloc::Global;

// A part takes no more events than this; so many are copied at most where it grows.
const FULL: usize = 1024;

/// Some events of a list, and how many stand before them.
#[derive(Drop)]
pub(crate) struct Part {
    first: u128,
    events: Vec<Told>,
}

/// Parts one after another, and the number of their events. Wide numbers count them, since lists may be joined without end.
#[derive(Drop)]
pub(crate) struct Parts {
    parts: Vec<Part>,
    count: u128,
    ghost numbered: { IsNumbered parts.items count },
}

impl Parts {
    ghost use Rattle.cd_field.specs.EventLists.{IsNumbered};

    fn new(alloc: Global) -> Parts
        ensures { events_in result.parts.items ≡ [] }
    {
        Parts {
            parts: Vec::new(alloc),
            count: 0,
        }
    }

    /// Adds events behind all others.
    fn add(&mut self, events: Vec<Told>) -> Result<(), NoMemory>
        ensures { OnOk result (events_in self.new.parts.items ≡ events_in self.old.parts.items ++ events_told events.items) }
    {
        let first = self.count;
        let count = first + events.len() as u128;
        self.parts.push(Part { first, events })?;
        self.count = count;
        Ok(())
    }

    /// The events from the k-th on, from 0, up to the end of its part.
    fn rest(&self, k: u64) -> &[Told]
        requires { k < self.now.count }
        ensures { (0 < length result.now) × (events_told result.now ≡ take (length result.now) (drop k (events_in self.now.parts.items))) }
    {
        let k = u128::from(k);
        let i = find_part(self.parts.as_slice(), self.count, k);
        let part = &self.parts[i];
        behind(part.events.as_slice(), (k - part.first) as usize)
    }
}

// The part that has the k-th event: half of what is left goes at each look.
fn find_part(parts: &[Part], count: u128, k: u128) -> usize
    requires numbered { IsNumbered parts.now count }
    requires within { k < count }
    ensures here { result < length parts.now }
    ensures first { before_part parts.now result ≤ k }
    ensures next { k < before_part parts.now (result + 1) }
{
    let mut low = 0;
    let mut high = parts.len();
    while high - low > 1 {
        let middle = low + (high - low) / 2;
        if parts[middle].first <= k {
            low = middle;
        } else {
            high = middle;
        }
    }
    low
}

/// A list of events in parts, and the latest of them.
#[derive(Drop)]
pub(crate) struct EventList {
    parts: Parts,
    latest: Vec<Told>,
    alloc: Global,
}

impl EventList {
    /// The empty list. It takes no memory.
    pub(crate) fn new(alloc: Global) -> EventList
        ensures { events_of result.parts.parts.items result.latest.items ≡ [] }
    {
        EventList {
            parts: Parts::new(alloc),
            latest: Vec::new(alloc),
            alloc,
        }
    }

    /// Puts an event last.
    #[inline(always)]
    pub(crate) fn push(&mut self, event: Event) -> Result<(), NoMemory>
        ensures { OnOk result (events_of self.new.parts.parts.items self.new.latest.items ≡ events_of self.old.parts.parts.items self.old.latest.items ++ event ∷ []) }
    {
        if self.latest.len() >= FULL {
            self.close()?;
        }
        let told = Told::of(self.alloc, event)?;
        self.latest.push(told)?;
        Ok(())
    }

    /// Puts the events of another list behind those of this one, part by part.
    pub(crate) fn append(&mut self, other: EventList) -> Result<(), NoMemory>
        ensures { OnOk result (events_of self.new.parts.parts.items self.new.latest.items ≡ events_of self.old.parts.parts.items self.old.latest.items ++ events_of other.parts.parts.items other.latest.items) }
    {
        let EventList { parts, latest, .. } = other;
        let Parts { parts, .. } = parts;
        for part in parts {
            let Part { events, .. } = part;
            self.join(events)?;
        }
        self.join(latest)?;
        Ok(())
    }

    /// The k-th event, from 0. It takes no memory.
    pub(crate) fn get(&self, k: u64) -> Option<Event>
        ensures { result ≡ slice_get (events_of self.now.parts.parts.items self.now.latest.items) k }
    {
        first_of(self.rest(k))
    }

    /// Puts the events from one on to below another behind those of a list.
    pub(crate) fn copy(&self, from: u64, to: u64, list: &mut Vec<Event>) -> Result<(), NoMemory>
        ensures { OnOk result (list.new.items ≡ list.old.items ++ take (to - from) (drop from (events_of self.now.parts.parts.items self.now.latest.items))) }
    {
        let mut k = from;
        while k < to {
            let rest = self.rest(k);
            let count = add_front(rest, to - k, list)?;
            if count == 0 {
                return Ok(());
            }
            k += count;
        }
        Ok(())
    }

    // Events that stand together: those from the k-th on, none at the end of the list.
    fn rest(&self, k: u64) -> &[Told]
        ensures front { events_told result.now ≡ take (length result.now) (drop k (events_of self.now.parts.parts.items self.now.latest.items)) }
        ensures end { length result.now ≡ 0 → drop k (events_of self.now.parts.parts.items self.now.latest.items) ≡ [] }
    {
        let count = self.parts.count;
        if u128::from(k) < count {
            self.parts.rest(k)
        } else {
            behind(self.latest.as_slice(), (u128::from(k) - count) as usize)
        }
    }

    // Puts events last: they join the latest where both are few, and are the latest otherwise. So two parts in a row have more
    // than a part may have.
    fn join(&mut self, events: Vec<Told>) -> Result<(), NoMemory>
        ensures { OnOk result (events_of self.new.parts.parts.items self.new.latest.items ≡ events_of self.old.parts.parts.items self.old.latest.items ++ events_told events.items) }
    {
        let mut events = events;
        if self.latest.len() + events.len() <= FULL {
            self.latest.append(&mut events)?;
            return Ok(());
        }
        self.close()?;
        self.latest = events;
        Ok(())
    }

    // The latest events become a part.
    fn close(&mut self) -> Result<(), NoMemory>
        ensures events { OnOk result (events_in self.new.parts.parts.items ≡ events_of self.old.parts.parts.items self.old.latest.items) }
        ensures latest { OnOk result (self.new.latest.items ≡ []) }
    {
        if self.latest.is_empty() {
            return Ok(());
        }
        let latest = std::mem::replace(&mut self.latest, Vec::new(self.alloc));
        self.parts.add(latest)?;
        Ok(())
    }
}

// The first of some events.
#[inline(always)]
fn first_of(events: &[Told]) -> Option<Event>
    ensures { result ≡ option_map event_told (slice_get events.now 0) }
{
    match events.first() {
        Some(told) => Some(told.event()),
        None => None,
    }
}

// The events from the k-th on.
fn behind(events: &[Told], k: usize) -> &[Told]
    ensures { result.now ≡ drop k events.now }
{
    if k < events.len() { &events[k..] } else { &[] }
}

// Puts the first of some events behind those of a list, and no more than a number of them. Gives how many.
fn add_front(events: &[Told], most: u64, list: &mut Vec<Event>) -> Result<u64, NoMemory>
    ensures count { IfOk result (λ count. count ≡ min most (length events.now)) }
    ensures items { IfOk result (λ count. list.new.items ≡ list.old.items ++ events_told (take count events.now)) }
{
    let count = most.min(events.len() as u64);
    add_all(&events[..count as usize], list)?;
    Ok(count)
}

// Puts events behind those of a list.
fn add_all(events: &[Told], list: &mut Vec<Event>) -> Result<(), NoMemory>
    ensures { OnOk result (list.new.items ≡ list.old.items ++ events_told events.now) }
{
    for told in events {
        list.push(told.event())?;
    }
    Ok(())
}
