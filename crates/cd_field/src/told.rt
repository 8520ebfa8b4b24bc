// An event as the shipped machine's record has it, in 16 bytes.
ghost use Rattle.std.specs.Prelude.{◌≡◌, IfOk};
ghost use Rattle.cd_field.specs.EventLists.{event_told};

use cd_base::NoMemory;
use cd_tree::{Event, Kept, Kinds, NodeId};
use std::alloc::Global;
use std::mem::size_of;

const _: () = prove!(size_of::<Told>() == 16);

/// An event. The rare ones that tell two words stand elsewhere, each in a room of its own.
#[derive(Drop)]
pub(crate) enum Told {
    Begin { node: NodeId, number: u64 },
    Saved { node: NodeId, entry: u32, how: Kept },
    Refilled { node: NodeId, entry: u32 },
    Reached { node: NodeId, point: u32 },
    Halted { node: NodeId, kinds: Kinds },
    Found { node: NodeId, kinds: Kinds },
    Complete { node: NodeId },
    Escalate { node: NodeId },
    Wide(Box<Event>),
}

impl Told {
    /// An event as it is kept.
    #[inline(always)]
    pub(crate) fn of(alloc: Global, event: Event) -> Result<Told, NoMemory>
        ensures { IfOk result (λ told. event_told told ≡ event) }
    {
        match event {
            Event::Begin { node, number } => Ok(Told::Begin { node, number }),
            Event::Saved { node, entry, how } => Ok(Told::Saved { node, entry, how }),
            Event::Refilled { node, entry } => Ok(Told::Refilled { node, entry }),
            Event::Reached { node, point } => Ok(Told::Reached { node, point }),
            Event::Halted { node, kinds } => Ok(Told::Halted { node, kinds }),
            Event::Found { node, kinds } => Ok(Told::Found { node, kinds }),
            Event::Complete { node } => Ok(Told::Complete { node }),
            Event::Escalate { node } => Ok(Told::Escalate { node }),
            Event::Fell { .. } | Event::Lapsed { .. } => wide(alloc, event),
        }
    }

    /// The event. It takes no memory.
    #[inline(always)]
    pub(crate) fn event(&self) -> Event
        ensures { result ≡ event_told self.now }
    {
        match self {
            Told::Begin { node, number } => Event::Begin {
                node: *node,
                number: *number,
            },
            Told::Saved { node, entry, how } => Event::Saved {
                node: *node,
                entry: *entry,
                how: *how,
            },
            Told::Refilled { node, entry } => Event::Refilled {
                node: *node,
                entry: *entry,
            },
            Told::Reached { node, point } => Event::Reached {
                node: *node,
                point: *point,
            },
            Told::Halted { node, kinds } => Event::Halted {
                node: *node,
                kinds: *kinds,
            },
            Told::Found { node, kinds } => Event::Found {
                node: *node,
                kinds: *kinds,
            },
            Told::Complete { node } => Event::Complete { node: *node },
            Told::Escalate { node } => Event::Escalate { node: *node },
            Told::Wide(event) => **event,
        }
    }
}

// An event in a room of its own.
fn wide(alloc: Global, event: Event) -> Result<Told, NoMemory>
    ensures { IfOk result (λ told. event_told told ≡ event) }
{
    let room = Box::new(alloc, event)?;
    Ok(Told::Wide(room))
}
