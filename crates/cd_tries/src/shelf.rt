// What domains keep, shared with the domains below them.
ghost use Rattle.std.specs.Prelude.{◌≡◌, [], IfOk, slice_get};
ghost use Rattle.std.specs.Option.{option_copied};
ghost use Rattle.cd_tries.specs.Keeping.{pieces_in};

use crate::{Keep, Pieces};
use cd_base::{Items, NoMemory};
use cd_tree::NodeId;
use std::alloc::Global;
use std::marker::Model;
use std::sync::Arc;

/// The keeps of a domain by its entries, behind a shared pointer. Contracts see the list; before a domain has begun, and when
/// it has ended, it is empty.
#[derive(Drop)]
pub struct Shelf {
    keeps: Option<Arc<Items<Keep>, Global>>,
}

impl Model for Shelf {
    ghost use Rattle.std.specs.Prelude.{List, []};
    ghost use Rattle.std.specs.Option.{option_map_or};
    ghost use Rattle.std.specs.Arc.{arc_value};
    ghost use Rattle.cd_tries.specs.declared.keep.Keep.{Keep};

    ghost Value = { List Keep };

    ghost view = { λ shelf. option_map_or arc_value shelf.keeps [] };
}

impl Shelf {
    /// The empty shelf. It takes no memory.
    pub fn empty() -> Shelf
        ensures { result ≡ [] }
    {
        Shelf { keeps: None }
    }

    /// The shelf of a list of keeps.
    pub fn of(alloc: Global, keeps: Items<Keep>) -> Result<Shelf, NoMemory>
        ensures { IfOk result (λ shelf. shelf ≡ keeps) }
    {
        match Arc::new(alloc, keeps) {
            Ok(keeps) => Ok(Shelf { keeps: Some(keeps) }),
            Err(_) => Err(NoMemory),
        }
    }

    /// The keeps in the order of the entries. It takes no memory.
    pub fn keeps(&self) -> &[Keep]
        ensures { result.now ≡ self.now }
    {
        match &self.keeps {
            None => &[],
            Some(keeps) => keeps.items(),
        }
    }

    /// The pieces that are kept of an entry; none where it is kept by its pattern, or where there is no such entry. It takes no
    /// memory.
    pub fn pieces_at(&self, entry: u32) -> Option<&Pieces>
        ensures { option_copied result ≡ pieces_in (slice_get self.now entry) }
    {
        self.keeps().get(entry as usize)?.pieces()
    }

    /// The same shelf once more. It copies a pointer.
    pub fn share(&self) -> Result<Shelf, NoMemory>
        ensures { IfOk result (λ shelf. shelf ≡ self.now) }
    {
        match &self.keeps {
            None => Ok(Shelf { keeps: None }),
            Some(keeps) => {
                let keeps = Arc::try_clone(keeps)?;
                Ok(Shelf { keeps: Some(keeps) })
            }
        }
    }
}

/// What a domain keeps, as the domains below it see it.
#[derive(Drop)]
pub struct Level {
    pub node: NodeId,
    pub keeps: Shelf,
}
