// What a pass over shared pointers knows: the layers that it shares with its relatives, and the layer that it keeps in. The
// serial of an id is the place of its layer, that of the latest being last, and the block the place in it.
ghost use Rattle.std.specs.Prelude.{◌≡◌, ◌<◌, ◌^◌, None, Some, IsSome, length, IfOk, OnOk, OnErr};
ghost use Rattle.cd_keep.specs.PassModel.{known_with, none_known};
ghost use Rattle.cd_keep.specs.LayerModel.{empty_layer};

use crate::KeepId;
use crate::layer::Layer;
use crate::layers::{Layers, list, put_last, share};
use cd_base::NoMemory;
use std::alloc::Global;
use std::mem;

#[derive(Drop)]
pub(crate) struct Kept {
    layers: Layers,
    latest: Layer,
    alloc: Global,
}

// How many pieces a layer has at most, so that the number of each is a block.
const MOST_PIECES: usize = 1 << 32;

impl Kept {
    ghost use Rattle.cd_keep.specs.Kept.{known_of};

    pub(crate) fn none(alloc: Global) -> Kept
        ensures { known_of result ≡ none_known }
    {
        Kept {
            layers: Layers::Own(Vec::new(alloc)),
            latest: Layer::new(alloc),
            alloc,
        }
    }

    // Keeps a piece under a new id.
    pub(crate) fn keep(&mut self, piece: &[u64]) -> Result<KeepId, NoMemory>
        ensures new { IfOk result (λ id. known_of self.old id ≡ None) }
        ensures known { IfOk result (λ id. known_of self.new ≡ known_with (known_of self.old) id piece.now) }
        ensures same { OnErr result (known_of self.new ≡ known_of self.old) }
    {
        self.take_one_more()?;
        let block = self.latest.push(piece)?;
        Ok(KeepId {
            block,
            serial: list(&self.layers).len() as u64,
        })
    }

    // Sees to it that the latest layer takes one piece more.
    fn take_one_more(&mut self) -> Result<(), NoMemory>
        ensures same { known_of self.new ≡ known_of self.old }
        ensures room { OnOk result (length self.new.latest.ends < 2 ^ 32) }
    {
        if self.latest.count() < MOST_PIECES {
            return Ok(());
        }
        self.close()
    }

    // Puts the latest layer to the others, and opens one without pieces.
    fn close(&mut self) -> Result<(), NoMemory>
        ensures same { known_of self.new ≡ known_of self.old }
        ensures latest { OnOk result (self.new.latest ≡ empty_layer) }
    {
        if self.latest.count() == 0 {
            return Ok(());
        }
        let full = mem::replace(&mut self.latest, Layer::new(self.alloc));
        match put_last(&mut self.layers, self.alloc, full) {
            Ok(()) => Ok(()),
            Err(back) => {
                self.latest = back;
                Err(NoMemory)
            }
        }
    }

    // The words of an id.
    pub(crate) fn words(&self, id: KeepId) -> &[u64]
        requires { IsSome (known_of self.now id) }
        ensures { known_of self.now id ≡ Some result.now }
    {
        match list(&self.layers).get(id.serial as usize) {
            Some(layer) => layer.words(id.block),
            None => self.latest.words(id.block),
        }
    }

    // The same for another pass.
    pub(crate) fn seen(&mut self) -> Result<Kept, NoMemory>
        ensures theirs { IfOk result (λ theirs. known_of theirs ≡ known_of self.old) }
        ensures same { known_of self.new ≡ known_of self.old }
    {
        self.close()?;
        let layers = Layers::Shared(share(&mut self.layers, self.alloc)?);
        Ok(Kept {
            layers,
            latest: Layer::new(self.alloc),
            alloc: self.alloc,
        })
    }
}
