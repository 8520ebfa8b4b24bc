// A layer of a pass: the words of its pieces in one list, in the order in which they were kept, and where each piece ends.
ghost use Rattle.std.specs.Prelude.{◌≡◌, ℕ, ◌+◌, ◌<◌, ◌≤◌, ◌^◌, ◌∷◌, ◌++◌, [], Some, IsSome, length, IfOk, OnOk, OnErr};
ghost use Rattle.cd_keep.specs.LayerModel.{AreEnds, begin_at, piece_in, empty_layer, pushed};

use cd_base::NoMemory;
use std::alloc::Global;
use std::marker::Model;

#[derive(Drop)]
pub(crate) struct Layer {
    words: Vec<u64>,
    ends: Vec<usize>,
}

impl Model for Layer {
    ghost use Rattle.cd_keep.specs.LayerModel.{LayerModel, AreEnds};

    ghost Value = { LayerModel };

    ghost view = { λ layer. record { words = layer.words.items; ends = layer.ends.items } };

    ghost invariant = { λ layer. AreEnds layer.words.items layer.ends.items };
}

impl Layer {
    // A layer without pieces.
    pub(crate) fn new(alloc: Global) -> Layer
        ensures { result ≡ empty_layer }
    {
        Layer {
            words: Vec::new(alloc),
            ends: Vec::new(alloc),
        }
    }

    // How many pieces there are.
    pub(crate) fn count(&self) -> usize
        ensures count { result ≡ length self.now.ends }
        ensures sound { AreEnds self.now.words self.now.ends }
    {
        self.ends.len()
    }

    // Puts a piece last, and gives its block.
    pub(crate) fn push(&mut self, piece: &[u64]) -> Result<u32, NoMemory>
        requires { length self.old.ends < 2 ^ 32 }
        ensures block { IfOk result (λ block. block ≡ length self.old.ends) }
        ensures layer { OnOk result (self.new ≡ pushed self.old piece.now) }
        ensures sound { AreEnds self.old.words self.old.ends }
        ensures unchanged { OnErr result (self.new ≡ self.old) }
    {
        let block = self.ends.len() as u32;
        self.ends.reserve(1)?;
        self.words.extend_from_slice(piece)?;
        self.ends.push_reserved(self.words.len());
        Ok(block)
    }

    // The words of a block's piece.
    pub(crate) fn words(&self, block: u32) -> &[u64]
        requires { IsSome (piece_in self.now block) }
        ensures { piece_in self.now block ≡ Some result.now }
    {
        let end = self.ends[block as usize];
        let begin = begin_of(self.ends.as_slice(), block as usize);
        &self.words[begin..end]
    }
}

// Where the piece of a block begins: where the one before ends.
fn begin_of(ends: &[usize], block: usize) -> usize
    requires { block < length ends.now }
    ensures { result ≡ begin_at ends.now block }
{
    if block == 0 { 0 } else { ends[block - 1] }
}
