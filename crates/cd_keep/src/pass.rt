// The trait of passes: what each call does to one.
ghost use Rattle.std.specs.Prelude.{◌≡◌, ◌+◌, ◌^◌, ◌<◌, ◌≤◌, None, Some, IsSome, length, slice_get, IfOk, OnOk, OnErr, MatchResult};
ghost use Rattle.cd_keep.specs.PassModel.{PassModel, IsPiece, AreShort, CanJoin, words_of, kept, shared, lapsed, gave_up, child_of, without, joined};

use crate::{GoneNote, KeepId};
use cd_base::NoMemory;
use std::sync::Wait;

/// A caller's pass to a store of preserved words: what it holds there, what it has seen, and its room, the number of holds
/// that it may still take. Several holds may be of one id.
///
/// After want of memory a pass is as it was. Every call keeps the room that the first pass was opened with, which bounds
/// what a pass holds together with its room; so where all room comes from one opening, counts stay below 2^32, and those
/// of passes that are taken back are together within it.
pub trait Pass: Sized + Send + Drop {
    ghost model: { Self → PassModel };

    /// Keeps words under an id that this pass neither holds nor has seen, and holds it once. It may wait.
    fn keep<R: Wait>(&mut self, rt: &R, words: &[u64]) -> Result<KeepId, NoMemory>
        requires piece { IsPiece words.now }
        requires room { 0 < (model self.old).room }
        ensures new { IfOk result (λ id. (model self.old).known id ≡ None) }
        ensures kept { IfOk result (λ id. model self.new ≡ kept (model self.old) id words.now) }
        ensures unchanged { OnErr result (model self.new ≡ model self.old) };

    /// Splits off a pass of the same store that holds nothing, knows what this one knows, and takes `room` of its room.
    fn split(&mut self, room: u32) -> Result<Self, NoMemory>
        requires { room ≤ (model self.old).room }
        ensures child { IfOk result (λ child. model child ≡ child_of (model self.old) room) }
        ensures rest { OnOk result (model self.new ≡ without (model self.old) room) }
        ensures unchanged { OnErr result (model self.new ≡ model self.old) };

    /// Holds a known id once more. The error, called Gone, says that its words are no longer there. It takes no memory.
    fn share(&mut self, seen: KeepId) -> Result<(), GoneNote>
        requires known { IsSome ((model self.old).known seen) }
        requires room { 0 < (model self.old).room }
        ensures { MatchResult result (λ _. model self.new ≡ shared (model self.old) seen) (λ note. model self.new ≡ lapsed (model self.old) seen note) };

    /// The `i`-th word, from 0, of an id that is held. It takes no memory.
    fn word(&mut self, id: KeepId, i: u32) -> u64
        requires held { 0 < (model self.old).holds id }
        requires within { i < length (words_of (model self.old) id) }
        ensures word { slice_get (words_of (model self.old) id) i ≡ Some result }
        ensures same { model self.new ≡ model self.old };

    /// The words of an id that is held, into a slice of as many. It takes no memory.
    fn fetch(&mut self, id: KeepId, words: &mut [u64])
        requires held { 0 < (model self.old).holds id }
        requires length { length words.old ≡ length (words_of (model self.old) id) }
        ensures words { words.new ≡ words_of (model self.old) id }
        ensures same { model self.new ≡ model self.old }
    {
        for (i, word) in words.iter_mut().enumerate() {
            *word = self.word(id, i as u32);
        }
    }

    /// Gives up one hold of an id; the id stays known. It takes no memory.
    fn give_up(&mut self, id: KeepId)
        requires { 0 < (model self.old).holds id }
        ensures { model self.new ≡ gave_up (model self.old) id };

    /// Takes back a pass of the same store that holds nothing: its room and its gone answers. It takes no memory.
    fn join(&mut self, child: Self)
        requires { CanJoin (model self.old) (model child) }
        ensures { model self.new ≡ joined (model self.old) (model child) };

    // Laws of every pass: what it holds and its room are together within the room at opening, that is a number of 32 bits,
    // and no id has more words than one keep takes.
    ghost within: { (p : Self) → (model p).held + (model p).room ≤ (model p).most };

    ghost few: { (p : Self) → (model p).most < 2 ^ 32 };

    ghost short: { (p : Self) → AreShort (model p).known };
}
