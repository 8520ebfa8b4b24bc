// The trait of machines: what each call does to one.
ghost use Rattle.std.specs.Prelude.{◌≡◌, ◌≢◌, ◌⊎◌, ◌-◌, [], ◌∷◌, ◌++◌, Some, IsSome, IfSome, true, OnOk, IfOk, All, length, take, drop, slice_get};
ghost use Rattle.cd_base.specs.Words.{in_range};
ghost use Rattle.cd_tree.specs.Operations.{length_of};
ghost use Rattle.cd_tree.specs.declared.event.Event.TheVariants.{Saved, Fell, Lapsed, Refilled, Halted, Found, Complete};
ghost use Rattle.cd_field.specs.FieldModel.{FieldModel, IsPresent, ArePresent, CanAbsorb, hits_at, loaded, told, begun, wrote, refilled_word, words_in, wrote_run, refilled_run, reached_point, gone_up, part_of, without, absorbed};

use cd_base::{NoMemory, Place, Places, Range};
use cd_tree::{Event, Kept, Kinds, NodeId, Regions, Script};

/// A machine: words at places, a record, notes of faults, and the script by which it strikes its own words.
///
/// No call fails but for want of memory, and after it the machine may only be dropped.
pub trait Field: Sized + Send + Drop {
    ghost model: { Self → FieldModel };

    /// Makes the regions' words, with nothing lost, no record and no notes.
    fn load(&mut self, regions: &Regions, script: &Script) -> Result<(), NoMemory>
        ensures { OnOk result (model self.new ≡ loaded regions.now script.now) };

    /// A domain begins.
    fn begin(&mut self, node: NodeId, number: u64) -> Result<(), NoMemory>
        ensures { OnOk result (model self.new ≡ begun (model self.old) node number) };

    /// The word of a place. It takes no memory.
    fn read(&self, place: Place) -> u64
        requires { IsPresent (model self.now) place }
        ensures { (model self.now).words place ≡ Some result };

    /// Changes the word of a place. It takes no memory.
    fn write(&mut self, place: Place, word: u64)
        requires { IsPresent (model self.old) place }
        ensures { model self.new ≡ wrote (model self.old) place word };

    /// Puts a word back, so that its place is present. It takes no memory.
    fn refill(&mut self, place: Place, word: u64)
        requires { IsSome ((model self.old).words place) }
        ensures { model self.new ≡ refilled_word (model self.old) place word };

    /// The words of a range in order, where the machine has them together and lends them; none is an answer of any machine.
    /// A range may be empty. It takes no memory.
    fn lent(&self, range: Range) -> Option<&[u64]>
        requires { ArePresent (model self.now) (range ∷ []) }
        ensures { IfSome result (λ lent. lent.now ≡ words_in (model self.now).words range) }
    {
        None
    }

    /// The words of a range in order, into a list of that length. A range may be empty. It takes no memory.
    #[inline(always)]
    fn read_run(&self, range: Range, words: &mut [u64])
        requires present { ArePresent (model self.now) (range ∷ []) }
        requires long { length words.old ≡ length_of range }
        ensures { words.new ≡ words_in (model self.now).words range }
    {
        if let Some(lent) = self.lent(range) {
            words.copy_from_slice(lent);
            return;
        }
        for index in range.low..range.high {
            words[(index - range.low) as usize] = self.read(Place {
                region: range.region,
                index,
            });
        }
    }

    /// The words of a range in order, without a copy where the machine lends them; else they are read into the room, which
    /// has that length. A range may be empty. It takes no memory.
    #[inline(always)]
    fn run<'a>(&'a self, range: Range, room: &'a mut [u64]) -> &'a [u64]
        requires present { ArePresent (model self.now) (range ∷ []) }
        requires long { length room.old ≡ length_of range }
        ensures { result.now ≡ words_in (model self.now).words range }
    {
        match self.lent(range) {
            Some(lent) => lent,
            None => {
                self.read_run(range, room);
                room
            }
        }
    }

    /// Changes the words of a range to those of a list of that length. A range may be empty. It takes no memory.
    fn write_run(&mut self, range: Range, words: &[u64])
        requires present { ArePresent (model self.old) (range ∷ []) }
        requires long { length words.now ≡ length_of range }
        ensures { model self.new ≡ wrote_run (model self.old) range words.now }
    {
        self.refill_run(range, words);
    }

    /// Puts the words of a range back from a list of that length, so that its places are present. A range may be empty.
    /// It takes no memory.
    fn refill_run(&mut self, range: Range, words: &[u64])
        requires known { (p : _) → in_range range p ≡ true → IsSome ((model self.old).words p) }
        requires long { length words.now ≡ length_of range }
        ensures { model self.new ≡ refilled_run (model self.old) range words.now }
    {
        for index in range.low..range.high {
            let place = Place {
                region: range.region,
                index,
            };
            self.refill(place, words[(index - range.low) as usize]);
        }
    }

    /// The domain in hand comes to a point: the script's faults for it strike, in order.
    fn reached(&mut self, point: u32) -> Result<(), NoMemory>
        requires { All (λ fault. IsPresent (model self.old) fault.place) (hits_at (model self.old) point) }
        ensures { OnOk result (model self.new ≡ reached_point (model self.old) point) };

    /// The kinds of the faults that struck since the last begin, and those that members leaked. It takes no memory.
    fn notes(&self) -> Kinds
        ensures { result ≡ (model self.now).notes };

    /// The domain in hand. It takes no memory.
    fn node(&self) -> NodeId
        ensures { result ≡ (model self.now).node };

    /// Puts an event last in the record.
    fn tell(&mut self, event: Event) -> Result<(), NoMemory>
        ensures { OnOk result (model self.new ≡ told (model self.old) event) };

    /// An entry was preserved.
    fn saved(&mut self, entry: u32, how: Kept) -> Result<(), NoMemory>
        ensures { OnOk result (model self.new ≡ told (model self.old) (Saved (model self.old).node entry how)) }
    {
        let node = self.node();
        self.tell(Event::Saved { node, entry, how })
    }

    /// The word of a place is not the one that its entry's pattern gives.
    fn fell(&mut self, entry: u32, place: Place, wanted: u64) -> Result<(), NoMemory>
        requires present { IsPresent (model self.old) place }
        requires differs { (model self.old).words place ≢ Some wanted }
        ensures { OnOk result ((found : _) → (model self.old).words place ≡ Some found → model self.new ≡ told (model self.old) (Fell (model self.old).node entry place wanted found)) }
    {
        let node = self.node();
        let found = self.read(place);
        self.tell(Event::Fell {
            node,
            entry,
            place,
            wanted,
            found,
        })
    }

    /// A shared copy was gone.
    fn lapsed(&mut self, entry: u32, seen: u64, found: u64) -> Result<(), NoMemory>
        requires { seen ≢ found }
        ensures { OnOk result (model self.new ≡ told (model self.old) (Lapsed (model self.old).node entry seen found)) }
    {
        let node = self.node();
        self.tell(Event::Lapsed {
            node,
            entry,
            seen,
            found,
        })
    }

    /// An entry's words were put back.
    fn refilled(&mut self, entry: u32) -> Result<(), NoMemory>
        ensures { OnOk result (model self.new ≡ told (model self.old) (Refilled (model self.old).node entry)) }
    {
        let node = self.node();
        self.tell(Event::Refilled { node, entry })
    }

    /// Halting kinds end the try.
    fn halted(&mut self, kinds: Kinds) -> Result<(), NoMemory>
        ensures { OnOk result (model self.new ≡ told (model self.old) (Halted (model self.old).node kinds)) }
    {
        let node = self.node();
        self.tell(Event::Halted { node, kinds })
    }

    /// The kinds that detection found.
    fn found(&mut self, kinds: Kinds) -> Result<(), NoMemory>
        ensures { OnOk result (model self.new ≡ told (model self.old) (Found (model self.old).node kinds)) }
    {
        let node = self.node();
        self.tell(Event::Found { node, kinds })
    }

    /// The domain completes.
    fn complete(&mut self) -> Result<(), NoMemory>
        ensures { OnOk result (model self.new ≡ told (model self.old) (Complete (model self.old).node)) }
    {
        let node = self.node();
        self.tell(Event::Complete { node })
    }

    /// The domain escalates; its notes vanish.
    fn escalate(&mut self) -> Result<(), NoMemory>
        ensures { OnOk result (model self.new ≡ gone_up (model self.old)) };

    /// Carves out a part that has the words of these places alone. The places that it writes are lost here until it is
    /// absorbed with commit, or they are refilled.
    fn carve(&mut self, reads: &Places, writes: &Places) -> Result<Self, NoMemory>
        requires reads { ArePresent (model self.old) reads.now }
        requires writes { ArePresent (model self.old) writes.now }
        ensures part { IfOk result (λ part. model part ≡ part_of (model self.old) reads.now writes.now) }
        ensures rest { OnOk result (model self.new ≡ without (model self.old) writes.now) };

    /// Takes a part back: its record always; with commit also its carved writes and its notes.
    fn absorb(&mut self, child: Self, commit: bool) -> Result<(), NoMemory>
        requires { CanAbsorb (model self.old) (model child) commit }
        ensures { OnOk result (model self.new ≡ absorbed (model self.old) (model child) commit) };

    /// The `k`-th event of the record, from 0; none at the record's length or above. It takes no memory.
    fn event(&self, k: u64) -> Option<Event>
        ensures { result ≡ slice_get (model self.now).events k };

    /// Puts the events of the record from the `from`-th on to below the `to`-th behind those of a list; where the record ends
    /// before, there are fewer. It gives many events in less time than `event` does.
    fn events(&self, from: u64, to: u64, list: &mut Vec<Event>) -> Result<(), NoMemory>
        ensures { OnOk result (list.new.items ≡ list.old.items ++ take (to - from) (drop from (model self.now).events)) }
    {
        for k in from..to {
            match self.event(k) {
                None => return Ok(()),
                Some(event) => list.push(event)?,
            }
        }
        Ok(())
    }
}
