// The machine that the program ships.
ghost use Rattle.std.specs.Prelude.{◌≡◌, [], ◌∷◌, false, IsSome, IfSome};
ghost use Rattle.cd_field.specs.FaultOrder.{IsCalm};
ghost use Rattle.cd_field.specs.SharedFaults.{script_of};
ghost use Rattle.cd_field.specs.FieldModel.{loaded, words_in, ArePresent};

use crate::Field;
use crate::event_list::EventList;
use crate::flat_parts::{first_flat, mark_ranges, strike_flat, take_ranges, union_of};
use crate::flat_words::FlatWords;
use crate::shared_faults::{SharedFaults, are_due, faults_of, hits, share_faults};
use cd_base::{NoMemory, Place, Places, Range};
use cd_tree::{Event, Kinds, NodeId, Regions, Script};
use std::alloc::Global;

/// The shipped machine. Its words stand in a list for each region, found by the region's number; a part shares them with the
/// machine that it was carved from until one of them changes there or here. The script is shared by all parts. An
/// event takes 16 bytes, and a record of many is handed over part by part.
#[derive(Drop)]
pub struct ScriptField {
    words: FlatWords,
    events: EventList,
    notes: Kinds,
    faults: SharedFaults,
    node: NodeId,
    begin: u64,
    // Whether faults may be due at this begin; where none are, a point looks for none.
    due: bool,
    carved: Vec<Range>,
    alloc: Global,
    ghost calm: { due ≡ false → IsCalm (script_of faults) node begin },
}

impl ScriptField {
    ghost use Rattle.cd_field.specs.FlatMachine.{flat_machine};

    /// The machine as it is loaded from no regions and no faults. It takes no memory.
    pub fn empty(alloc: Global) -> ScriptField
        ensures { flat_machine result ≡ loaded [] [] }
    {
        ScriptField {
            words: FlatWords::new(alloc),
            events: EventList::new(alloc),
            notes: Kinds::none(),
            faults: None,
            node: NodeId(0),
            begin: 0,
            due: true,
            carved: Vec::new(alloc),
            alloc,
        }
    }
}

impl Field for ScriptField {
    ghost use Rattle.cd_field.specs.FlatMachine.{flat_machine};

    ghost model = { flat_machine };

    fn load(&mut self, regions: &Regions, script: &Script) -> Result<(), NoMemory> {
        let words = first_flat(self.alloc, regions.items())?;
        let faults = faults_of(self.alloc, script.items())?;
        let mut field = ScriptField::empty(self.alloc);
        field.words = words;
        field.due = true;
        field.faults = faults;
        *self = field;
        Ok(())
    }

    fn begin(&mut self, node: NodeId, number: u64) -> Result<(), NoMemory> {
        self.events.push(Event::Begin { node, number })?;
        let due = are_due(&self.faults, node, number);
        self.notes = Kinds::none();
        self.node = node;
        self.begin = number;
        self.due = due;
        Ok(())
    }

    fn read(&self, place: Place) -> u64 {
        self.words.word(place)
    }

    fn write(&mut self, place: Place, word: u64) {
        self.words.set(place, word);
    }

    fn refill(&mut self, place: Place, word: u64) {
        self.words.put_back(place, word);
    }

    #[inline(always)]
    fn lent(&self, range: Range) -> Option<&[u64]>
        requires { ArePresent (flat_machine self.now) (range ∷ []) }
        ensures lends { IsSome result }
        ensures words { IfSome result (λ lent. lent.now ≡ words_in (flat_machine self.now).words range) }
    {
        Some(self.words.run(range))
    }

    fn write_run(&mut self, range: Range, words: &[u64]) {
        self.words.write_run(range, words);
    }

    fn refill_run(&mut self, range: Range, words: &[u64]) {
        self.words.put_back_run(range, words);
    }

    fn reached(&mut self, point: u32) -> Result<(), NoMemory> {
        let node = self.node;
        self.events.push(Event::Reached { node, point })?;
        if self.due {
            let struck = hits(&self.faults, node, self.begin, point);
            let kinds = strike_flat(&mut self.words, struck);
            self.notes = self.notes.union(kinds);
        }
        Ok(())
    }

    fn notes(&self) -> Kinds {
        self.notes
    }

    fn node(&self) -> NodeId {
        self.node
    }

    fn tell(&mut self, event: Event) -> Result<(), NoMemory> {
        self.events.push(event)?;
        Ok(())
    }

    fn escalate(&mut self) -> Result<(), NoMemory> {
        let node = self.node;
        self.events.push(Event::Escalate { node })?;
        self.notes = Kinds::none();
        Ok(())
    }

    fn carve(&mut self, reads: &Places, writes: &Places) -> Result<Self, NoMemory> {
        let reach = union_of(self.alloc, reads, writes)?;
        let mut part = ScriptField::empty(self.alloc);
        part.words = self.words.part(self.alloc, reach.ranges())?;
        part.due = true;
        part.faults = share_faults(&self.faults)?;
        part.carved = writes.ranges().to_vec(self.alloc)?;
        mark_ranges(&mut self.words, writes.ranges())?;
        Ok(part)
    }

    fn absorb(&mut self, child: Self, commit: bool) -> Result<(), NoMemory> {
        let ScriptField {
            words,
            events,
            notes,
            carved,
            ..
        } = child;
        self.events.append(events)?;
        if commit {
            take_ranges(&mut self.words, &words, carved.as_slice());
            self.notes = self.notes.union(notes);
        }
        Ok(())
    }

    fn event(&self, k: u64) -> Option<Event> {
        self.events.get(k)
    }

    fn events(&self, from: u64, to: u64, list: &mut Vec<Event>) -> Result<(), NoMemory> {
        self.events.copy(from, to, list)
    }
}
