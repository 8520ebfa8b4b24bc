// The plain machine, beside which the shipped one is tried.
ghost use Rattle.std.specs.Prelude.{◌≡◌, []};
ghost use Rattle.cd_field.specs.FieldModel.{loaded};
ghost use Rattle.cd_field.specs.Maps.{machine_of};

use crate::Field;
use crate::words::{
    PlaceSet, WordMap, add_places, first_words, remove_places, set_word, strike, take_words,
    words_at,
};
use cd_base::{NoMemory, Place, Places, Range};
use cd_tree::{Event, Fault, Kinds, NodeId, Regions, Script};
use std::alloc::Global;
use std::collections::{BTreeMap, BTreeSet};

/// The plain machine: its words and its lost places stand in ordered maps.
#[derive(Drop)]
pub struct MapField {
    words: WordMap,
    lost: PlaceSet,
    events: Vec<Event>,
    notes: Kinds,
    script: Vec<Fault>,
    node: NodeId,
    begin: u64,
    carved: Vec<Range>,
    alloc: Global,
}

impl MapField {
    /// The machine as it is loaded from no regions and no faults. It takes no memory.
    pub fn empty(alloc: Global) -> MapField
        ensures { machine_of result ≡ loaded [] [] }
    {
        MapField {
            words: BTreeMap::new(alloc),
            lost: BTreeSet::new(alloc),
            events: Vec::new(alloc),
            notes: Kinds::none(),
            script: Vec::new(alloc),
            node: NodeId(0),
            begin: 0,
            carved: Vec::new(alloc),
            alloc,
        }
    }
}

impl Field for MapField {
    ghost use Rattle.cd_field.specs.Maps.{machine_of};

    ghost model = { machine_of };

    fn load(&mut self, regions: &Regions, script: &Script) -> Result<(), NoMemory> {
        let words = first_words(self.alloc, regions.items())?;
        let script = script.items().to_vec(self.alloc)?;
        let mut field = MapField::empty(self.alloc);
        field.words = words;
        field.script = script;
        *self = field;
        Ok(())
    }

    fn begin(&mut self, node: NodeId, number: u64) -> Result<(), NoMemory> {
        self.events.push(Event::Begin { node, number })?;
        self.notes = Kinds::none();
        self.node = node;
        self.begin = number;
        Ok(())
    }

    fn read(&self, place: Place) -> u64 {
        let word = self.words.get(&place);
        *word.unwrap()
    }

    fn write(&mut self, place: Place, word: u64) {
        set_word(&mut self.words, place, word);
    }

    fn refill(&mut self, place: Place, word: u64) {
        set_word(&mut self.words, place, word);
        self.lost.remove(&place);
    }

    fn reached(&mut self, point: u32) -> Result<(), NoMemory> {
        let node = self.node;
        self.events.push(Event::Reached { node, point })?;
        let kinds = strike(
            &mut self.words,
            self.script.as_slice(),
            node,
            self.begin,
            point,
        )?;
        self.notes = self.notes.union(kinds);
        Ok(())
    }

    fn notes(&self) -> Kinds {
        self.notes
    }

    fn node(&self) -> NodeId {
        self.node
    }

    fn tell(&mut self, event: Event) -> Result<(), NoMemory> {
        self.events.push(event)?;
        Ok(())
    }

    fn escalate(&mut self) -> Result<(), NoMemory> {
        let node = self.node;
        self.events.push(Event::Escalate { node })?;
        self.notes = Kinds::none();
        Ok(())
    }

    fn carve(&mut self, reads: &Places, writes: &Places) -> Result<Self, NoMemory> {
        let mut part = MapField::empty(self.alloc);
        part.words = words_at(self.alloc, &self.words, reads.ranges(), writes.ranges())?;
        part.script = self.script.clone()?;
        part.carved = writes.ranges().to_vec(self.alloc)?;
        add_places(&mut self.lost, writes.ranges())?;
        Ok(part)
    }

    fn absorb(&mut self, child: Self, commit: bool) -> Result<(), NoMemory> {
        self.events.extend_from_slice(child.events.as_slice())?;
        if commit {
            take_words(&mut self.words, &child.words, child.carved.as_slice())?;
            remove_places(&mut self.lost, child.carved.as_slice());
            self.notes = self.notes.union(child.notes);
        }
        Ok(())
    }

    fn event(&self, k: u64) -> Option<Event> {
        self.events.get(k as usize).copied()
    }
}
