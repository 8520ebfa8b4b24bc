//! The draft of a document, and the changes that statements make to it.
ghost use Rattle.std.specs.Prelude.{◌≡◌, ◌+◌, ◌<◌, ◌^◌, ◌++◌, ◌∷◌, [], length, IfOk, OnOk, Ok, slice_get, Some};
ghost use Rattle.cd_tokens.specs.Steps.{Reads, Steps};
ghost use Rattle.cd_parse.specs.Draft.{no_draft, is_start, takes_kinds, takes_regions, is_closed, takes_strikes, may_end, is_open, takes_items, is_empty_body, takes_entries, takes_domains, innermost, parent_of, add_item, add_entry, named, entered, add_domain, open_group};
ghost use Rattle.cd_parse.specs.Heads.{entries_of, room_in, room_for_domain, ended_in, ended};
ghost use Rattle.cd_parse.specs.Parsing.{counted};
ghost use Rattle.cd_parse.specs.Rooms.{HaveRoom};

use crate::marked::MarkedDomains;
use cd_base::{Items, NoMemory};
use cd_tokens::{Stop, Wrong, room};
use cd_tree::{
    Domain, Entry, Item, KindName, NodeId, RawScript, Refusal, Refuse, Regions, Which, limits,
};
use std::alloc::{AllocError, Global};
use std::marker::Model;

/// What the statements so far have come to.
#[derive(Debug, Clone, Copy, PartialEq, Eq)]
pub(crate) enum Stage {
    /// Nothing is said yet.
    Start,
    /// After `cd 2`: kinds, regions or the root may follow.
    Kinds,
    /// After `cd 1`, or after a region: regions or the root may follow.
    Regions,
    /// In the root.
    Root,
    /// After the root.
    Closed,
    /// After `faults`.
    Strikes,
}

impl Stage {
    pub(crate) fn is_start(self) -> bool
        ensures { result ≡ is_start self }
    {
        matches!(self, Stage::Start)
    }

    pub(crate) fn takes_kinds(self) -> bool
        ensures { result ≡ takes_kinds self }
    {
        matches!(self, Stage::Kinds)
    }

    pub(crate) fn takes_regions(self) -> bool
        ensures { result ≡ takes_regions self }
    {
        matches!(self, Stage::Kinds | Stage::Regions)
    }

    pub(crate) fn is_closed(self) -> bool
        ensures { result ≡ is_closed self }
    {
        matches!(self, Stage::Closed)
    }

    pub(crate) fn takes_strikes(self) -> bool
        ensures { result ≡ takes_strikes self }
    {
        matches!(self, Stage::Strikes)
    }

    pub(crate) fn may_end(self) -> bool
        ensures { result ≡ may_end self }
    {
        matches!(self, Stage::Closed | Stage::Strikes)
    }
}

/// A domain that is open, by its number, and the members so far of its open group, where it has one.
#[derive(Drop)]
pub(crate) struct Level {
    pub domain: u32,
    pub group: Option<Items<NodeId>>,
}

/// The draft of a document: what the statements so far have said.
#[derive(Drop)]
pub(crate) struct Draft {
    /// Statements and turns of loops.
    pub lines: u32,
    pub stage: Stage,
    pub version: u32,
    pub kinds: Items<KindName>,
    pub regions: Regions,
    /// The lengths of all regions.
    pub words: u64,
    /// The domains in preorder, with all groups that are closed.
    pub domains: MarkedDomains,
    /// The domains that are open, the outermost first.
    pub levels: Vec<Level>,
    /// The items of all domains, with the groups that are open.
    pub items: u32,
    /// The entries of all domains.
    pub preserves: u32,
    pub faults: RawScript,
}

impl Model for Draft {
    ghost use Rattle.std.specs.Prelude.{reverse};
    ghost use Rattle.cd_parse.specs.Draft.{DraftModel};

    ghost Value = { DraftModel };

    ghost view = { λ it. record { lines = it.lines; stage = it.stage; version = it.version; kinds = it.kinds; regions = it.regions; words = it.words; domains = it.domains; levels = reverse it.levels.items; items = it.items; preserves = it.preserves; faults = it.faults } };
}

impl Draft {
    /// The draft before the first statement.
    pub(crate) fn new(alloc: Global) -> Result<Draft, AllocError>
        ensures { IfOk result (λ draft. draft ≡ no_draft) }
    {
        let domains = MarkedDomains::new(alloc)?;
        Ok(Draft {
            lines: 0,
            stage: Stage::Start,
            version: 1,
            kinds: Items::new(alloc),
            regions: Items::new(alloc),
            words: 0,
            domains,
            levels: Vec::new(alloc),
            items: 0,
            preserves: 0,
            faults: Items::new(alloc),
        })
    }

    /// One statement or one turn of a loop more.
    pub(crate) fn count(&mut self) -> Result<(), Refuse>
        ensures { Reads self.new result (counted self.old) }
    {
        if self.lines < limits::MOST_LINES {
            self.lines += 1;
            Ok(())
        } else {
            Err(Refuse::Refused(Refusal::Limit(Which::Lines, u64::from(limits::MOST_LINES) + 1)))
        }
    }
}

// ---- where a statement may stand

fn is_open(group: &Option<Items<NodeId>>) -> bool
    ensures { result ≡ is_open group.now }
{
    group.is_some()
}

impl Draft {
    /// In a domain, and not in a group of it.
    pub(crate) fn takes_items(&self) -> bool
        ensures { result ≡ takes_items self.now.levels }
    {
        match self.levels.last() {
            Some(level) => !is_open(&level.group),
            None => false,
        }
    }

    /// In a domain, before its first item.
    pub(crate) fn takes_entries(&self) -> bool
        ensures { result ≡ takes_entries self.now self.now.levels }
    {
        match self.levels.last() {
            Some(level) => !is_open(&level.group) && self.is_empty_body(level.domain),
            None => false,
        }
    }

    fn is_empty_body(&self, at: u32) -> bool
        ensures { result ≡ is_empty_body (slice_get self.now.domains at) }
    {
        match self.domains.get(at) {
            Some(domain) => domain.items.items().is_empty(),
            None => false,
        }
    }

    /// In a domain or a group, or where the root may stand.
    pub(crate) fn takes_domains(&self) -> bool
        ensures { result ≡ takes_domains self.now self.now.levels }
    {
        match self.levels.last() {
            Some(_) => true,
            None => self.stage.takes_regions(),
        }
    }

    /// The domain that is open innermost; 0 where none is.
    pub(crate) fn innermost(&self) -> u32
        ensures { result ≡ innermost self.now.levels }
    {
        match self.levels.last() {
            Some(level) => level.domain,
            None => 0,
        }
    }

    pub(crate) fn parent(&self) -> Option<NodeId>
        ensures { result ≡ parent_of self.now.levels }
    {
        match self.levels.last() {
            Some(level) => Some(NodeId(level.domain)),
            None => None,
        }
    }

    pub(crate) fn entries_at(&self, at: u32) -> usize
        ensures { result ≡ entries_of (slice_get self.now.domains at) }
    {
        match self.domains.get(at) {
            Some(domain) => domain.entries.items().len(),
            None => 0,
        }
    }

    // ---- changes of a domain that is open

    /// One item more in domain `at`.
    pub(crate) fn add_item(&mut self, at: u32, item: Item) -> Result<(), NoMemory>
        requires room { HaveRoom self.old.domains }
        requires count { self.old.items + 1 < 2 ^ 32 }
        ensures { OnOk result (self.new ≡ add_item at item self.old) }
    {
        self.domains.push_item(at, item)?;
        self.items += 1;
        Ok(())
    }

    /// One entry more in domain `at`.
    pub(crate) fn add_entry(&mut self, at: u32, entry: Entry) -> Result<(), NoMemory>
        requires room { entries_of (slice_get self.old.domains at) + 1 < 2 ^ 32 }
        requires count { self.old.preserves + 1 < 2 ^ 32 }
        ensures { OnOk result (self.new ≡ add_entry at entry self.old) }
    {
        self.domains.push_entry(at, entry)?;
        self.preserves += 1;
        Ok(())
    }
}

// ---- domains and groups that open and close

impl Draft {
    /// Whether one more domain has room in its parent.
    pub(crate) fn room_for_domain(&self) -> Result<(), Wrong>
        ensures { result ≡ room_for_domain self.now.levels self.now.items }
    {
        match self.levels.last() {
            None => Ok(()),
            Some(level) => room_in(&level.group, self.items),
        }
    }

    /// A group opens in the innermost domain.
    pub(crate) fn open_group(&mut self, alloc: Global) -> Result<(), NoMemory>
        requires { self.old.items + 1 < 2 ^ 32 }
        ensures { OnOk result (self.new ≡ open_group self.old.levels self.old) }
    {
        match self.levels.pop() {
            None => Ok(()),
            Some(level) => {
                self.levels.push(Level {
                    domain: level.domain,
                    group: Some(Items::new(alloc)),
                })?;
                self.items += 1;
                Ok(())
            }
        }
    }

    /// The innermost group or domain closes.
    pub(crate) fn close(&mut self) -> Result<(), Stop>
        requires { HaveRoom self.old.domains }
        ensures { Steps self.new result (ended self.old.levels self.old) }
    {
        match self.levels.pop() {
            None => Err(Stop::Wrong(Wrong::Form)),
            Some(
                Level {
                    domain: _,
                    group: None,
                },
            ) => {
                self.stage = if self.levels.is_empty() {
                    Stage::Closed
                } else {
                    Stage::Root
                };
                Ok(())
            }
            Some(
                Level {
                    domain,
                    group: Some(members),
                },
            ) => self.close_group(domain, members),
        }
    }

    // The group with these members closes, whose domain was taken off the levels.
    fn close_group(&mut self, domain: u32, members: Items<NodeId>) -> Result<(), Stop>
        requires { HaveRoom self.old.domains }
        ensures { Steps self.new result (ended_in (Some members) domain self.old.levels self.old) }
    {
        if members.items().is_empty() {
            return Err(Stop::Wrong(Wrong::Form));
        }
        self.domains.push_item(domain, Item::Group(members))?;
        self.levels.push(Level {
            domain,
            group: None,
        })?;
        Ok(())
    }

    /// One domain more, which is open.
    pub(crate) fn add_domain(&mut self, alloc: Global, domain: Domain) -> Result<(), NoMemory>
        requires count { length self.old.domains < 2 ^ 32 }
        requires items { HaveRoom self.old.domains }
        requires place { room_for_domain self.old.levels self.old.items ≡ Ok tt }
        ensures { OnOk result (self.new ≡ add_domain domain self.old) }
    {
        let at = self.domains.len() as u32;
        self.name_in_parent(alloc, NodeId(at))?;
        self.enter(at, domain)
    }

    fn enter(&mut self, at: u32, domain: Domain) -> Result<(), NoMemory>
        ensures { OnOk result (self.new ≡ entered at domain self.old) }
    {
        self.stage = Stage::Root;
        self.domains.push(domain)?;
        self.levels.push(Level {
            domain: at,
            group: None,
        })?;
        Ok(())
    }

    // The parent names a domain, as a group of its own or as a member of the group that is open there.
    fn name_in_parent(&mut self, alloc: Global, id: NodeId) -> Result<(), NoMemory>
        requires items { HaveRoom self.old.domains }
        requires place { room_for_domain self.old.levels self.old.items ≡ Ok tt }
        ensures { OnOk result (self.new ≡ named self.old.levels id self.old) }
    {
        match self.levels.pop() {
            None => Ok(()),
            Some(
                Level {
                    domain,
                    group: None,
                },
            ) => {
                self.levels.push(Level {
                    domain,
                    group: None,
                })?;
                let mut alone = Items::new(alloc);
                alone.push(id)?;
                self.add_item(domain, Item::Group(alone))
            }
            Some(
                Level {
                    domain,
                    group: Some(mut members),
                },
            ) => {
                members.push(id)?;
                self.levels.push(Level {
                    domain,
                    group: Some(members),
                })?;
                Ok(())
            }
        }
    }
}

fn room_in(group: &Option<Items<NodeId>>, items: u32) -> Result<(), Wrong>
    ensures { result ≡ room_in group.now items }
{
    match group {
        None => room(Which::Items, limits::MOST_ITEMS, items as usize),
        Some(members) => room(Which::Members, limits::MOST_MEMBERS, members.items().len()),
    }
}
