//! The domains of a draft, with marks by which a new name is mostly seen to be free without a look at them.
ghost use Rattle.std.specs.Prelude.{◌≡◌, ◌+◌, ◌<◌, ◌^◌, ◌&&◌, ◌++◌, ◌∷◌, [], length, slice_get, MatchOption, None, Some, IfOk, OnOk, bytes_eq};
ghost use Rattle.cd_parse.specs.Draft.{changed, with_item, with_entry, is_parent, has_child_named};
ghost use Rattle.cd_parse.specs.Heads.{entries_of};
ghost use Rattle.cd_parse.specs.Marks.{first_mark, next_mark, mark_of, AllMarked};
ghost use Rattle.cd_parse.specs.Rooms.{HaveRoom};

use cd_base::NoMemory;
use cd_tree::{Domain, Entry, Item, NodeId};
use std::alloc::{AllocError, Global};
use std::marker::Model;

// How many marks there are.
const MARKS: usize = 16_384;

/// The domains so far in preorder. Contracts see their list.
#[derive(Drop)]
pub(crate) struct MarkedDomains {
    domains: Vec<Domain>,
    marks: Vec<bool>,
}

impl Model for MarkedDomains {
    ghost use Rattle.std.specs.Prelude.{List};
    ghost use Rattle.cd_tree.specs.declared.domain.Domain.{Domain};
    ghost use Rattle.cd_parse.specs.Marks.{AreMarked};

    ghost Value = { List Domain };

    ghost view = { λ it. it.domains.items };

    ghost invariant = { λ it. AreMarked it.marks.items it.domains.items };
}

impl MarkedDomains {
    /// No domain. It takes the memory of the marks.
    pub(crate) fn new(alloc: Global) -> Result<MarkedDomains, AllocError>
        ensures { IfOk result (λ domains. domains ≡ []) }
    {
        let marks = vec![in alloc; false; MARKS]?;
        Ok(MarkedDomains {
            domains: Vec::new(alloc),
            marks,
        })
    }

    pub(crate) fn len(&self) -> usize
        ensures { result ≡ length self.now }
    {
        self.domains.len()
    }

    pub(crate) fn get(&self, at: u32) -> Option<&Domain>
        ensures { MatchOption result (slice_get self.now at ≡ None) (λ domain. slice_get self.now at ≡ Some domain.now) }
    {
        self.domains.get(at as usize)
    }

    /// Whether a child of this parent has the name. The domains are looked at only where one of them has the same mark.
    pub(crate) fn has_child_named(&self, parent: Option<NodeId>, name: &[u8]) -> bool
        ensures { result ≡ has_child_named self.now parent name.now }
    {
        self.marks[mark_of(parent, name)] && has_child_named(&self.domains, parent, name)
    }

    /// Puts a domain last.
    pub(crate) fn push(&mut self, domain: Domain) -> Result<(), AllocError>
        ensures { OnOk result (self.new ≡ self.old ++ domain ∷ []) }
    {
        let mark = mark_of(domain.parent, domain.name.as_str().as_bytes());
        self.marks[mark] = true;
        self.domains.push(domain)?;
        Ok(())
    }

    /// One item more in domain `at`, where there is one.
    pub(crate) fn push_item(&mut self, at: u32, item: Item) -> Result<(), NoMemory>
        requires { HaveRoom self.old }
        ensures { OnOk result (self.new ≡ changed at (with_item item) self.old) }
    {
        push_item(&mut self.domains, at, item)
    }

    /// One entry more in domain `at`, where there is one.
    pub(crate) fn push_entry(&mut self, at: u32, entry: Entry) -> Result<(), NoMemory>
        requires { entries_of (slice_get self.old at) + 1 < 2 ^ 32 }
        ensures { OnOk result (self.new ≡ changed at (with_entry entry) self.old) }
    {
        push_entry(&mut self.domains, at, entry)
    }

    /// The domains as a vector. It takes no memory.
    pub(crate) fn into_vec(self) -> Vec<Domain>
        ensures { result.items ≡ self }
    {
        let MarkedDomains { domains, marks: _ } = self;
        domains
    }
}

// ---- marks

// The mark of a child with this name.
fn mark_of(parent: Option<NodeId>, name: &[u8]) -> usize
    ensures value { result ≡ mark_of parent name.now }
    ensures below { result < 16384 }
{
    let mut mark = first_mark(parent);
    for byte in name {
        mark = next_mark(mark, *byte);
    }
    mark
}

// The mark of a parent.
fn first_mark(parent: Option<NodeId>) -> usize
    ensures value { result ≡ first_mark parent }
    ensures below { result < 16384 }
{
    match parent {
        None => 0,
        Some(parent) => parent.0 as usize % MARKS,
    }
}

// The mark with one byte more.
fn next_mark(mark: usize, byte: u8) -> usize
    requires { mark < 16384 }
    ensures value { result ≡ next_mark mark byte }
    ensures below { result < 16384 }
{
    (33 * mark + byte as usize) % MARKS
}

// ---- names

fn has_child_named(domains: &[Domain], parent: Option<NodeId>, name: &[u8]) -> bool
    ensures { result ≡ has_child_named domains.now parent name.now }
{
    domains
        .iter()
        .any(|domain| is_child_named(domain, parent, name))
}

fn is_child_named(domain: &Domain, parent: Option<NodeId>, name: &[u8]) -> bool
    ensures { result ≡ (is_parent domain.now.parent parent && bytes_eq domain.now.name name.now) }
{
    is_parent(domain.parent, parent) && domain.name.as_str().as_bytes() == name
}

fn is_parent(one: Option<NodeId>, other: Option<NodeId>) -> bool
    ensures { result ≡ is_parent one other }
{
    match (one, other) {
        (None, None) => true,
        (Some(one), Some(other)) => one.0 == other.0,
        _ => false,
    }
}

// ---- changes of one domain

// One item more in domain `at`, where there is one.
fn push_item(domains: &mut Vec<Domain>, at: u32, item: Item) -> Result<(), NoMemory>
    requires { HaveRoom domains.old.items }
    ensures change { OnOk result (domains.new.items ≡ changed at (with_item item) domains.old.items) }
    ensures marked { (marks : _) → AllMarked marks domains.old.items → AllMarked marks domains.new.items }
{
    let at = at as usize;
    if at >= domains.len() {
        return Ok(());
    }
    domains[at].items.push(item)?;
    Ok(())
}

// One entry more in domain `at`, where there is one.
fn push_entry(domains: &mut Vec<Domain>, at: u32, entry: Entry) -> Result<(), NoMemory>
    requires { entries_of (slice_get domains.old.items at) + 1 < 2 ^ 32 }
    ensures change { OnOk result (domains.new.items ≡ changed at (with_entry entry) domains.old.items) }
    ensures marked { (marks : _) → AllMarked marks domains.old.items → AllMarked marks domains.new.items }
{
    let at = at as usize;
    if at >= domains.len() {
        return Ok(());
    }
    domains[at].entries.push(entry)?;
    Ok(())
}
