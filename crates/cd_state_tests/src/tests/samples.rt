//! What several tests run: a domain that fills its four words, the program of it alone, and a machine that is carved to it.
ghost use Rattle.std.specs.Prelude.{◌≡◌, IfOk};
ghost use Rattle.cd_tree.specs.Meaning.{initial};
ghost use Rattle.cd_state_tests.specs.Sample.{sample, HasSample};
ghost use Rattle.cd_state_tests.specs.Ends.{IsSampleMachine, IsSampleRoot, IsSampleScript};

use cd_base::{Items, Pattern, Places, Range, Text};
use cd_field::Field;
use cd_tree::{
    Domain, Entry, How, Item, Kind, KindName, Kinds, NodeId, Op, Region, Regions, Script, Tree,
};
use std::alloc::Global;
use std::test::Fail;

pub(crate) fn range() -> Range
    ensures { result ≡ sample }
{
    Range {
        region: 0,
        low: 0,
        high: 4,
    }
}

pub(crate) fn kind() -> Kinds
    ensures { result ≡ 1 }
{
    Kinds::none().with(Kind(0))
}

// One region of the four words, each of which is 3.
pub(crate) fn one_region(alloc: Global) -> Result<Regions, Fail>
    ensures { IfOk result (λ regions. HasSample (initial regions)) }
{
    let mut regions = Items::new(alloc);
    regions.push(Region {
        name: Text::of(alloc, "y")?,
        length: 4,
        pattern: Pattern::Const(3),
    })?;
    Ok(regions)
}

fn one_kind(alloc: Global) -> Result<Items<KindName>, Fail> {
    let mut kinds = Items::new(alloc);
    kinds.push(KindName {
        name: Text::of(alloc, "soft")?,
        halts: false,
    })?;
    Ok(kinds)
}

fn one_domain(alloc: Global) -> Result<Items<Domain>, Fail>
    ensures { IfOk result (λ domains. IsSampleRoot domains) }
{
    let mut entries = Items::new(alloc);
    entries.push(Entry {
        range: range(),
        how: How::Copy,
    })?;
    let mut items = Items::new(alloc);
    items.push(Item::Run(Op::Fill(range(), 7)))?;
    let mut domains = Items::new(alloc);
    domains.push(Domain {
        name: Text::of(alloc, "root")?,
        parent: None,
        retry: 2,
        detects: kind(),
        entries,
        items,
    })?;
    Ok(domains)
}

// The program of one domain, which fills the words and has two tries.
pub(crate) fn one_program(alloc: Global) -> Result<Tree, Fail>
    ensures { IfOk result (λ tree. IsSampleRoot tree.domains) }
{
    match Tree::checked(one_kind(alloc)?, one_domain(alloc)?) {
        Some(tree) => Ok(tree),
        None => Err(Fail::new("no program")),
    }
}

// A machine that is carved to the domain's words.
pub(crate) fn carved<F: Field>(alloc: Global, script: &Script, field: &mut F) -> Result<F, Fail>
    requires { IsSampleScript script.now }
    ensures { IfOk result (λ part. IsSampleMachine (F.model part)) }
{
    field.load(&one_region(alloc)?, script)?;
    let mut places = Places::new(alloc);
    places.add(range())?;
    Ok(field.carve(&Places::new(alloc), &places)?)
}

// Whether the record has as many events.
pub(crate) fn tells<F: Field>(events: u64, field: &F) -> bool {
    events > 0 && field.event(events - 1).is_some() && field.event(events).is_none()
}
