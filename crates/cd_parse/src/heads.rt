//! The statements, by the tokens after their keyword.
ghost use Rattle.std.specs.Prelude.{◌≡◌, ◌+◌, ◌<◌, ◌^◌, ◌++◌, ◌∷◌, [], ◌&&◌, length, IfOk, OnOk, IsTrue, Ok, Err, true, false, bytes_eq, codes, if◌then◌else◌};
ghost use Rattle.cd_tokens.specs.declared.wrong.Wrong.TheVariants.{Form};
ghost use Rattle.cd_tokens.specs.Sums.{is_base};
ghost use Rattle.cd_parse.specs.declared.draft.Stage.TheVariants.{Regions};
ghost use Rattle.cd_parse.specs.Statements.{with_op, operation_in};
ghost use Rattle.cd_tokens.specs.Steps.{Steps};
ghost use Rattle.cd_parse.specs.Draft.{four_kinds, kind_name, has_kind_named, has_region_named, add_domain};
ghost use Rattle.cd_tokens.specs.Wrongs.{both};
ghost use Rattle.cd_parse.specs.Rooms.{HaveRoom};
ghost use Rattle.cd_parse.specs.Heads.{name_fits, begun, cd_in, short_how, long_how, how_in, with_entry_of, preserve_in, faults_in, is_kind_name, with_kind_named, kind_in, room_for_domain, words_fit, region_of, with_region, regioned, region_statement, time_in, damage_in, with_fault, struck, strike_in, group_in, end_in, has_domain_form, retry_fits, domain_named, with_domain, domained, domain_in};

use crate::draft::{Draft, Stage};
use crate::ranges::Scope;
use cd_base::{Items, NoMemory, Pattern, Place, Range, Text};
use cd_tokens::{
    Stop, Token, Variable, Wrong, all_hold, both, expression, guard, is_base, kind, kind_set, name,
    path, pattern, room, text_of,
};
use cd_tree::{
    Domain, Entry, How, Item, Kind, KindName, Kinds, NodeId, Op, RawFault, Region, Which, fits,
    limits,
};
use std::alloc::Global;

fn name_fits(name: &[u8]) -> Result<(), Wrong>
    ensures { result ≡ name_fits name.now }
{
    guard(
        name.len() <= limits::MOST_NAME as usize,
        Wrong::Limit(Which::Name, name.len() as u64),
    )
}

// Three parts of a statement.
fn three<A: Drop, B: Drop, C: Drop>(
    one: Result<A, Wrong>,
    other: Result<B, Wrong>,
    third: Result<C, Wrong>,
) -> Result<(A, (B, C)), Wrong>
    ensures { result ≡ both one (both other third) }
{
    both(one, both(other, third))
}

// ---- cd

// cd 1, cd 2
#[tactic(auto, unfolding(crate::specs::Heads::cd_in))]
pub(crate) fn cd(alloc: Global, draft: &mut Draft, tokens: &[Token<'_>]) -> Result<(), Stop>
    ensures { Steps draft.new result (cd_in draft.old tokens.now) }
{
    match tokens {
        [version] => {
            guard(draft.stage.is_start(), Wrong::Form)?;
            begin(alloc, draft, version.as_slice())
        }
        _ => Err(Stop::Wrong(Wrong::Form)),
    }
}

fn begin(alloc: Global, draft: &mut Draft, version: &[u8]) -> Result<(), Stop>
    ensures { Steps draft.new result (begun draft.old version.now) }
{
    if version == b"1".as_slice() {
        draft.kinds = four_kinds(alloc)?;
        draft.version = 1;
        draft.stage = Stage::Regions;
        Ok(())
    } else if version == b"2".as_slice() {
        draft.version = 2;
        draft.stage = Stage::Kinds;
        Ok(())
    } else {
        Err(Stop::Wrong(Wrong::Form))
    }
}

fn four_kinds(alloc: Global) -> Result<Items<KindName>, NoMemory>
    ensures { IfOk result (λ kinds. kinds ≡ four_kinds) }
{
    let mut kinds = Items::new(alloc);
    kinds.push(kind_name(alloc, "flip")?)?;
    kinds.push(kind_name(alloc, "lost")?)?;
    kinds.push(kind_name(alloc, "link")?)?;
    kinds.push(kind_name(alloc, "node")?)?;
    Ok(kinds)
}

fn kind_name(alloc: Global, name: &str) -> Result<KindName, NoMemory>
    ensures { IfOk result (λ kind. kind ≡ kind_name name.now false) }
{
    Ok(KindName {
        name: Text::of(alloc, name)?,
        halts: false,
    })
}

// ---- faults

// faults
#[tactic(auto, unfolding(crate::specs::Heads::faults_in))]
pub(crate) fn faults(draft: &mut Draft, tokens: &[Token<'_>]) -> Result<(), Stop>
    ensures { Steps draft.new result (faults_in draft.old tokens.now) }
{
    match tokens {
        [] => {
            guard(draft.stage.is_closed(), Wrong::Form)?;
            draft.stage = Stage::Strikes;
            Ok(())
        }
        _ => Err(Stop::Wrong(Wrong::Form)),
    }
}

// ---- preserve

// copy, refer, regen PATTERN
#[tactic(auto, unfolding(crate::specs::Heads::how_in))]
fn how_in(variables: &[Variable], tokens: &[Token<'_>]) -> Result<How, Wrong>
    ensures { result ≡ how_in variables.now tokens.now }
{
    match tokens {
        [] => Err(Wrong::Form),
        [token] => short_how(token.as_slice()),
        [token, more @ ..] => long_how(variables, token.as_slice(), more),
    }
}

// copy, refer
fn short_how(token: &[u8]) -> Result<How, Wrong>
    ensures { result ≡ short_how token.now }
{
    if token == b"copy".as_slice() {
        Ok(How::Copy)
    } else if token == b"refer".as_slice() {
        Ok(How::Refer)
    } else {
        Err(Wrong::Form)
    }
}

// regen PATTERN
fn long_how(variables: &[Variable], token: &[u8], more: &[Token<'_>]) -> Result<How, Wrong>
    ensures { result ≡ long_how variables.now token.now more.now }
{
    if token == b"regen".as_slice() {
        Ok(How::Regen(pattern(variables, more)?))
    } else {
        Err(Wrong::Form)
    }
}

// preserve RANGE ..
#[tactic(auto, unfolding(crate::specs::Heads::preserve_in))]
pub(crate) fn preserve(
    variables: &[Variable],
    draft: &mut Draft,
    tokens: &[Token<'_>],
) -> Result<(), Stop>
    ensures { Steps draft.new result (preserve_in variables.now draft.old tokens.now) }
{
    match tokens {
        [range, more @ ..] => {
            let stage = guard(draft.takes_entries(), Wrong::Form);
            let scope = Scope {
                variables,
                regions: draft.regions.items(),
            };
            let range = scope.range_in(range.as_slice());
            let how = how_in(variables, more);
            let (_, (range, how)) = both(stage, both(range, how))?;
            add_entry(draft, range, how)
        }
        _ => Err(Stop::Wrong(Wrong::Form)),
    }
}

#[tactic(auto, unfolding(crate::specs::Heads::with_entry_of))]
fn add_entry(draft: &mut Draft, range: Range, how: How) -> Result<(), Stop>
    ensures { Steps draft.new result (with_entry_of draft.old range how) }
{
    let at = draft.innermost();
    let entries = room(Which::Entries, limits::MOST_ENTRIES, draft.entries_at(at));
    let preserves = room(
        Which::Preserves,
        limits::MOST_PRESERVES,
        draft.preserves as usize,
    );
    all_hold(&[entries, preserves])?;
    draft.add_entry(at, Entry { range, how })?;
    Ok(())
}

// ---- kind

// kind BASE, kind BASE halt
#[tactic(auto, unfolding(crate::specs::Heads::kind_in))]
pub(crate) fn kind_statement(
    alloc: Global,
    draft: &mut Draft,
    tokens: &[Token<'_>],
) -> Result<(), Stop>
    ensures { Steps draft.new result (kind_in draft.old tokens.now) }
{
    match tokens {
        [token] => add_kind(alloc, draft, token.as_slice(), false),
        [token, halt] => add_halting(alloc, draft, token.as_slice(), halt.as_slice()),
        _ => Err(Stop::Wrong(Wrong::Form)),
    }
}

fn add_halting(alloc: Global, draft: &mut Draft, token: &[u8], halt: &[u8]) -> Result<(), Stop>
    ensures { Steps draft.new result (if bytes_eq halt.now (codes "halt") then with_kind_named draft.old token.now true else Err Form) }
{
    if halt == b"halt".as_slice() {
        add_kind(alloc, draft, token, true)
    } else {
        Err(Stop::Wrong(Wrong::Form))
    }
}

fn is_kind_name(token: &[u8]) -> bool
    ensures value { result ≡ is_kind_name token.now }
    ensures base { IsTrue result → is_base token.now ≡ true }
{
    is_base(token) && token != b"none".as_slice()
}

fn has_kind_named(kinds: &[KindName], token: &[u8]) -> bool
    ensures { result ≡ has_kind_named kinds.now token.now }
{
    kinds
        .iter()
        .any(|kind| kind.name.as_str().as_bytes() == token)
}

#[tactic(auto, unfolding(crate::specs::Heads::with_kind_named))]
fn add_kind(alloc: Global, draft: &mut Draft, token: &[u8], halts: bool) -> Result<(), Stop>
    ensures { Steps draft.new result (with_kind_named draft.old token.now halts) }
{
    if !draft.stage.takes_kinds() || !is_kind_name(token) {
        return Err(Stop::Wrong(Wrong::Form));
    }
    let free = guard(!has_kind_named(draft.kinds.items(), token), Wrong::Taken);
    let count = room(Which::Kinds, limits::MOST_KINDS, draft.kinds.items().len());
    all_hold(&[free, name_fits(token), count])?;
    let name = text_of(alloc, token)?;
    draft.kinds.push(KindName { name, halts })?;
    Ok(())
}

// ---- region

fn has_region_named(regions: &[Region], token: &[u8]) -> bool
    ensures { result ≡ has_region_named regions.now token.now }
{
    regions
        .iter()
        .any(|region| region.name.as_str().as_bytes() == token)
}

fn words_fit(words: u64, size: u64) -> Result<(), Wrong>
    ensures { result ≡ words_fit (words + size) }
{
    let sum = u128::from(words) + u128::from(size);
    let told = sum.min(18_446_744_073_709_551_615) as u64;
    guard(
        sum <= u128::from(limits::MOST_WORDS),
        Wrong::Limit(Which::Words, told),
    )
}

// region NAME E PATTERN
#[tactic(auto, unfolding(crate::specs::Heads::region_statement))]
pub(crate) fn region_statement(
    alloc: Global,
    variables: &[Variable],
    draft: &mut Draft,
    tokens: &[Token<'_>],
) -> Result<(), Stop>
    ensures { Steps draft.new result (region_statement variables.now draft.old tokens.now) }
{
    match tokens {
        [token, size, more @ ..] => {
            let stage = guard(draft.stage.takes_regions(), Wrong::Form);
            let named = name(alloc, variables, token.as_slice())?;
            let size = expression(variables, size.as_slice());
            let pattern = pattern(variables, more);
            region_of(draft, stage, named, size, pattern)
        }
        _ => Err(Stop::Wrong(Wrong::Form)),
    }
}

fn region_of(
    draft: &mut Draft,
    stage: Result<(), Wrong>,
    named: Result<Text, Wrong>,
    size: Result<u64, Wrong>,
    pattern: Result<Pattern, Wrong>,
) -> Result<(), Stop>
    ensures { Steps draft.new result (regioned draft.old stage named size pattern) }
{
    let parts = three(named, size, pattern);
    let (_, (named, (size, pattern))) = both(stage, parts)?;
    add_region(draft, named, size, pattern)
}

#[tactic(auto, unfolding(crate::specs::Heads::with_region))]
fn add_region(draft: &mut Draft, named: Text, size: u64, pattern: Pattern) -> Result<(), Stop>
    ensures { Steps draft.new result (with_region draft.old named size pattern) }
{
    let token = named.as_str().as_bytes();
    let free = guard(
        !has_region_named(draft.regions.items(), token),
        Wrong::Taken,
    );
    let some = guard(0 < size, Wrong::Unfit);
    let count = room(
        Which::Regions,
        limits::MOST_REGIONS,
        draft.regions.items().len(),
    );
    let sum = words_fit(draft.words, size);
    all_hold(&[free, some, name_fits(token), count, sum])?;
    put_region(draft, named, size, pattern)?;
    Ok(())
}

fn put_region(draft: &mut Draft, named: Text, size: u64, pattern: Pattern) -> Result<(), NoMemory>
    requires count { length draft.old.regions + 1 < 2 ^ 32 }
    requires words { draft.old.words + size < 2 ^ 32 }
    ensures { OnOk result (draft.new ≡ record draft.old { stage = Regions; regions = draft.old.regions ++ region_of named size pattern ∷ []; words = draft.old.words + size }) }
{
    draft.words += size;
    let region = Region {
        name: named,
        length: size as u32,
        pattern,
    };
    draft.regions.push(region)?;
    draft.stage = Stage::Regions;
    Ok(())
}

// ---- strike

// Begin and point.
#[tactic(auto, unfolding(crate::specs::Heads::time_in))]
fn time_in(variables: &[Variable], begin: &[u8], point: &[u8]) -> Result<(u64, u64), Wrong>
    ensures { result ≡ time_in variables.now begin.now point.now }
{
    both(expression(variables, begin), expression(variables, point))
}

// Kind, place and mask.
#[tactic(auto, unfolding(crate::specs::Heads::damage_in))]
fn damage_in(
    variables: &[Variable],
    draft: &Draft,
    token: &[u8],
    place: &[u8],
    mask: &[u8],
) -> Result<(Kind, (Place, u64)), Wrong>
    ensures { result ≡ damage_in variables.now draft.now token.now place.now mask.now }
{
    let scope = Scope {
        variables,
        regions: draft.regions.items(),
    };
    both(
        kind(draft.kinds.items(), token),
        both(scope.place_in(place), expression(variables, mask)),
    )
}

// strike PATH E E KIND PLACE E
#[tactic(auto, unfolding(crate::specs::Heads::strike_in))]
pub(crate) fn strike(
    alloc: Global,
    variables: &[Variable],
    draft: &mut Draft,
    tokens: &[Token<'_>],
) -> Result<(), Stop>
    ensures { Steps draft.new result (strike_in variables.now draft.old tokens.now) }
{
    match tokens {
        [domain, begin, point, kind, place, mask] => {
            let stage = guard(draft.stage.takes_strikes(), Wrong::Form);
            let path = path(alloc, variables, domain.as_slice())?;
            let time = time_in(variables, begin.as_slice(), point.as_slice());
            let damage = damage_in(
                variables,
                draft,
                kind.as_slice(),
                place.as_slice(),
                mask.as_slice(),
            );
            add_strike(draft, stage, path, time, damage)
        }
        _ => Err(Stop::Wrong(Wrong::Form)),
    }
}

fn add_strike(
    draft: &mut Draft,
    stage: Result<(), Wrong>,
    path: Result<Text, Wrong>,
    time: Result<(u64, u64), Wrong>,
    damage: Result<(Kind, (Place, u64)), Wrong>,
) -> Result<(), Stop>
    ensures { Steps draft.new result (struck draft.old stage path time damage) }
{
    let parts = three(path, time, damage);
    let (_, (path, ((begin, item), (kind, (place, mask))))) = both(stage, parts)?;
    let fault = RawFault {
        path,
        begin,
        item,
        kind,
        place,
        mask,
    };
    add_fault(draft, fault)
}

fn add_fault(draft: &mut Draft, fault: RawFault) -> Result<(), Stop>
    ensures { Steps draft.new result (with_fault draft.old fault) }
{
    room(
        Which::Faults,
        limits::MOST_FAULTS,
        draft.faults.items().len(),
    )?;
    draft.faults.push(fault)?;
    Ok(())
}

// ---- operations

#[tactic(auto, unfolding(crate::specs::Statements::with_op))]
fn add_op(draft: &mut Draft, op: Op) -> Result<(), Stop>
    requires { HaveRoom draft.old.domains }
    ensures { Steps draft.new result (with_op draft.old op) }
{
    let fit = guard(fits(&op), Wrong::Unfit);
    let count = room(Which::Items, limits::MOST_ITEMS, draft.items as usize);
    all_hold(&[fit, count])?;
    let at = draft.innermost();
    draft.add_item(at, Item::Run(op))?;
    Ok(())
}

/// An operation, in a domain's body.
#[tactic(auto, unfolding(crate::specs::Statements::operation_in))]
pub(crate) fn operation(
    variables: &[Variable],
    draft: &mut Draft,
    keyword: &[u8],
    rest: &[Token<'_>],
) -> Result<(), Stop>
    requires { HaveRoom draft.old.domains }
    ensures { Steps draft.new result (operation_in variables.now draft.old keyword.now rest.now) }
{
    let stage = guard(draft.takes_items(), Wrong::Form);
    let scope = Scope {
        variables,
        regions: draft.regions.items(),
    };
    let op = scope.op_in(keyword, rest);
    let (_, op) = both(stage, op)?;
    add_op(draft, op)
}

// ---- group and end

// group
#[tactic(auto, unfolding(crate::specs::Heads::group_in))]
pub(crate) fn group(alloc: Global, draft: &mut Draft, tokens: &[Token<'_>]) -> Result<(), Stop>
    ensures { Steps draft.new result (group_in draft.old tokens.now) }
{
    match tokens {
        [] => {
            let stage = guard(draft.takes_items(), Wrong::Form);
            let count = room(Which::Items, limits::MOST_ITEMS, draft.items as usize);
            all_hold(&[stage, count])?;
            draft.open_group(alloc)?;
            Ok(())
        }
        _ => Err(Stop::Wrong(Wrong::Form)),
    }
}

// end
#[tactic(auto, unfolding(crate::specs::Heads::end_in))]
pub(crate) fn end(draft: &mut Draft, tokens: &[Token<'_>]) -> Result<(), Stop>
    requires { HaveRoom draft.old.domains }
    ensures { Steps draft.new result (end_in draft.old tokens.now) }
{
    match tokens {
        [] => draft.close(),
        _ => Err(Stop::Wrong(Wrong::Form)),
    }
}

// ---- domain

fn has_domain_form(draft: &Draft, retry: &[u8], detects: &[u8]) -> bool
    ensures { result ≡ has_domain_form draft.now retry.now detects.now }
{
    draft.takes_domains() && (retry == b"retry".as_slice() && detects == b"detects".as_slice())
}

// domain NAME retry E detects KINDS
#[tactic(auto, unfolding(crate::specs::Heads::domain_in))]
pub(crate) fn domain(
    alloc: Global,
    variables: &[Variable],
    draft: &mut Draft,
    tokens: &[Token<'_>],
) -> Result<(), Stop>
    requires { HaveRoom draft.old.domains }
    ensures { Steps draft.new result (domain_in variables.now draft.old tokens.now) }
{
    match tokens {
        [token, retry, tries, detects, kinds] => {
            let form = guard(
                has_domain_form(draft, retry.as_slice(), detects.as_slice()),
                Wrong::Form,
            );
            let named = name(alloc, variables, token.as_slice())?;
            let tries = expression(variables, tries.as_slice());
            let kinds = kind_set(draft.kinds.items(), kinds.as_slice());
            domain_of(alloc, draft, form, named, tries, kinds)
        }
        _ => Err(Stop::Wrong(Wrong::Form)),
    }
}

fn domain_of(
    alloc: Global,
    draft: &mut Draft,
    form: Result<(), Wrong>,
    named: Result<Text, Wrong>,
    tries: Result<u64, Wrong>,
    kinds: Result<Kinds, Wrong>,
) -> Result<(), Stop>
    requires { HaveRoom draft.old.domains }
    ensures { Steps draft.new result (domained draft.old form named tries kinds) }
{
    let parts = three(named, tries, kinds);
    let (_, (named, (tries, kinds))) = both(form, parts)?;
    add_domain(alloc, draft, named, tries, kinds)
}

fn retry_fits(tries: u64) -> Result<(), Wrong>
    ensures { result ≡ retry_fits tries }
{
    guard(
        0 < tries && tries <= u64::from(limits::MOST_RETRY),
        Wrong::Limit(Which::Retry, tries),
    )
}

#[tactic(auto, unfolding(crate::specs::Heads::with_domain))]
fn add_domain(
    alloc: Global,
    draft: &mut Draft,
    named: Text,
    tries: u64,
    kinds: Kinds,
) -> Result<(), Stop>
    requires { HaveRoom draft.old.domains }
    ensures { Steps draft.new result (with_domain draft.old named tries kinds) }
{
    let token = named.as_str().as_bytes();
    let parent = draft.parent();
    let taken = draft.domains.has_child_named(parent, token);
    let free = guard(!taken, Wrong::Taken);
    let count = room(Which::Domains, limits::MOST_DOMAINS, draft.domains.len());
    let depth = room(Which::Depth, limits::MOST_DEPTH, draft.levels.len());
    let place = draft.room_for_domain();
    all_hold(&[
        free,
        name_fits(token),
        count,
        depth,
        place,
        retry_fits(tries),
    ])?;
    put_domain(alloc, draft, named, parent, tries, kinds)?;
    Ok(())
}

fn put_domain(
    alloc: Global,
    draft: &mut Draft,
    named: Text,
    parent: Option<NodeId>,
    tries: u64,
    kinds: Kinds,
) -> Result<(), NoMemory>
    requires tries { tries < 2 ^ 32 }
    requires count { length draft.old.domains < 2 ^ 32 }
    requires items { HaveRoom draft.old.domains }
    requires place { room_for_domain draft.old.levels draft.old.items ≡ Ok tt }
    ensures { OnOk result (draft.new ≡ add_domain (domain_named named parent tries kinds) draft.old) }
{
    let domain = Domain {
        name: named,
        parent,
        retry: tries as u32,
        detects: kinds,
        entries: Items::new(alloc),
        items: Items::new(alloc),
    };
    draft.add_domain(alloc, domain)
}
