// Entries that are preserved, put back and given up: a table of them over one board of words, of which a pass keeps the whole
// first, so that an entry may share its pieces.
ghost use Rattle.std.specs.Prelude.{◌≡◌, ◌+◌, ◌<◌, true, IfOk, IsSome, IsTrue, OnOk, length};
ghost use Rattle.cd_base.specs.Words.{in_range};
ghost use Rattle.cd_tree.specs.Meaning.{initial};
ghost use Rattle.cd_keep.specs.PassModel.{HoldsNothing};
ghost use Rattle.cd_state_tests.specs.Board.{board, HasBoard, HasLink, HasPart, IsKept, IsOnBoard};
ghost use Rattle.cd_tries.specs.Keeping.{HoldsThese, all_ids};

use crate::tests::lapsing::Lapsing;
use cd_base::{Items, Pattern, Place, Range, Text};
use cd_field::{Field, ScriptField};
use cd_keep::{ArcPass, KeepId, Pass};
use cd_tree::{Entry, Event, How, Kept, NodeId, Region, Regions};
use cd_tries::{
    Keep, Pieces, copy_range, first_other, give_up_all, give_up_ids, preserve_entry, refill_all,
};
use std::alloc::Global;
use std::sync::Wait;
use std::test::Fail;

// The words of the board, each of which is its index.
const LENGTH: u32 = 200;

// The holds that a pass has room for: four for the board, and five for a part of it that meets each of its pieces.
const ROOM: u32 = 9;

// What is told before an entry is told to be preserved.
#[derive(Clone, Copy)]
enum Before {
    Nothing,
    Lapse,
    Fall { index: u32, wanted: u64, found: u64 },
}

// An entry as it is declared, and how it is kept then: from where to where its pieces stand, and how many they are.
struct Case {
    name: &'static str,
    low: u32,
    high: u32,
    how: How,
    kept: Kept,
    begin: u32,
    end: u32,
    count: usize,
    before: Before,
}

// The third of three pieces is gone: the range is copied, and what was shared before is held no more.
static LAPSED: Case = Case {
    name: "a piece is gone, and the words are copied",
    low: 60,
    high: 130,
    how: How::Refer,
    kept: Kept::Copy,
    begin: 60,
    end: 130,
    count: 2,
    before: Before::Lapse,
};

// The board's pieces begin at 0, 64, 128 and 192.
static TABLE: [Case; 9] = [
    Case {
        name: "a copy of one word",
        low: 10,
        high: 11,
        how: How::Copy,
        kept: Kept::Copy,
        begin: 10,
        end: 11,
        count: 1,
        before: Before::Nothing,
    },
    Case {
        name: "a copy of one whole piece",
        low: 10,
        high: 74,
        how: How::Copy,
        kept: Kept::Copy,
        begin: 10,
        end: 74,
        count: 1,
        before: Before::Nothing,
    },
    Case {
        name: "a copy of one word more than a piece",
        low: 10,
        high: 75,
        how: How::Copy,
        kept: Kept::Copy,
        begin: 10,
        end: 75,
        count: 2,
        before: Before::Nothing,
    },
    Case {
        name: "a copy of two pieces and two words",
        low: 10,
        high: 140,
        how: How::Copy,
        kept: Kept::Copy,
        begin: 10,
        end: 140,
        count: 3,
        before: Before::Nothing,
    },
    Case {
        name: "the two pieces in the middle are shared",
        low: 73,
        high: 139,
        how: How::Refer,
        kept: Kept::Refer,
        begin: 64,
        end: 192,
        count: 2,
        before: Before::Nothing,
    },
    Case {
        name: "one piece is shared, and has the range's ends",
        low: 128,
        high: 192,
        how: How::Refer,
        kept: Kept::Refer,
        begin: 128,
        end: 192,
        count: 1,
        before: Before::Nothing,
    },
    Case {
        name: "the last piece, which is short, is shared with the one before it",
        low: 191,
        high: 193,
        how: How::Refer,
        kept: Kept::Refer,
        begin: 128,
        end: 200,
        count: 2,
        before: Before::Nothing,
    },
    Case {
        name: "a pattern gives the words",
        low: 4,
        high: 73,
        how: How::Regen(Pattern::Iota(0, 1)),
        kept: Kept::Regen,
        begin: 0,
        end: 0,
        count: 0,
        before: Before::Nothing,
    },
    Case {
        name: "a pattern gives the first word alone",
        low: 7,
        high: 72,
        how: How::Regen(Pattern::Const(7)),
        kept: Kept::Copy,
        begin: 7,
        end: 72,
        count: 2,
        before: Before::Fall {
            index: 8,
            wanted: 7,
            found: 8,
        },
    },
];

fn one_region(alloc: Global) -> Result<Regions, Fail>
    ensures { IfOk result (λ regions. (p : _) → in_range board p ≡ true → IsSome (initial regions p)) }
{
    let mut regions = Items::new(alloc);
    regions.push(Region {
        name: Text::of(alloc, "board")?,
        length: LENGTH,
        pattern: Pattern::Iota(0, 1),
    })?;
    Ok(regions)
}

fn load_board<F: Field>(alloc: Global, field: &mut F) -> Result<(), Fail>
    ensures { OnOk result (HasBoard (F.model field.new)) }
{
    field.load(&one_region(alloc)?, &Items::new(alloc))?;
    Ok(())
}

fn on_board(low: u32, high: u32) -> Range {
    Range {
        region: 0,
        low,
        high,
    }
}

fn is_on_board(range: Range) -> bool
    ensures { IsTrue result → IsOnBoard range }
{
    range.region == 0 && range.low < range.high && range.high <= LENGTH
}

// A pass keeps the whole board.
fn keep_board<F: Field, P: Pass, R: Wait>(
    rt: &R,
    alloc: Global,
    field: &F,
    pass: &mut P,
) -> Result<Pieces, Fail>
    requires board { HasBoard (F.model field.now) }
    requires nothing { HoldsNothing (P.model pass.old) }
    requires room { (P.model pass.old).room ≡ 9 }
    ensures { IfOk result (λ link. HasLink link (P.model pass.new)) }
{
    let whole = Range {
        region: 0,
        low: 0,
        high: LENGTH,
    };
    Ok(copy_range(rt, alloc, whole, field, pass)?)
}

// An entry on the board is preserved, with the board's pieces for its link.
fn keep_part<F: Field, P: Pass, R: Wait>(
    rt: &R,
    alloc: Global,
    entry: Entry,
    link: &Pieces,
    field: &mut F,
    pass: &mut P,
) -> Result<Keep, Fail>
    requires board { HasBoard (F.model field.old) }
    requires on { IsOnBoard entry.range }
    requires link { HasLink link.now (P.model pass.old) }
    ensures board { OnOk result (HasBoard (F.model field.new)) }
    ensures part { IfOk result (λ keep. HasPart entry link.now keep (P.model pass.new)) }
{
    Ok(preserve_entry(rt, alloc, 1, entry, Some(link), field, pass)?)
}

// The board's pieces are given up, and the entry's keep stands alone.
fn leave_part<P: Pass>(
    alloc: Global,
    entry: Entry,
    link: &Pieces,
    keep: Keep,
    pass: &mut P,
) -> Result<Vec<Keep>, Fail>
    requires { HasPart entry link.now keep (P.model pass.old) }
    ensures { IfOk result (λ keeps. IsKept entry keeps.items (P.model pass.new)) }
{
    give_up_ids(link.ids.items(), pass);
    let mut keeps = Vec::new(alloc);
    keeps.push(keep)?;
    Ok(keeps)
}

// The words of a range are lost to other words.
fn spoil<F: Field>(range: Range, field: &mut F)
    requires on { IsOnBoard range }
    requires board { HasBoard (F.model field.old) }
    ensures { HasBoard (F.model field.new) }
{
    for index in range.low..range.high {
        spoil_word(index, field);
    }
}

fn spoil_word<F: Field>(index: u32, field: &mut F)
    requires short { index < 200 }
    requires board { HasBoard (F.model field.old) }
    ensures { HasBoard (F.model field.new) }
{
    field.write(Place { region: 0, index }, 9999);
}

// Puts an entry back whose words were others: whether it has its own again.
fn puts_back<F: Field, P: Pass>(
    entry: Entry,
    keeps: &[Keep],
    field: &mut F,
    pass: &mut P,
) -> Result<bool, Fail>
    requires on { IsOnBoard entry.range }
    requires board { HasBoard (F.model field.old) }
    requires kept { IsKept entry keeps.now (P.model pass.old) }
    ensures { OnOk result (P.model pass.new ≡ P.model pass.old) }
{
    spoil(entry.range, field);
    let spoilt = first_other(entry.range, Pattern::Const(9999), field).is_none();
    refill_all([entry].as_slice(), keeps, field, pass)?;
    Ok(spoilt && first_other(entry.range, Pattern::Iota(0, 1), field).is_none())
}

// Nothing is held when all is given up, and all room is there again.
fn gives_up<P: Pass>(keeps: &[Keep], pass: &mut P)
    requires holds { HoldsThese (P.model pass.old) (all_ids keeps.now) }
    requires room { (P.model pass.old).room + length (all_ids keeps.now) ≡ 9 }
    ensures nothing { HoldsNothing (P.model pass.new) }
    ensures room { (P.model pass.new).room ≡ 9 }
{
    give_up_all(keeps, pass);
}

fn kept_as(keep: &Keep) -> Kept {
    match keep {
        Keep::Copied(_) => Kept::Copy,
        Keep::Shared(_) => Kept::Refer,
        Keep::Pattern => Kept::Regen,
    }
}

// Whether an entry is kept as it should be: pieces that are shared are those of the link, in their order.
fn is_kept(case: &Case, link: &Pieces, keep: &Keep) -> bool {
    if kept_as(keep) != case.kept {
        return false;
    }
    match keep.pieces() {
        None => case.count == 0,
        Some(pieces) => has_pieces(case, pieces)
            && is_of(case, link.ids.items(), pieces.ids.items()),
    }
}

fn has_pieces(case: &Case, pieces: &Pieces) -> bool {
    pieces.begin == case.begin && pieces.end == case.end && pieces.ids.items().len() == case.count
}

// Whether each id is the link's at its place, where the entry shares; whether none is, where it does not.
fn is_of(case: &Case, link: &[KeepId], ids: &[KeepId]) -> bool {
    let first = (case.begin / 64) as usize;
    for (number, id) in ids.iter().enumerate() {
        let shared = link.get(first + number) == Some(id);
        if shared != (case.kept == Kept::Refer) {
            return false;
        }
    }
    true
}

fn told_before(case: &Case) -> Option<Event> {
    match case.before {
        Before::Nothing => None,
        Before::Lapse => Some(Event::Lapsed {
            node: NodeId(0),
            entry: 1,
            seen: 1,
            found: 2,
        }),
        Before::Fall {
            index,
            wanted,
            found,
        } => Some(Event::Fell {
            node: NodeId(0),
            entry: 1,
            place: Place { region: 0, index },
            wanted,
            found,
        }),
    }
}

// Whether the record tells of the entry as it should, and of nothing else.
fn tells<F: Field>(case: &Case, field: &F) -> bool {
    let saved = Some(Event::Saved {
        node: NodeId(0),
        entry: 1,
        how: case.kept,
    });
    match told_before(case) {
        None => field.event(0) == saved && field.event(1).is_none(),
        before => {
            field.event(0) == before && field.event(1) == saved && field.event(2).is_none()
        }
    }
}

fn wrong(case: &Case, what: &str) -> Fail {
    Fail::new(format_args!("{}: {what}", case.name))
}

// An entry of a case is preserved, put back and given up.
fn comes_of<F: Field, P: Pass, R: Wait>(
    rt: &R,
    alloc: Global,
    case: &Case,
    field: &mut F,
    pass: &mut P,
) -> Result<(), Fail>
    requires nothing { HoldsNothing (P.model pass.old) }
    requires room { (P.model pass.old).room ≡ 9 }
    ensures nothing { OnOk result (HoldsNothing (P.model pass.new)) }
    ensures room { OnOk result ((P.model pass.new).room ≡ 9) }
{
    let range = on_board(case.low, case.high);
    if !is_on_board(range) {
        return Err(wrong(case, "off the board"));
    }
    load_board(alloc, field)?;
    let link = keep_board(rt, alloc, field, pass)?;
    let entry = Entry {
        range,
        how: case.how,
    };
    let keep = keep_part(rt, alloc, entry, &link, field, pass)?;
    if !is_kept(case, &link, &keep) {
        return Err(wrong(case, "kept otherwise"));
    }
    if !tells(case, field) {
        return Err(wrong(case, "told otherwise"));
    }
    let keeps = leave_part(alloc, entry, &link, keep, pass)?;
    if !puts_back(entry, keeps.as_slice(), field, pass)? {
        return Err(wrong(case, "other words"));
    }
    gives_up(keeps.as_slice(), pass);
    Ok(())
}

#[test]
fn entries_are_kept_put_back_and_given_up(rt: HostRuntime) -> Result<(), Fail> {
    for case in &TABLE {
        let mut field = ScriptField::empty(rt.alloc());
        let mut pass = ArcPass::open(rt.alloc(), ROOM)?;
        comes_of(&rt, rt.alloc(), case, &mut field, &mut pass)?;
        let _all = pass.split(ROOM)?;
    }
    Ok(())
}

#[test]
fn words_are_copied_where_a_piece_is_gone(rt: HostRuntime) -> Result<(), Fail> {
    let mut field = ScriptField::empty(rt.alloc());
    let mut pass = Lapsing::after(rt.alloc(), 2)?;
    comes_of(&rt, rt.alloc(), &LAPSED, &mut field, &mut pass)
}
