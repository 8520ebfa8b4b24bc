//! Each call of a pass, on the pass over shared pointers.

ghost use Rattle.std.specs.Prelude.{◌≡◌, ◌+◌, ◌*◌, ◌<◌, ◌≤◌, ◌∷◌, [], IfOk, OnOk};
ghost use Rattle.cd_keep.specs.PassModel.{PassModel, HoldsNothing, opened, kept, child_of, without, joined};

use cd_base::NoMemory;
use cd_keep::{ArcPass, GoneNote, KeepId, Pass};
use std::sync::Wait;
use std::test::Fail;

/// A number is as it should be.
pub(crate) fn expect(found: u64, wanted: u64) -> Result<(), Fail> {
    if found == wanted {
        Ok(())
    } else {
        Err(Fail::new(format_args!("{found} in place of {wanted}")))
    }
}

// Words that one pass kept and gave up are shared by another that was split off before, and which keeps words of its own.
fn shares_what_was_given_up<R: Wait, P: Pass>(rt: &R, pass: &mut P) -> Result<(), Fail>
    requires { P.model pass.old ≡ opened 0 3 }
{
    let id = pass.keep(rt, [1, 2].as_slice())?;
    let mut child = pass.split(2)?;
    pass.give_up(id);
    child.share(id).ok().ok_or("gone")?;
    expect(child.word(id, 0), 1)?;
    expect(child.word(id, 1), 2)?;
    let own = child.keep(rt, [5].as_slice())?;
    expect(child.word(own, 0), 5)?;
    child.give_up(own);
    child.give_up(id);
    pass.join(child);
    Ok(())
}

// All room is taken by holds of one id, and comes back with each that is given up.
fn holds_one_id_to_the_end_of_its_room<R: Wait, P: Pass>(rt: &R, pass: &mut P) -> Result<(), Fail>
    requires { P.model pass.old ≡ opened 0 2 }
{
    let id = pass.keep(rt, [7; 64].as_slice())?;
    let none = pass.split(0)?;
    pass.share(id).ok().ok_or("gone")?;
    pass.join(none);
    pass.give_up(id);
    expect(pass.word(id, 63), 7)?;
    pass.give_up(id);
    let next = pass.keep(rt, [8].as_slice())?;
    if next == id {
        return Err(Fail::new("one id for two keeps"));
    }
    expect(pass.word(next, 0), 8)?;
    pass.share(id).ok().ok_or("gone")?;
    expect(pass.word(id, 0), 7)?;
    Ok(())
}

#[test]
fn passes_over_shared_pointers(rt: HostRuntime) -> Result<(), Fail> {
    let mut pass = ArcPass::open(rt.alloc(), 3)?;
    shares_what_was_given_up(&rt, &mut pass)?;
    let mut pass = ArcPass::open(rt.alloc(), 2)?;
    holds_one_id_to_the_end_of_its_room(&rt, &mut pass)?;
    Ok(())
}

// Words that were given up are still there for one that has seen them. That `share` never answers Gone here is known to
// the caller, which unwraps its answer.
#[test]
fn words_stay_for_those_that_have_seen_them(rt: HostRuntime) -> Result<(), Fail> {
    let mut pass = ArcPass::open(rt.alloc(), 2)?;
    let id = pass.keep(&rt, [1, 2].as_slice())?;
    let mut child = pass.split(1)?;
    pass.give_up(id);
    child.share(id).unwrap();
    expect(child.word(id, 0), 1)?;
    expect(child.word(id, 1), 2)?;
    Ok(())
}

// A pass that is split off and comes back, whatever the pass held before.
fn splits_and_takes_back<P: Pass>(pass: &mut P, room: u32) -> Result<(), NoMemory>
    requires { room ≤ (P.model pass.old).room }
    ensures { OnOk result (P.model pass.new ≡ joined (without (P.model pass.old) room) (child_of (P.model pass.old) room)) }
{
    let child = pass.split(room)?;
    pass.join(child);
    Ok(())
}

// Three holds below for each of its own, and room for as many: the numbers of a pass that keeps each piece three times.
#[derive(Drop)]
struct Threefold<P: Pass> {
    below: P,
    held: u32,
    room: u32,
    most: u32,
    ghost held_thrice: { (P.model below).held ≡ 3 * held },
    ghost room_thrice: { (P.model below).room ≡ 3 * room },
    ghost most_thrice: { (P.model below).most ≡ 3 * most },
}

impl<P: Pass> Threefold<P> {
    fn over(below: P, room: u32) -> Threefold<P>
        requires { P.model below ≡ opened (P.model below).store (3 * room) }
        ensures { (P.model result.below ≡ P.model below) × (result.held ≡ 0) × (result.room ≡ room) × (result.most ≡ room) }
    {
        Threefold {
            below,
            held: 0,
            room,
            most: room,
        }
    }

    fn split(&mut self, room: u32) -> Result<Threefold<P>, NoMemory>
        requires { room ≤ self.old.room }
        ensures child { IfOk result (λ child. (P.model child.below ≡ child_of (P.model self.old.below) (3 * room)) × (child.room ≡ room) × (child.most ≡ self.old.most)) }
        ensures rest { OnOk result (P.model self.new.below ≡ without (P.model self.old.below) (3 * room)) }
    {
        let below = self.below.split(3 * room)?;
        self.room -= room;
        Ok(Threefold {
            below,
            held: 0,
            room,
            most: self.most,
        })
    }

    fn join(&mut self, child: Threefold<P>)
        requires store { (P.model child.below).store ≡ (P.model self.old.below).store }
        requires nothing { HoldsNothing (P.model child.below) }
        requires few { self.old.held + self.old.room + child.room ≤ self.old.most }
        ensures { P.model self.new.below ≡ joined (P.model self.old.below) (P.model child.below) }
    {
        self.below.join(child.below);
        self.room += child.room;
    }
}

#[test]
fn a_third_of_the_room_is_split_off_and_taken_back(rt: HostRuntime) -> Result<(), Fail> {
    let mut pass = Threefold::over(ArcPass::open(rt.alloc(), 9)?, 3);
    let child = pass.split(2)?;
    expect(u64::from(pass.room), 1)?;
    pass.join(child);
    expect(u64::from(pass.room), 3)?;
    splits_and_takes_back(&mut pass.below, 9)?;
    Ok(())
}

// Keeps one word, and reads it.
fn kept_word<R: Wait, P: Pass>(rt: &R, pass: &mut P, word: u64) -> Result<(KeepId, u64), Fail>
    requires { 0 < (P.model pass.old).room }
    ensures { IfOk result (λ own. P.model pass.new ≡ kept (P.model pass.old) own.0 (word ∷ [])) }
{
    let id = pass.keep(rt, [word].as_slice())?;
    let read = pass.word(id, 0);
    Ok((id, read))
}

// Relatives keep under one id: a pass, one that was split off from it, and one that was split off from that.
fn relatives<R: Wait, P: Pass>(rt: &R, pass: &mut P) -> Result<[(KeepId, u64); 3], Fail>
    requires { P.model pass.old ≡ opened 0 4 }
{
    let (first, _) = kept_word(rt, pass, 1)?;
    let mut child = pass.split(2)?;
    let mut grandchild = child.split(1)?;
    let own = kept_word(rt, pass, 2)?;
    let of_child = kept_word(rt, &mut child, 3)?;
    let of_grandchild = kept_word(rt, &mut grandchild, 4)?;
    pass.give_up(first);
    Ok([own, of_child, of_grandchild])
}

#[test]
fn relatives_keep_different_words_under_one_id(rt: HostRuntime) -> Result<(), Fail> {
    let mut pass = ArcPass::open(rt.alloc(), 4)?;
    let [first, second, third] = relatives(&rt, &mut pass)?;
    let words = [first.1, second.1, third.1];
    if words != [2, 3, 4] || first.0 != second.0 || first.0 != third.0 {
        return Err(Fail::new(format_args!("{words:?} under ids that differ")));
    }
    Ok(())
}

// All words of an id at once.
#[test]
fn words_are_fetched_at_once(rt: HostRuntime) -> Result<(), Fail> {
    let mut pass = ArcPass::open(rt.alloc(), 2)?;
    let id = pass.keep_at_once([1, 2, 3].as_slice())?;
    let mut words = [0; 3];
    pass.fetch(id, words.as_mut_slice());
    if words != [1, 2, 3] {
        return Err(Fail::new("other words"));
    }
    Ok(())
}

#[test]
fn a_note_is_of_two_serials(rt: HostRuntime) -> Result<(), Fail> {
    let note = GoneNote::of(1, 2).ok_or("no note")?;
    expect(note.seen(), 1)?;
    expect(note.found(), 2)?;
    if GoneNote::of(3, 3).is_some() {
        return Err(Fail::new("a note of one serial"));
    }
    Ok(())
}
