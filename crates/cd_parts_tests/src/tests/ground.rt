//! Words of patterns and unions of sets that no clause computes, lists and texts, and ends that fail at chosen calls.

ghost use Rattle.std.specs.Prelude.{◌≡◌, ◌<◌};

use cd_base::{
    Items, MemorySink, MemorySource, Pattern, Place, Places, Range, ReadStop, Sink, Source,
    StdSink, StdSource, Text, WriteStop, read_all, write_all,
};
use std::alloc::{AllocError, Global};
use std::io;
use std::test::Fail;

#[test]
fn patterns_give_their_words(rt: HostRuntime) {
    let cases = [
        (Pattern::Const(7), 4_000_000_000, 7),
        (Pattern::Iota(5, 3), 0, 5),
        (Pattern::Iota(5, 3), 4, 17),
        (Pattern::Iota(u64::MAX, 1), 2, 1),
        (Pattern::Mix(0), 0, 1442695040888963407),
        (Pattern::Mix(0), 1, 7806831264735756412),
        (Pattern::Mix(0), 2, 14170967488582549417),
        (Pattern::Mix(0), 3, 2088359638719790806),
        (Pattern::Mix(2), 1, 2088359638719790806),
    ];
    for (pattern, index, word) in cases {
        assert_eq!(rt; pattern.at(index), word, "at {index}");
    }
}

#[test]
fn a_text_is_copied(rt: HostRuntime) -> Result<(), Fail> {
    assert_eq!(rt; Text::of(rt.alloc(), "régions")?.as_str(), "régions");
    Ok(())
}

#[test]
fn items_stand_in_the_order_of_their_pushes(rt: HostRuntime) -> Result<(), Fail> {
    let mut items = Items::new(rt.alloc());
    items.push(3)?;
    items.push(1)?;
    assert_eq!(rt; items.items(), [3, 1].as_slice());
    assert_eq!(rt; items.into_vec().as_slice(), [3, 1].as_slice());
    Ok(())
}

/// A range of places of a region.
pub(crate) fn range(region: u32, low: u32, high: u32) -> Range
    ensures low { result.low ≡ low }
    ensures high { result.high ≡ high }
{
    Range { region, low, high }
}

#[test]
fn ranges_join_where_they_overlap_or_touch(rt: HostRuntime) -> Result<(), Fail> {
    let mut places = Places::new(rt.alloc());
    places.add(range(1, 10, 20))?;
    places.add(range(1, 30, 40))?;
    places.add(range(0, 30, 40))?;
    assert_eq!(rt;
        places.ranges(),
        [range(0, 30, 40), range(1, 10, 20), range(1, 30, 40)].as_slice()
    );
    places.add(range(1, 20, 25))?;
    assert_eq!(rt;
        places.ranges(),
        [range(0, 30, 40), range(1, 10, 25), range(1, 30, 40)].as_slice()
    );
    places.add(range(1, 25, 30))?;
    assert_eq!(rt;
        places.ranges(),
        [range(0, 30, 40), range(1, 10, 40)].as_slice()
    );
    places.add(range(1, 5, 12))?;
    places.add(range(1, 6, 7))?;
    places.add(range(2, 0, u32::MAX))?;
    assert_eq!(rt;
        places.ranges(),
        [range(0, 30, 40), range(1, 5, 40), range(2, 0, u32::MAX)].as_slice()
    );
    for (region, index, is_there) in [
        (0, 35, true),
        (1, 4, false),
        (1, 5, true),
        (1, 39, true),
        (1, 40, false),
        (3, 5, false),
    ] {
        assert_eq!(rt;
            places.has(Place { region, index }),
            is_there,
            "at {region}, {index}"
        );
    }
    Ok(())
}

// The set of some ranges, of which none is to be empty.
fn set(alloc: Global, ranges: &[Range]) -> Result<Places, Fail> {
    if ranges.iter().all(|range| range.low < range.high) {
        Ok(Places::of(alloc, ranges)?)
    } else {
        Ok(Places::new(alloc))
    }
}

// The two sets as one.
fn union(alloc: Global, one: &Places, other: &Places) -> Result<Places, Fail> {
    let mut both = one.try_clone(alloc)?;
    both.union(other)?;
    Ok(both)
}

#[test]
fn two_sets_are_united_and_compared(rt: HostRuntime) -> Result<(), Fail> {
    let alloc = rt.alloc();
    let at = |region: u32, index: u32| Some(Place { region, index });
    let (left, right) = (range(0, 2, 4), range(1, 2, 4));
    let pair = [left, right];
    for (other, both, common, lacking) in [
        // touching
        (
            [range(0, 4, 6), range(1, 0, 2)],
            [range(0, 2, 6), range(1, 0, 4)],
            None,
            at(0, 4),
        ),
        // overlapping
        (
            [range(1, 3, 5), range(0, 1, 3)],
            [range(0, 1, 4), range(1, 2, 5)],
            at(0, 2),
            at(0, 1),
        ),
        // nested
        (
            [range(0, 1, 9), range(1, 3, 4)],
            [range(0, 1, 9), range(1, 2, 4)],
            at(0, 2),
            at(0, 1),
        ),
        ([range(1, 2, 3), range(0, 3, 4)], pair, at(0, 3), None),
        // the same
        (pair, pair, at(0, 2), None),
        // the end of a region is not the start of the next
        (
            [range(0, 0, u32::MAX), range(1, 2, 4)],
            [range(0, 0, u32::MAX), right],
            at(0, 2),
            at(0, 0),
        ),
    ] {
        let one = set(alloc, &pair)?;
        let other = set(alloc, &other)?;
        assert_eq!(rt; union(alloc, &one, &other)?.ranges(), both.as_slice());
        assert_eq!(rt; one.meets(&other), common);
        assert_eq!(rt; one.lacks(&other), lacking);
    }
    Ok(())
}

#[test]
fn a_set_of_ranges_in_any_order(rt: HostRuntime) -> Result<(), Fail> {
    let ranges = [
        range(1, 4, 6),
        range(0, 7, 9),
        range(1, 0, 2),
        range(0, 0, 3),
        range(0, 2, 5),
        range(0, 8, 9),
        range(1, 2, 4),
    ];
    let set = set(rt.alloc(), &ranges)?;
    assert_eq!(rt;
        set.ranges(),
        [range(0, 0, 5), range(0, 7, 9), range(1, 0, 6)].as_slice()
    );
    for (part, first) in [
        (range(0, 3, 9), Some((0, 3))),
        (range(0, 5, 7), None),
        (range(0, 5, 8), Some((0, 7))),
        (range(0, 9, u32::MAX), None),
        (range(1, 0, 0), None),
        (range(1, 5, 9), Some((1, 5))),
        (range(2, 0, 9), None),
    ] {
        let place = first.map(|(region, index)| Place { region, index });
        assert_eq!(rt; set.first_in(part), place);
    }
    Ok(())
}

// The sets of places of two regions of five places that are at most three ranges.
fn small_sets(alloc: Global) -> Result<Vec<Places>, Fail> {
    let mut sets = Vec::new(alloc);
    for mask in 0..1024u32 {
        let mut places = Places::new(alloc);
        for bit in 0..10u32 {
            if mask >> bit & 1 == 1 {
                places.add(range(bit / 5, bit % 5, bit % 5 + 1))?;
            }
        }
        if places.ranges().len() <= 3 {
            sets.push(places)?;
        }
    }
    Ok(sets)
}

// Whether the answers on two such sets are those of a plain loop over all places.
fn agree(alloc: Global, one: &Places, other: &Places) -> Result<bool, Fail> {
    let both = union(alloc, one, other)?;
    let mut common = None;
    let mut lacking = None;
    for bit in 0..10u32 {
        let place = Place {
            region: bit / 5,
            index: bit % 5,
        };
        let (here, there) = (one.has(place), other.has(place));
        if both.has(place) != (here || there) {
            return Ok(false);
        }
        if common.is_none() && here && there {
            common = Some(place);
        }
        if lacking.is_none() && there && !here {
            lacking = Some(place);
        }
    }
    Ok(one.meets(other) == common && one.lacks(other) == lacking)
}

#[test]
fn all_pairs_of_small_sets_agree_with_a_plain_loop(rt: HostRuntime) -> Result<(), Fail> {
    let alloc = rt.alloc();
    let sets = small_sets(alloc)?;
    assert_eq!(rt; sets.len(), 738);
    for one in &sets {
        for other in &sets {
            assert!(rt; agree(alloc, one, other)?);
        }
    }
    Ok(())
}

fn source(
    alloc: Global,
    bytes: &[u8],
    step: usize,
    fails: &[u64],
) -> Result<MemorySource, AllocError>
    requires { 0 < step }
{
    let bytes = Vec::from_slice(alloc, bytes)?;
    Ok(MemorySource::new(bytes, step, Vec::from_slice(alloc, fails)?))
}

#[test]
fn everything_is_read_in_any_steps(rt: HostRuntime) -> Result<(), Fail> {
    let alloc = rt.alloc();
    let mut short = source(alloc, b"abc", 1, &[])?;
    assert_eq!(rt;
        read_all(alloc, &mut short, 3)?.as_slice(),
        b"abc".as_slice()
    );
    assert_eq!(rt; read_all(alloc, &mut short, 0)?.as_slice(), b"".as_slice());
    let mut long = source(alloc, &[7; 10_000], 5_000, &[])?;
    assert_eq!(rt;
        read_all(alloc, &mut long, 10_000)?.as_slice(),
        [7; 10_000].as_slice()
    );
    Ok(())
}

// That reading three bytes stops for this reason, and that these are left then.
fn stops(
    alloc: Global,
    mut source: MemorySource,
    limit: u32,
    (why, rest): (ReadStop, &str),
) -> Result<(), Fail> {
    let stop = read_all(alloc, &mut source, limit).err();
    let left = read_all(alloc, &mut source, 9)?;
    if stop == Some(why) && left.as_slice() == rest.as_bytes() {
        Ok(())
    } else {
        Err(Fail::new(format_args!("{rest} is to be left: {stop:?}")))
    }
}

#[test]
fn a_fault_at_any_read_takes_nothing(rt: HostRuntime) -> Result<(), Fail> {
    let alloc = rt.alloc();
    for (call, rest) in [(1, "abc"), (2, "bc"), (3, "c"), (4, "")] {
        let source = source(alloc, b"abc", 1, &[call])?;
        stops(alloc, source, 9, (ReadStop::Failed, rest))?;
    }
    Ok(())
}

#[test]
fn too_long_takes_one_byte_past_the_limit(rt: HostRuntime) -> Result<(), Fail> {
    let alloc = rt.alloc();
    for (limit, rest) in [(0, "bc"), (1, "c"), (2, "")] {
        let source = source(alloc, b"abc", 2, &[])?;
        stops(alloc, source, limit, (ReadStop::TooLong, rest))?;
    }
    Ok(())
}

#[test]
fn a_fault_at_any_write_leaves_the_front(rt: HostRuntime) -> Result<(), Fail> {
    let alloc = rt.alloc();
    let mut whole = MemorySink::new(alloc, 1, Vec::new(alloc));
    write_all(&mut whole, b"abc")?;
    assert_eq!(rt; whole.bytes(), b"abc".as_slice());
    for (call, front) in [(1, ""), (2, "a"), (3, "ab")] {
        let mut sink = MemorySink::new(alloc, 1, Vec::from_slice(alloc, &[call])?);
        assert_eq!(rt;
            write_all(&mut sink, b"abc"),
            Err(WriteStop::Failed),
            "at {call}"
        );
        assert_eq!(rt; sink.bytes(), front.as_bytes(), "at {call}");
    }
    Ok(())
}

#[test]
fn standard_ends_pass_bytes_on(rt: HostRuntime) -> Result<(), Fail> {
    let mut source = StdSource::new(io::Cursor::new(b"abc"));
    assert_eq!(rt;
        read_all(rt.alloc(), &mut source, 3)?.as_slice(),
        b"abc".as_slice()
    );
    let mut full = StdSink::new(io::Cursor::new([0; 2]));
    assert_eq!(rt; write_all(&mut full, b"abc"), Err(WriteStop::Failed));
    Ok(())
}
