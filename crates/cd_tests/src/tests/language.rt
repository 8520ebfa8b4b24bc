//! Texts through the reader and the printer: mistakes, choices of the language, and canonical texts.

use super::documents::{Refused, agree, canonical, joined, printed, read};
use super::texts::COPIED;
use cd_print::lifted;
use cd_tree::{Refusal, Which};
use std::alloc::Global;
use std::test::Fail;

/// What the reader refuses a text for.
macro_rules! at {
    ($refusal:ident, $line:literal) => {
        Some(Refusal::$refusal($line))
    };
}

macro_rules! over {
    ($which:ident, $count:literal) => {
        Some(Refusal::Limit(Which::$which, $count))
    };
}

/// Texts, each of two parts: each is refused by the reader for its refusal.
fn all_read(alloc: Global, cases: &[Refused]) -> Result<(), Fail> {
    for (front, back, wanted) in cases {
        let text = joined(alloc, &[*front, *back])?;
        let found = read(alloc, text.as_str())?.err();
        agree(text.as_str(), found, *wanted)?;
    }
    Ok(())
}

const HEAD: &str = "cd 1\nregion y 4 const 0\n";

const NAMED: &str = "cd 2\nkind seu\n";

/// Texts in two parts, each with what the reader refuses it for.
static MISTAKES: [Refused; 19] = refusals! {
    "", "" => at!(Line, 1);
    COPIED, "fill y 7\n" => at!(Line, 6);
    COPIED, "fill y 7\nend\n" => None;
    COPIED, "fil y 7\nend\n" => at!(Line, 5);
    COPIED, "fill q 7\nend\n" => at!(UnknownRegion, 5);
    COPIED, "fill y[4] 7\nend\n" => at!(OutsideRegion, 5);
    COPIED, "copy y y[0..3]\nend\n" => at!(Shape, 5);
    COPIED, "fill y 2-3\nend\n" => at!(Arithmetic, 5);
    COPIED, "fill q 18446744073709551616\nend\n" => at!(Arithmetic, 5);
    COPIED, "fill q 18446744073709551616+b\nend\n" => at!(Line, 5);
    COPIED, "for a in 3..3\nno statement\nend\nend\n" => None;
    COPIED, "group\nfor a in 3..3\nend\nend\nend\n" => at!(Line, 8);
    HEAD, "region y 1 const 0\ndomain root retry 2 detects flip\nend\n" => at!(NameTaken, 3);
    HEAD, "domain root retry 101 detects flip\nend\n" => over!(Retry, 101);
    HEAD, "domain root retry 2 detects flip,flip\nend\n" => at!(Line, 3);
    "cd 1\nfor a in 0..70000\nend\n", "domain root retry 1 detects none\nend\n" => over!(Lines, 65537);
    NAMED, "kind seu\ndomain root retry 1 detects none\nend\n" => at!(NameTaken, 3);
    NAMED, "domain root retry 2 detects flip\nend\n" => at!(Line, 3);
    NAMED, "kind flip halt\ndomain root retry 2 detects flip\nend\n" => None;
};

#[test]
fn each_mistake_has_its_refusal(rt: HostRuntime) -> Result<(), Fail> {
    all_read(rt.alloc(), &MISTAKES)
}

/// What the language leaves to a choice: texts in two parts, each with what the reader refuses it for.
static CHOICES: [Refused; 21] = refusals! {
    // A variable has no limit on its length.
    "cd 1\nfor a_variable_with_more_than_32_bytes in 0..1\nend\n", "domain root retry 1 detects none\nend\n" => None;
    // The version is its digit.
    "cd 01\n", "domain root retry 1 detects none\nend\n" => at!(Line, 1);
    "cd 0+1\n", "domain root retry 1 detects none\nend\n" => at!(Line, 1);
    // A group counts as an item at its line.
    COPIED, "for a in 0..16384\nfill y a\nend\ngroup\nend\nend\n" => over!(Items, 16385);
    // A loop may stand anywhere.
    "for a in 0..1\ncd 1\nend\n", "domain root retry 1 detects none\nend\n" => None;
    "cd 1\nfor a in 0..0\ndomain root retry 1 detects none\n", "end\nend\n" => at!(Line, 6);
    // A loop's line is read behind the last line that counts, and its first turn is one too many.
    "cd 1\nfor a in 0..65535\nend\n", "for b in 0..c\nend\n" => at!(Line, 4);
    "cd 1\nfor a in 0..65535\nend\n", "for b in 0..1\nend\n" => over!(Lines, 65537);
    // Forms come before numbers.
    COPIED, "end\nfaults\nstrike root 1-2 1 bang y[0] 1\n" => at!(Line, 7);
    COPIED, "region z 2-3 const 0\nend\n" => at!(Line, 5);
    // Digits have a value, and products go from left to right.
    COPIED, "fill y 0*18446744073709551616\nend\n" => at!(Arithmetic, 5);
    COPIED, "fill y 1-2+5\nend\n" => at!(Arithmetic, 5);
    COPIED, "fill y 0*4294967296*4294967296+1\nend\n" => None;
    // A loop's bounds know the variables around it.
    COPIED, "for a in 0..a\nend\nend\n" => at!(Line, 5);
    COPIED, "for a in 1..3\nfor a in 0..a\nend\nend\nend\n" => at!(NameTaken, 6);
    // The names of a path are not tried.
    COPIED, "end\nfaults\nstrike nobody/of_a_name_with_more_than_thirty_two_bytes 1 0 flip y[0] 1\n" => None;
    COPIED, "end\nfaults\nstrike root/a:1-2 1 0 flip y[0] 1\n" => at!(Arithmetic, 7);
    // A vertical tab is no blank.
    COPIED, "fill\u{b}y 7\nend\n" => at!(Line, 5);
    // A kind's name comes before the number of kinds.
    "cd 2\nkind ka\nkind kb\nkind kc\nkind kd\nkind ke\nkind kf\nkind kg\nkind kh\nkind ki\nkind kj\nkind kk\nkind kl\nkind km\nkind kn\nkind ko\nkind kp\n", "kind ka\ndomain root retry 1 detects none\nend\n" => at!(NameTaken, 18);
    // The only name that no kind has is `none`.
    "cd 2\nkind halt\nkind also halt\n", "domain root retry 1 detects halt\nend\n" => None;
    "cd 2\nkind none halt\n", "domain root retry 1 detects none\nend\n" => at!(Line, 2);
};

#[test]
fn choices_of_the_language_stand(rt: HostRuntime) -> Result<(), Fail> {
    all_read(rt.alloc(), &CHOICES)
}

/// Domains in loops, with names and numbers that are computed, and comments.
const LOOPS: &str =
    "cd 1 # three workers\nregion y 3*4 iota 0 1\ndomain root retry 2 detects node\npreserve y copy\ngroup\nfor a in 0..2\ndomain w:a+1 retry a+1 detects lost,flip\npreserve y[4*a..4*a+4] refer\nend\nend\nend\ngroup\ndomain only retry 1 detects none\nend\nend\nend\nfaults\nstrike root/w:1 1 0 flip y[2*1] 255\n";

/// The same without them.
const PLAIN: &str =
    "region y 12 iota 0 1\ndomain root retry 2 detects node\npreserve y[0..12] copy\ngroup\ndomain w1 retry 1 detects flip,lost\npreserve y[0..4] refer\nend\ndomain w2 retry 2 detects flip,lost\npreserve y[4..8] refer\nend\nend\ndomain only retry 1 detects none\nend\nend\nfaults\nstrike root/w1 1 0 flip y[2] 255\n";

const KINDS: &str = "cd 2\nkind flip\nkind lost\nkind link\nkind node\n";

/// The canonical text of the document that a text is, is this one.
fn is_written(alloc: Global, text: &str, wanted: &str) -> Result<(), Fail> {
    let written = canonical(alloc, text)?;
    if written.as_slice() == wanted.as_bytes() {
        return Ok(());
    }
    Err(Fail::new(format_args!("another text is written of {text}")))
}

/// The canonical text of the document that a text is, with its kinds declared, is this one.
fn is_lifted(alloc: Global, text: &str, wanted: &str) -> Result<(), Fail> {
    if let Ok(document) = read(alloc, text)? {
        let written = printed(alloc, &lifted(document))?;
        if written.as_slice() == wanted.as_bytes() {
            return Ok(());
        }
    }
    Err(Fail::new(format_args!("another document is lifted of {text}")))
}

#[test]
fn canonical_texts_are_written_and_read_back(rt: HostRuntime) -> Result<(), Fail> {
    let alloc = rt.alloc();
    let plain = joined(alloc, &["cd 1\n", PLAIN])?;
    let named = joined(alloc, &[KINDS, PLAIN])?;
    is_written(alloc, LOOPS, plain.as_str())?;
    is_written(alloc, plain.as_str(), plain.as_str())?;
    is_written(alloc, named.as_str(), named.as_str())?;
    is_lifted(alloc, LOOPS, named.as_str())
}
