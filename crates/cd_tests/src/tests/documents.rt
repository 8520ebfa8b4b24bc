//! Documents through the reader, the checks and the printer, and the helpers by which tables of them are tried.

use cd_base::MemorySink;
use cd_check::check;
use cd_foot::Footprints;
use cd_parse::read_document;
use cd_print::print_document;
use cd_tree::limits::MOST_TEXT;
use cd_tree::{Document, Refusal, Refuse};
use std::alloc::Global;
use std::test::Fail;

/// Some texts, one after the other.
pub(crate) fn joined(alloc: Global, parts: &[&str]) -> Result<String, Fail> {
    let mut text = String::new(alloc);
    for part in parts {
        text.push_str(part)?;
    }
    Ok(text)
}

/// The document that a text is, or its refusal.
pub(crate) fn read(alloc: Global, text: &str) -> Result<Result<Document, Refusal>, Fail> {
    let bytes = text.as_bytes();
    if bytes.len() > MOST_TEXT as usize {
        return Ok(Err(Refusal::TooLong));
    }
    match read_document(alloc, bytes) {
        Ok(document) => Ok(Ok(document)),
        Err(refuse) => Ok(Err(refused(refuse)?)),
    }
}

/// The first refusal of a text: by the reader, by siblings that interfere, by the plan, by the script.
pub(crate) fn first_refusal(alloc: Global, text: &str) -> Result<Option<Refusal>, Fail> {
    match read(alloc, text)? {
        Ok(document) => refusal_of(alloc, &document),
        Err(refusal) => Ok(Some(refusal)),
    }
}

fn refusal_of(alloc: Global, document: &Document) -> Result<Option<Refusal>, Fail> {
    let feet = Footprints::of(alloc, &document.tree)?;
    match check(alloc, document, &feet) {
        Ok(_) => Ok(None),
        Err(refuse) => Ok(Some(refused(refuse)?)),
    }
}

/// A refusal, where there was memory.
pub(crate) fn refused(refuse: Refuse) -> Result<Refusal, Fail> {
    match refuse {
        Refuse::Refused(refusal) => Ok(refusal),
        Refuse::NoMemory => Err(Fail::new("there was no memory")),
    }
}

/// The canonical text of the document that a text is.
pub(crate) fn canonical(alloc: Global, text: &str) -> Result<Vec<u8>, Fail> {
    match read(alloc, text)? {
        Ok(document) => printed(alloc, &document),
        Err(_) => Err(Fail::new("the text is refused")),
    }
}

/// The canonical text of a document.
pub(crate) fn printed(alloc: Global, document: &Document) -> Result<Vec<u8>, Fail> {
    let mut sink = MemorySink::new(alloc, 4096, Vec::new(alloc));
    match print_document(alloc, document, &mut sink) {
        Ok(()) => Ok(Vec::from_slice(alloc, sink.bytes())?),
        Err(_) => Err(Fail::new("the text was not written")),
    }
}

/// Fails, and names the text, unless it is refused for what is wanted.
pub(crate) fn agree(
    text: &str,
    found: Option<Refusal>,
    wanted: Option<Refusal>,
) -> Result<(), Fail> {
    if found == wanted {
        return Ok(());
    }
    Err(Fail::new(format_args!("{found:?} in place of {wanted:?}: {text}")))
}

/// Two parts of a document, and what it is refused for.
pub(crate) type Refused<'a> = (&'a str, &'a str, Option<Refusal>);

/// Documents, each of two parts with these texts before, between and after them: each is refused for its refusal.
pub(crate) fn all_refused(
    alloc: Global,
    (before, between, after): (&str, &str, &str),
    cases: &[Refused],
) -> Result<(), Fail> {
    for (front, back, wanted) in cases {
        let text = joined(alloc, &[before, *front, between, *back, after])?;
        agree(text.as_str(), first_refusal(alloc, text.as_str())?, *wanted)?;
    }
    Ok(())
}
