//! What prints the parts of a document.

use cd_tree::Document;

/// A document that is printed. It names the regions and kinds of its parts.
#[derive(Clone, Copy)]
pub struct Printer<'a> {
    pub document: &'a Document,
}
