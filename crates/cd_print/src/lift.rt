//! A document in version 2 of the language.
ghost use Rattle.std.specs.Prelude.{◌≡◌};
ghost use Rattle.cd_print.specs.Canonical as canonical;

use cd_tree::Document;

/// The document in version 2 of the language, which says the same. It takes no memory.
pub fn lifted(document: Document) -> Document
    ensures { result ≡ canonical.lifted document }
{
    Document {
        version: 2,
        regions: document.regions,
        tree: document.tree,
        faults: document.faults,
    }
}
