//! The document that a text is, or its first refusal.
ghost use Rattle.std.specs.Prelude.{◌≡◌, ◌≤◌, length};
ghost use Rattle.cd_tree.specs.Limits.{text_limit};
ghost use Rattle.cd_tree.specs.TreeModel.{IsTree};
ghost use Rattle.cd_tokens.specs.Steps.{Answers};
ghost use Rattle.cd_parse.specs.Draft.{document_of};
ghost use Rattle.cd_parse.specs.Parsing.{parse};

use crate::draft::Draft;
use crate::parsing::read_draft;
use cd_base::Items;
use cd_tree::{Document, Refuse, Tree};
use std::alloc::Global;

// What a draft has said, whose domains are a program.
fn document(draft: Draft) -> Document
    requires { IsTree (record { kinds = draft.kinds; domains = draft.domains }) }
    ensures { result ≡ document_of draft }
{
    let Draft {
        version,
        kinds,
        regions,
        domains,
        faults,
        ..
    } = draft;
    Document {
        version,
        regions,
        tree: Tree::of(kinds, Items::of(domains.into_vec())),
        faults,
    }
}

/// The document that a text is, or the first of the refusals E2 to E8 that the text meets. The text has at most 1 MiB;
/// that it has is for the caller to see (E1).
pub fn read_document(alloc: Global, bytes: &[u8]) -> Result<Document, Refuse>
    requires { length bytes.now ≤ text_limit }
    ensures { Answers result (parse bytes.now) }
{
    match read_draft(alloc, bytes) {
        Ok(draft) => Ok(document(draft)),
        Err(refuse) => Err(refuse),
    }
}
